// Points for money, computed from the question; the last ones are kept, and not computed again.
ghost use Rattle.std.specs.Prelude.{◌≡◌};
ghost use Rattle.rows.specs.Limits.{top};
ghost use Rattle.counters_tests.specs.UpTo.{up_to};
ghost use Rattle.counters_tests.specs.Points.{points as points_for, points_lawful};

use counters::Counter;
use rows::TOP;

#[derive(Drop)]
pub struct Points {
    money: u32,
    points: u32,
    ghost kept: { points ≡ points_for money },
}

impl Points {
    pub fn new() -> Points {
        Points {
            money: 0,
            points: 0,
        }
    }
}

impl Counter for Points {
    // The table says nothing of what is kept, so that keeping something else leaves it alike.
    ghost table = { λ _. up_to top points_for };

    ghost laws = { λ _. points_lawful };

    fn answer(&mut self, question: u32) -> Option<u32> {
        if question > TOP {
            return None;
        }
        if question != self.money {
            *self = Points {
                money: question,
                points: question / 100,
            };
        }
        Some(self.points)
    }
}
