// Two counters, joined at a point.
ghost use Rattle.std.specs.Prelude.{◌≡◌};
ghost use Rattle.counters.specs.Splits.{split_table};
ghost use Rattle.counters.specs.LawfulSplits.{split_lawful};

use crate::counter::Counter;
use rows::TOP;

// Questions below the point go to the first counter, others up to the largest amount to the second.
#[derive(Drop)]
pub struct Split<A, B> {
    pub first: A,
    pub second: B,
    pub point: u32,
}

impl<A: Counter, B: Counter> Split<A, B> {
    // A split at any point.
    pub fn new(first: A, second: B, point: u32) -> Split<A, B>
        ensures { result ≡ record { first = first; second = second; point = point } }
    {
        Split {
            first,
            second,
            point,
        }
    }
}

impl<A: Counter, B: Counter> Counter for Split<A, B> {
    ghost table = { λ s. split_table s.point (A.Counter.table s.first) (B.Counter.table s.second) };

    ghost laws = { λ s. split_lawful s.point (A.Counter.table s.first) (B.Counter.table s.second) (A.Counter.laws s.first) (B.Counter.laws s.second) };

    fn answer(&mut self, question: u32) -> Option<u32> {
        if question < self.point {
            self.first.answer(question)
        } else if question <= TOP {
            self.second.answer(question - self.point)
        } else {
            None
        }
    }
}
