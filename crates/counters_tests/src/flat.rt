// One amount for every question up to a last one.
ghost use Rattle.std.specs.Prelude.{◌≡◌, ◌≤◌, min};
ghost use Rattle.rows.specs.Limits.{top};
ghost use Rattle.counters_tests.specs.UpTo.{up_to, up_to_lawful};

use counters::Counter;
use rows::TOP;

#[derive(Drop)]
pub struct Flat {
    amount: u32,
    last: u32,
    ghost small: { amount ≤ top },
    ghost short: { last ≤ top },
}

impl Flat {
    // What is above the largest amount is taken for it.
    pub fn new(amount: u32, last: u32) -> Flat
        ensures amount { result.amount ≡ min amount top }
        ensures last { result.last ≡ min last top }
    {
        Flat {
            amount: amount.min(TOP),
            last: last.min(TOP),
        }
    }
}

impl Counter for Flat {
    ghost table = { λ c. up_to c.last (λ _. c.amount) };

    ghost laws = { λ c. up_to_lawful c.last (λ _. c.amount) c.short (λ _ _. c.small) };

    fn answer(&mut self, question: u32) -> Option<u32> {
        (question <= self.last).then_some(self.amount)
    }
}
