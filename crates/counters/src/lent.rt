// A counter that is lent is a counter, so that a split need not move what it is made of.
use crate::counter::Counter;

impl<C: Counter> Counter for &mut C {
    ghost table = { λ c. C.Counter.table c.now };

    ghost laws = { λ c. C.Counter.laws c.now };

    fn answer(&mut self, question: u32) -> Option<u32> {
        (**self).answer(question)
    }
}
