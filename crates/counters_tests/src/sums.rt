// Code over any counter, proved from the trait alone.
ghost use Rattle.std.specs.Prelude.{◌≡◌, ◌+◌, ◌≤◌};
ghost use Rattle.rows.specs.Limits.{top};
ghost use Rattle.counters.specs.Tables.{amount_or_zero};

use counters::Counter;

// The amount for a question, and 0 where there is none.
fn amount_of<C: Counter>(counter: &mut C, question: u32) -> u32
    ensures amount { result ≡ amount_or_zero (C.Counter.table counter.old question) }
    ensures small { result ≤ top }
    ensures alike { C.Counter.table counter.new ≡ C.Counter.table counter.old }
{
    counter.answer(question).unwrap_or(0)
}

// The sum of two answers, which fits since no amount is above the largest; the counter's table stays.
pub fn sum_of<C: Counter>(counter: &mut C, first: u32, second: u32) -> u32
    ensures sum { result ≡ amount_or_zero (C.Counter.table counter.old first) + amount_or_zero (C.Counter.table counter.old second) }
    ensures alike { C.Counter.table counter.new ≡ C.Counter.table counter.old }
{
    amount_of(counter, first) + amount_of(counter, second)
}
