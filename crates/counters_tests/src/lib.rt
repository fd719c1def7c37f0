// Counters as another maker writes them, code over any counter, and the tests of the counters.
#![tactic(auto)]

mod flat;
mod points;
mod sums;
#[cfg(test)]
mod tests;
mod till;

pub use flat::Flat;
pub use points::Points;
pub use sums::sum_of;
pub use till::ask;
