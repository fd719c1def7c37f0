// Checks the two tables of a rule: a sheet that passes keeps the laws of tables, and its rule has the type nat.
#![tactic(auto)]

mod forms;
mod refusal;
mod rules;
mod sheet;
mod tables;
mod theorems;
mod type_rules;
mod verdict;

pub use refusal::{Fault, Refusal};
pub use sheet::Passed;
pub use sheet::check::check;
pub use theorems::{rows_placed, verdict_means};
