// Runs rules: the store of frames and cells, and the machine's step over it.
#![tactic(auto)]

mod control;
mod limits;
mod run;
mod state;
mod store;

pub use limits::Limits;
pub use limits::making::LimitFault;
pub use run::Run;
