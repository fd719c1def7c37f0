// The rows of a rule's two tables, the forms that they stand for, the limits on them, the search for an equal type row,
// and the stack that the readers of tables share.
#![tactic(auto)]

mod forms;
mod search;
mod stack;
mod tables;

pub use forms::{Form, Head, Shape, form_of};
pub use search::{find_type, same_row};
pub use stack::{Full, Stack};
pub use tables::{TermRow, TypeRow};

// The largest amount, and the largest distance of a name.
pub const TOP: u32 = 999_999_999;
// The most type rows and term rows of a sheet.
pub const MOST_TYPES: usize = 1_024;

pub const MOST_TERMS: usize = 2_048;
