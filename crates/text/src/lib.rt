// The text of a rule: the lexer, the reader and the writer.
#![tactic(auto)]

mod lexer;
mod opens;
mod reader;
mod refusal;
mod sink;
mod theorems;
mod tokens;
mod turns;
mod walk;
mod words;
mod writer;

pub use lexer::{token, trim};
pub use opens::{Counts, OpenForm, Parts, Refusal};
pub use reader::{MOST_BYTES, read};
pub use refusal::WriteRefusal;
pub use theorems::tight_reads;
pub use tokens::Token;
pub use writer::write;
