// What a rule's text is read as, in lines that people can read.
#![tactic(auto)]

ghost use Rattle.std.specs.Prelude.{◌≡◌, IfOk, string_bytes};
ghost use Rattle.listing.specs.Theorems.{ReadRowsPass};
ghost use Rattle.listing.specs.Lines.{chomped, listed, shown};

use rows::{TermRow, TypeRow};
use std::alloc::{AllocError, Global};

mod line;
mod refusal;
mod tables;

pub use refusal::Refusal;
pub use tables::{SIGHT_ROWS, Tables};

// The listing of two tables: the counts and a line for each row.
pub fn list_rows(heap: Global, types: &[TypeRow], terms: &[TermRow]) -> Result<String, AllocError>
    ensures { IfOk result (λ s. string_bytes s ≡ listed types.now terms.now) }
{
    let mut out = format!(in heap; "types {} terms {}\n", types.len(), terms.len())?;
    line::add_lines(&mut out, types)?;
    line::add_lines(&mut out, terms)?;
    Ok(out)
}

// The rule in what is typed or piped in: all of it, less a line feed at its end.
pub fn rule_in(input: &[u8]) -> &[u8]
    ensures { result.now ≡ chomped input.now }
{
    input.strip_suffix(b"\n").unwrap_or(input)
}

// The listing of a rule: the counts and a line for each row, or the first refusal, of reading or of checking.
pub fn list(heap: Global, input: &[u8]) -> Result<String, AllocError>
    ensures { IfOk result (λ s. string_bytes s ≡ shown (chomped input.now)) }
{
    let mut tables = Tables::ZERO;
    let mut sight = [0; SIGHT_ROWS];
    match tables.read(rule_in(input), &mut sight) {
        Ok(sheet) => list_rows(heap, sheet.types(), sheet.terms()),
        Err(refusal) => format!(in heap; "{refusal}\n"),
    }
}

// What is read keeps the laws of tables, so that the check can refuse it only for its binders and types.
pub fn read_rows_pass()
    ensures { ReadRowsPass 16384 1024 2048 }
{
    grammar::reads_exactly();
    checker::verdict_means();
}
