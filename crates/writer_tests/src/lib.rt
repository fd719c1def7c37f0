// Rules as tables, for the tests of the writer.
#![tactic(auto)]

use checker::{Passed, Refusal, check};
use rows::{Form, MOST_TERMS, MOST_TYPES, Shape, TermRow, TypeRow};
use std::array;

#[cfg(test)]
mod tests;

// Two tables as a sheet, if they pass.
pub(crate) fn sheet_of<'t>(
    types: &'t [TypeRow],
    terms: &'t [TermRow],
) -> Result<Passed<'t>, Refusal> {
    let mut sight = [0; MOST_TERMS];
    let mut sheet = Passed::builtin();
    check(types, terms, &mut sight, &mut sheet)?;
    Ok(sheet)
}

// The row of an s.
fn succ(part: u32) -> TermRow {
    TermRow::form(Form::Succ, 0, [part, 0, 0])
}

// As many types as there may be, each a function from the one before it to the same, but for the last, which is one from
// that to nat: the text of row n is twice as long as that of row n - 1.
pub(crate) fn doubling_types() -> [TypeRow; MOST_TYPES] {
    let mut types = array::from_fn(|p| match p.checked_sub(1) {
        None => TypeRow::ZERO,
        Some(before) => TypeRow::new(Shape::To, before as u32, before as u32),
    });
    types[MOST_TYPES - 1].right = 0;
    types
}

// As many terms as there may be: a number in so many s.
pub(crate) fn nested_terms() -> [TermRow; MOST_TERMS] {
    array::from_fn(|p| match p.checked_sub(1) {
        None => TermRow::number(0),
        Some(before) => succ(before as u32),
    })
}

// How many rows the table below has: a number, five times s, and 909 times catch with a number.
const LONG_ROWS: usize = 1_824;

// A rule of 16,382 bytes and as many as its first number has digits: (catch (catch ... (s (s N)) ... 999999999) 999999999).
pub(crate) fn long_terms(first: u32) -> [TermRow; LONG_ROWS] {
    array::from_fn(|p| match p {
        0 => TermRow::number(first),
        1..=5 => succ(p as u32 - 1),
        _ if p % 2 == 0 => TermRow::number(999_999_999),
        _ => TermRow::form(Form::Catch, 0, [p as u32 - 2, p as u32 - 1, 0]),
    })
}
