// Tables with what the checker says of them.
#![tactic(auto)]

use checker::{Fault, Passed, check};
use listing::{Refusal, Tables};
use rows::{Form, MOST_TERMS, MOST_TYPES, Shape, TermRow, TypeRow};
use std::array;

#[cfg(test)]
mod tests;

// As many types as there may be, each a function to the one before it.
pub(crate) fn chain_of_types() -> [TypeRow; MOST_TYPES] {
    array::from_fn(|p| match p.checked_sub(1) {
        None => TypeRow::ZERO,
        Some(before) => TypeRow::new(Shape::To, 0, before as u32),
    })
}

// As many terms as there may be: a leaf, and then rows of a form, each around the one before it.
pub(crate) fn chain_of_terms(first: TermRow, form: Form) -> [TermRow; MOST_TERMS] {
    array::from_fn(|p| match p.checked_sub(1) {
        None => first,
        Some(before) => TermRow::form(form, 0, [before as u32, 0, 0]),
    })
}

pub(crate) fn refused(fault: Fault, row: u32) -> Result<(), Refusal> {
    Err(Refusal::Checking(checker::Refusal { fault, row }))
}

// What the checker says of two tables, with so many sight rows, at most as many as there may be terms.
pub(crate) fn judged(types: &[TypeRow], terms: &[TermRow], sight: usize) -> Result<(), Refusal> {
    let mut rows = [7; MOST_TERMS];
    let mut place = Passed::builtin();
    check(types, terms, &mut rows[..sight.min(MOST_TERMS)], &mut place)?;
    Ok(())
}

// What it says of the tables that a text is read into.
pub(crate) fn judged_text(rule: &[u8], sight: usize) -> Result<(), Refusal> {
    let mut tables = Tables::ZERO;
    let mut rows = [7; MOST_TERMS];
    tables.read(rule, &mut rows[..sight.min(MOST_TERMS)])?;
    Ok(())
}

// How many rows the place holds after a check with a sight row: those of the sheet that passed last.
pub(crate) fn rows_held(types: &[TypeRow], terms: &[TermRow], then: &[TermRow]) -> (usize, usize) {
    let mut rows = [0];
    let mut place = Passed::builtin();
    let _ = check(types, terms, &mut rows, &mut place);
    let _ = check(types, then, &mut rows, &mut place);
    (place.types().len(), place.terms().len())
}
