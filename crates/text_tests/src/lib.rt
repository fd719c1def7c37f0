// Texts with what they are read as. The reader is called with rows that hold other things before, so that what it
// leaves in them is its own doing.
#![tactic(auto)]

ghost use Rattle.std.specs.Prelude.{◌≤◌, length};

use rows::{TermRow, TypeRow};
use text::{Counts, OpenForm, Refusal};

#[cfg(test)]
mod tests;

// One row more of each kind than a reading may use.
const TYPES: usize = 1_025;

const TERMS: usize = 2_049;

const OPENS: usize = 64;

// Other things than zeros.
const TYPE: TypeRow = TypeRow {
    kind: 7,
    left: 8,
    right: 9,
};

const TERM: TermRow = TermRow {
    kind: 7,
    ty: 8,
    number: 9,
    a: 10,
    b: 11,
    c: 12,
};

// What a text is read as with so many rows handed over, at most as many as there are here.
pub(crate) fn read_with(
    rule: &[u8],
    types: usize,
    terms: usize,
    opens: usize,
) -> Result<Counts, Refusal> {
    text::read(
        rule,
        &mut [TYPE; TYPES][..types.min(TYPES)],
        &mut [TERM; TERMS][..terms.min(TERMS)],
        &mut [OpenForm::TermWord; OPENS][..opens.min(OPENS)],
    )
}

pub(crate) fn read_all(rule: &[u8]) -> Result<Counts, Refusal> {
    read_with(rule, TYPES, TERMS, OPENS)
}

// How many rows of both tables are not zero after a reading or a refusal.
pub(crate) fn rows_left(rule: &[u8]) -> (usize, usize) {
    let mut types = [TYPE; TYPES];
    let mut terms = [TERM; TERMS];
    let mut opens = [OpenForm::TermWord; OPENS];
    let _ = text::read(rule, &mut types, &mut terms, &mut opens);
    (others(&types, TypeRow::ZERO), others(&terms, TermRow::ZERO))
}

// How many rows differ from one.
fn others<R: PartialEq + Copy>(rows: &[R], row: R) -> usize {
    rows.iter().filter(|other| **other != row).count()
}

// A text of 16,385 bytes: spaces, with `front` at its front and `last` for its last byte but one.
pub(crate) fn spaced(front: &[u8], last: u8) -> [u8; 16_385]
    requires { length front.now ≤ 16385 }
{
    let mut bytes = [b' '; 16_385];
    bytes[..front.len()].copy_from_slice(front);
    bytes[16_383] = last;
    bytes
}
