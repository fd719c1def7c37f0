// What a reading works on: the tables, the brackets that are open, and what goes into them.
ghost use Rattle.std.specs.Prelude.{◌≡◌, ◌<◌, ◌≤◌, length, slice_index};

use grammar::Fault;
use rows::{Form, Shape, Stack, TermRow, TypeRow};

// Up to three rows; those that are not there yet are 0. Not the library's fixed vector, since an entry of the stack of
// brackets is copied.
#[derive(Clone, Copy)]
pub struct Parts {
    pub(crate) count: u8,
    pub(crate) rows: [u32; 3],
    ghost few: { count ≤ 3 },
    ghost clean: { (count < 1 → slice_index rows 0 ≡ 0) × (count < 2 → slice_index rows 1 ≡ 0) × (count < 3 → slice_index rows 2 ≡ 0) },
}

// An open bracket: its word is still wanted, or it has a word and holds these types and terms so far.
#[derive(Clone, Copy)]
pub enum OpenForm {
    TermWord,
    TypeWord,
    Type(Shape, Parts),
    Term(Form, Parts, Parts),
}

// What the next token has to begin, or to be.
#[derive(Clone, Copy)]
pub(crate) enum Want {
    Term,
    Type,
    TermWord,
    TypeWord,
    Close,
}

// The row of a whole type or term, which goes into the bracket around it.
#[derive(Clone, Copy)]
pub(crate) enum Part {
    Type(u32),
    Term(u32),
}

// How many rows have been made.
#[derive(Clone, Copy, PartialEq, Eq, Debug, Default)]
pub struct Counts {
    pub types: usize,
    pub terms: usize,
}

// What is wrong with a text, and the first byte at fault.
#[derive(Clone, Copy, PartialEq, Eq, Debug)]
pub struct Refusal {
    pub fault: Fault,
    pub place: usize,
}

// The tables that are filled, with the rows made so far at their front, and the open brackets. A `Stack` by value for
// each table would hide its slice from the caller; so each method says that the slices stay the same.
#[derive(Drop)]
pub(crate) struct Reader<'a, 'b> {
    pub(crate) types: &'a mut [TypeRow],
    pub(crate) terms: &'a mut [TermRow],
    pub(crate) made: Counts,
    pub(crate) opens: &'a mut Stack<'b, OpenForm>,
    ghost types_within: { made.types ≤ length types.now },
    ghost terms_within: { made.terms ≤ length terms.now },
    ghost few_types: { length types.now ≤ 1024 },
    ghost few_terms: { length terms.now ≤ 2048 },
}
