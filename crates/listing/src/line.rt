// The lines of rows.
ghost use Rattle.std.specs.Prelude.{◌≡◌, ℕ, List, ◌++◌, string_bytes, OnOk};
ghost use Rattle.listing.specs.Lines.{type_word, term_word, type_line, term_line, lines};

use rows::{Form, Head, Shape, TermRow, TypeRow};
use std::alloc::AllocError;

// A row that has a line of its own, at its place in the table.
pub(crate) trait Listed: Copy {
    ghost line: { ℕ → Self → List ℕ };

    fn add_line(self, place: usize, out: &mut String) -> Result<(), AllocError>
        ensures { OnOk result (string_bytes out.new ≡ string_bytes out.old ++ line place self) };
}

impl Listed for TypeRow {
    ghost line = { type_line };

    fn add_line(self, place: usize, out: &mut String) -> Result<(), AllocError> {
        writeln!(
            out,
            "type {place}: {} left {} right {}",
            type_word(self),
            self.left,
            self.right
        )
    }
}

impl Listed for TermRow {
    ghost line = { term_line };

    fn add_line(self, place: usize, out: &mut String) -> Result<(), AllocError> {
        writeln!(
            out,
            "term {place}: {} type {} number {} parts {} {} {}",
            term_word(self),
            self.ty,
            self.number,
            self.a,
            self.b,
            self.c
        )
    }
}

// Adds a line for each row.
pub(crate) fn add_lines<R: Listed>(out: &mut String, rows: &[R]) -> Result<(), AllocError>
    ensures { OnOk result (string_bytes out.new ≡ string_bytes out.old ++ lines R.line 0 rows.now) }
{
    for (place, row) in rows.iter().enumerate() {
        row.add_line(place, out)?;
    }
    Ok(())
}

// The word of a type row; a kind that no lawful row has is listed as `?`.
fn type_word(row: TypeRow) -> &'static str
    ensures { result.now ≡ type_word row.kind }
{
    match row.shape() {
        Some(Shape::To) => "to",
        Some(Shape::Both) => "both",
        None if row.kind == 0 => "nat",
        None => "?",
    }
}

// The word of a term row, likewise. The words of forms stand in `text` too, there each after its bracket, so that the
// writer puts both at once.
fn term_word(row: TermRow) -> &'static str
    ensures { result.now ≡ term_word row.kind }
{
    if row.kind > Form::Catch.kind() {
        return "?";
    }
    match row.head() {
        Head::Number => "number",
        Head::Name => "name",
        Head::Form(form) => match form {
            Form::Succ => "s",
            Form::Ifz => "ifz",
            Form::Lam => "lam",
            Form::Ap => "ap",
            Form::Fix => "fix",
            Form::Pair => "pair",
            Form::Fst => "fst",
            Form::Snd => "snd",
            Form::Add => "add",
            Form::Sub => "sub",
            Form::Mul => "mul",
            Form::Get => "get",
            Form::Fail => "fail",
            Form::Catch => "catch",
        },
    }
}
