// What the rows of a form have.
ghost use Rattle.std.specs.Prelude.{◌≡◌, ◌≤◌};
ghost use Rattle.checker.specs.RowTests.{arity, typed};

use rows::{Head, TermRow};

// How many parts a row has. Numbers and names have none.
pub(crate) fn arity_of(r: TermRow) -> usize
    ensures value { result ≡ arity r.kind }
    ensures bound { result ≤ 3 }
{
    match r.head() {
        Head::Number | Head::Name => 0,
        Head::Form(form) => usize::from(form.parts()),
    }
}

// Whether it names a type of its own, as `lam` does.
pub(crate) fn names_type(r: TermRow) -> bool
    ensures { result ≡ typed r.kind }
{
    match r.head() {
        Head::Number | Head::Name => false,
        Head::Form(form) => 0 < form.types(),
    }
}
