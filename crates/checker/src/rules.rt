// The laws of the tables' sizes, and of type rows and of term rows, row by row.
ghost use Rattle.std.specs.Prelude.{◌≡◌, ◌<◌, ◌≤◌, ◌&&◌, length};
ghost use Rattle.checker.specs.Lowest.{lowest};
ghost use Rattle.checker.specs.declared.refusal.Fault.TheVariants.{TableSize};
ghost use Rattle.checker.specs.Verdicts.{misfit, sizes, at_row};
ghost use Rattle.checker.specs.RowTests.{compound, good_type, placed, parts_placed, good_row, good_term};

use crate::forms::{arity_of, names_type};
use rows::{Form, Head, MOST_TERMS, MOST_TYPES, TOP, TermRow, TypeRow, find_type};

// Whether a table has no row, or too many.
fn is_misfit(most: usize, n: usize) -> bool
    ensures { result ≡ misfit most n }
{
    n == 0 || most < n
}

// Row 0, if a table has no row or too many.
pub(crate) fn bad_size(types: &[TypeRow], terms: &[TermRow]) -> Option<u32>
    ensures { at_row TableSize result ≡ sizes (types.now, terms.now) }
{
    let misfit = is_misfit(MOST_TYPES, types.len()) || is_misfit(MOST_TERMS, terms.len());
    misfit.then_some(0)
}

// Whether a row is a function or a pair of types at rows before p.
fn is_compound(p: u32, r: TypeRow) -> bool
    ensures { result ≡ compound p r }
{
    r.shape().is_some() && r.left < p && r.right < p
}

// Whether row p keeps the laws of type rows.
fn is_good_type(types: &[TypeRow], p: u32) -> bool
    requires { p < length types.now }
    ensures { result ≡ good_type types.now p }
{
    let r = types[p as usize];
    if p == 0 {
        r == TypeRow::ZERO
    } else {
        is_compound(p, r) && find_type(types, r) == p as usize
    }
}

// The lowest type row that breaks the laws.
pub(crate) fn bad_type(types: &[TypeRow]) -> Option<u32>
    requires { length types.now ≤ 1024 }
    ensures { result ≡ lowest (good_type types.now) (length types.now) }
{
    (0..types.len() as u32).find(|&p| !is_good_type(types, p))
}

// Whether a field that is used is below the limit, and any other is 0. An Option of the limit would be made at each call
// only to be taken apart.
fn is_placed(used: bool, x: u32, limit: u32) -> bool
    ensures { result ≡ placed used x limit }
{
    if used { x < limit } else { x == 0 }
}

// Whether the parts of row p are earlier rows.
fn has_parts_placed(p: u32, r: TermRow) -> bool
    ensures { result ≡ parts_placed p r }
{
    let parts = arity_of(r);
    [r.a, r.b, r.c]
        .iter()
        .enumerate()
        .all(|(i, part)| is_placed(i < parts, *part, p))
}

// Whether row p keeps the laws of term rows, beside n type rows.
fn is_good_row(n: u32, p: u32, r: TermRow) -> bool
    ensures { result ≡ good_row n p r }
{
    let is_form = matches!(r.head(), Head::Form(_));
    // the row is the caller's, so its kind may be any byte
    r.kind <= Form::Catch.kind()
        && is_placed(!is_form, r.number, TOP + 1)
        && is_placed(names_type(r), r.ty, n)
        && has_parts_placed(p, r)
}

// The lowest term row that breaks the laws, beside n type rows.
pub(crate) fn bad_term(n: u32, terms: &[TermRow]) -> Option<u32>
    requires { length terms.now ≤ 2048 }
    ensures { result ≡ lowest (good_term n terms.now) (length terms.now) }
{
    (0..terms.len() as u32).find(|&p| !is_good_row(n, p, terms[p as usize]))
}
