// A passed sheet: two tables that the checker has passed. Nothing but the check in the module below makes one, besides the
// built-in rule.
ghost use Rattle.std.specs.Prelude.{◌≡◌, true};
ghost use Rattle.checker.specs.Verdicts.{passes};

use rows::{TermRow, TypeRow};

pub mod check;

#[derive(Clone, Copy)]
pub struct Passed<'t> {
    types: &'t [TypeRow],
    terms: &'t [TermRow],
    ghost passed: { passes (types.now, terms.now) ≡ true },
}
