// Making passed sheets, and what they hold.
ghost use Rattle.std.specs.Prelude.{◌≡◌, [], ◌∷◌, length, Ok, Err};
ghost use Rattle.rows.specs.Rows.{nat_row, leaf_row};
ghost use Rattle.checker.specs.Verdicts.{verdict, answer};
ghost use Rattle.checker.specs.Sheets.{tables};
ghost use Rattle.checker.specs.Theorems.{Rule, Means, Lasts};

use crate::refusal::Refusal;
use crate::sheet::Passed;
use crate::verdict::judge;
use rows::{TermRow, TypeRow};

impl<'t> Passed<'t> {
    // The built-in rule `0`.
    pub fn builtin() -> Passed<'t>
        ensures { tables result ≡ (nat_row ∷ [], leaf_row 0 0 ∷ []) }
    {
        Passed {
            types: &[TypeRow::ZERO],
            terms: &[TermRow::ZERO],
        }
    }

    pub fn types(&self) -> &'t [TypeRow]
        ensures { result.now ≡ (tables self.now).0 }
    {
        self.types
    }

    pub fn terms(&self) -> &'t [TermRow]
        ensures { result.now ≡ (tables self.now).1 }
    {
        self.terms
    }

    // What passing gives: the tables keep their laws, and the rule is closed and of type nat.
    pub fn is_rule(&self)
        ensures { Rule (tables self.now) }
    {}
}

// Fills the place with these tables where they pass; else says what is wrong, and leaves the place. The sight rows are
// scratch for the types of the names in sight.
pub fn check<'t>(
    types: &'t [TypeRow],
    terms: &'t [TermRow],
    sight: &mut [u32],
    place: &mut Passed<'t>,
) -> Result<(), Refusal>
    ensures answers { result ≡ answer (verdict (types.now, terms.now) (length sight.old)) }
    ensures filled { elim result [ Ok _ ↦ tables place.new ≡ (types.now, terms.now) | Err _ ↦ place.new ≡ place.old ] }
    ensures means { Means (types.now, terms.now) (length sight.old) result }
    ensures lasts { Lasts (types.now, terms.now) (length sight.old) result }
{
    judge(types, terms, sight)?;
    *place = Passed { types, terms };
    Ok(())
}
