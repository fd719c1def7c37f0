// The verdict on two tables.
ghost use Rattle.std.specs.Prelude.{◌≡◌, length};
ghost use Rattle.checker.specs.Verdicts.{verdict, answer};

use crate::refusal::{Fault, Refusal, refuse};
use crate::tables::Tables;
use rows::{Stack, TermRow, TypeRow};

// The first fault of two tables, and its lowest row, with the sight rows for the types of the names in sight.
pub(crate) fn judge(types: &[TypeRow], terms: &[TermRow], sight: &mut [u32]) -> Result<(), Refusal>
    ensures { result ≡ answer (verdict (types.now, terms.now) (length sight.old)) }
{
    let tables = Tables::new(types, terms)?;
    let last = tables.last();
    refuse(Fault::PartUse, tables.bad_part())?;
    refuse(Fault::TooDeep, tables.too_deep(sight.len(), last, 0))?;
    let found = tables.type_of(&mut Stack::new(sight), last);
    refuse(Fault::Untyped, found.err())?;
    refuse(Fault::NotNat, (found != Ok(0)).then_some(last))
}
