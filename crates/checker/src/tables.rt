// Two tables with a term row, but no more than there may be, and where the parts of each are earlier rows.
ghost use Rattle.std.specs.Prelude.{◌≡◌, ◌-◌, ◌<◌, ◌≤◌, length, Some, IfOk, IfErr};
ghost use Rattle.checker.specs.declared.refusal.Fault.TheVariants.{PartUse};
ghost use Rattle.checker.specs.Lowest.{lowest};
ghost use Rattle.checker.specs.RowTests.{PartsPlaced, used_once};
ghost use Rattle.checker.specs.Verdicts.{at_row, rows_verdict};

mod depth;
mod parts;
mod types;

use crate::refusal::{Fault, Refusal, refuse};
use crate::rules::{bad_size, bad_term, bad_type};
use rows::{TermRow, TypeRow};

#[derive(Clone, Copy)]
pub(crate) struct Tables<'t> {
    types: &'t [TypeRow],
    terms: &'t [TermRow],
    ghost some: { 0 < length terms.now },
    ghost few: { length terms.now ≤ 2048 },
    ghost placed: { PartsPlaced terms.now },
}

impl<'t> Tables<'t> {
    // The tables, if their sizes and each of their rows keep the laws; else the first of these laws that is broken, and its
    // lowest row. What is left of the laws of tables is how often each row is a part.
    pub(crate) fn new(types: &'t [TypeRow], terms: &'t [TermRow]) -> Result<Tables<'t>, Refusal>
        ensures ok { IfOk result (λ s. (s.types.now ≡ types.now) × (s.terms.now ≡ terms.now)) }
        ensures left { IfOk result (λ s. rows_verdict (types.now, terms.now) ≡ at_row PartUse (lowest (used_once terms.now) (length terms.now - 1))) }
        ensures err { IfErr result (λ f. rows_verdict (types.now, terms.now) ≡ Some f) }
    {
        refuse(Fault::TableSize, bad_size(types, terms))?;
        refuse(Fault::BadType, bad_type(types))?;
        refuse(Fault::BadTerm, bad_term(types.len() as u32, terms))?;
        Ok(Tables { types, terms })
    }

    // The place of the last row, which is the rule's.
    pub(crate) fn last(&self) -> u32
        ensures value { result ≡ length self.now.terms.now - 1 }
        ensures within { result < length self.now.terms.now }
        ensures few { result < 2048 }
    {
        self.terms.len() as u32 - 1
    }
}
