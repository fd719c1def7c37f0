// Reading and checking a rule.
ghost use Rattle.std.specs.Prelude.{◌≡◌, length};
ghost use Rattle.listing.specs.Refusals.{sheet_tables, judged};

use crate::refusal::Refusal;
use checker::Passed;
use rows::{MOST_TERMS, MOST_TYPES, TermRow, TypeRow};
use text::OpenForm;

// How many brackets may be open at once, as at the till.
const OPEN_ROWS: usize = 64;

// How many names may be in sight at once, as at the till.
pub const SIGHT_ROWS: usize = 64;

// Room for both tables of the longest rule.
#[derive(Drop)]
pub struct Tables {
    types: [TypeRow; MOST_TYPES],
    terms: [TermRow; MOST_TERMS],
}

impl Tables {
    pub const ZERO: Tables = Tables {
        types: [TypeRow::ZERO; MOST_TYPES],
        terms: [TermRow::ZERO; MOST_TERMS],
    };

    // Reads a rule into the tables and checks it, with these sight rows: its sheet, or the first refusal.
    pub fn read(&mut self, rule: &[u8], sight: &mut [u32]) -> Result<Passed, Refusal>
        ensures { sheet_tables result ≡ judged (length sight.old) rule.now }
    {
        let mut opens = [OpenForm::TermWord; OPEN_ROWS];
        let made = text::read(rule, &mut self.types, &mut self.terms, &mut opens)?;
        let mut sheet = Passed::builtin();
        checker::check(
            &self.types[..made.types],
            &self.terms[..made.terms],
            sight,
            &mut sheet,
        )?;
        Ok(sheet)
    }
}
