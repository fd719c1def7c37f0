// The machine: the store, where it stands, and the moves that it has made; and the program that it runs.
ghost use Rattle.std.specs.Prelude.{◌≡◌};
ghost use Rattle.checker.specs.Sheets.{tables};
ghost use Rattle.engine.specs.View.{row_at};

use crate::limits::Limits;
use crate::state::Mode;
use crate::store::{Store, entry_or};
use checker::Passed;
use rows::TermRow;

pub mod acts;
pub mod choices;
pub mod returns;
pub mod values;

#[derive(Drop)]
pub struct Machine {
    store: Store,
    mode: Mode,
    moves: u32,
}

// What a run leaves as it is: the sheet, and the limits.
#[derive(Clone, Copy)]
pub struct Program<'t> {
    pub sheet: Passed<'t>,
    pub limits: Limits,
}

impl<'t> Program<'t> {
    // The row at a place, and a blank one beyond the table.
    fn row(&self, place: u32) -> TermRow
        ensures { result ≡ row_at (tables self.now.sheet) place }
    {
        entry_or(self.sheet.terms(), place, TermRow::ZERO)
    }
}
