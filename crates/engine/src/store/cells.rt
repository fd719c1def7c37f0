// The cells.
ghost use Rattle.std.specs.Prelude.{◌≡◌, length, is_some, if◌then◌else◌, nat_lt};
ghost use Rattle.engine.specs.Stores.{allocated};

use crate::limits::Limits;
use crate::state::Cell;
use crate::store::Store;

impl Store {
    // A cell more, if there is room for it; answers its place.
    pub(crate) fn alloc(&mut self, limits: &Limits, x: Cell) -> Option<u32>
        ensures value { result ≡ (if nat_lt (length self.old.cells) limits.now.cells then Some (length self.old.cells) else None) }
        ensures after { self.new ≡ (if is_some result then allocated x self.old else self.old) }
    {
        let at = self.count;
        if at >= limits.cells {
            return None;
        }
        self.cells[at as usize] = x;
        self.count += 1;
        Some(at)
    }

    // The cells in use, in the order in which they were made.
    pub(crate) fn cells(&self) -> &[Cell]
        ensures { result.now ≡ self.now.cells }
    {
        &self.cells[..self.count as usize]
    }
}
