// The frames and the cells of a run, each table with how much of it is in use.
ghost use Rattle.std.specs.Prelude.{◌≡◌, [], slice_index_or};
ghost use Rattle.engine.specs.Contents.{Contents};

use crate::limits::{MOST_CELLS, MOST_FRAMES};
use crate::state::{Cell, Frame};
use std::marker::Model;

pub mod cells;
pub mod frames;
pub mod names;

// Plain arrays with a count beside each, since the rules of the project name them so: they lie in the run, with no heap.
// `push` and `alloc` are alike in four lines, and a type of both tables would have to say its own model beside them.
#[derive(Drop)]
pub struct Store {
    frames: [Frame; MOST_FRAMES as usize],
    cells: [Cell; MOST_CELLS as usize],
    height: u32,
    count: u32,
}

// Clauses see what is in use.
impl Model for Store {
    ghost use Rattle.std.specs.Prelude.{◌≤◌, reverse, take};
    ghost use Rattle.engine.specs.Contents.{Contents};
    ghost use Rattle.engine.specs.declared.limits.TheConstants.{MOST_FRAMES, MOST_CELLS};

    ghost Value = { Contents };

    ghost view = { λ t. record { frames = reverse (take t.height t.frames); cells = take t.count t.cells } };

    ghost invariant = { λ t. (t.height ≤ MOST_FRAMES) × (t.count ≤ MOST_CELLS) };
}

impl Store {
    // A store with nothing in use.
    pub(crate) fn new() -> Store
        ensures { result ≡ record { frames = []; cells = [] } }
    {
        Store {
            frames: [Frame::BLANK; MOST_FRAMES as usize],
            cells: [Cell::BLANK; MOST_CELLS as usize],
            height: 0,
            count: 0,
        }
    }
}

// The entry at a place, and a blank one beyond the table.
pub(crate) fn entry_or<T: Copy>(table: &[T], place: u32, blank: T) -> T
    ensures { result ≡ slice_index_or table.now place blank }
{
    table.get(place as usize).copied().unwrap_or(blank)
}
