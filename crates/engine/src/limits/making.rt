// Making limits.
ghost use Rattle.std.specs.Prelude.{◌≡◌, Some, None, Ok, Err};
ghost use Rattle.engine.specs.Limits.{limit_fault, limit_number};

use crate::limits::{Limits, MOST_CELLS, MOST_FRAMES, MOST_FUEL};

// A limit that is above the most that there is.
#[derive(Clone, Copy, PartialEq, Eq, Debug)]
pub enum LimitFault {
    Fuel,
    Frames,
    Cells,
}

impl LimitFault {
    // The number by which limits are refused.
    pub fn number(self) -> u8
        ensures { result ≡ limit_number self }
    {
        match self {
            LimitFault::Fuel => 41,
            LimitFault::Frames => 42,
            LimitFault::Cells => 43,
        }
    }
}

impl Limits {
    // Limits of so much fuel, so many frames and so many cells, or the first of them that is too much.
    pub fn new(fuel: u32, frames: u32, cells: u32) -> Result<Limits, LimitFault>
        ensures fault { elim result [ Ok _ ↦ limit_fault fuel frames cells ≡ None | Err f ↦ limit_fault fuel frames cells ≡ Some f ] }
        ensures made { elim result [ Ok l ↦ (l.fuel ≡ fuel) × (l.frames ≡ frames) × (l.cells ≡ cells) | Err _ ↦ Unit {0} ] }
    {
        if fuel > MOST_FUEL {
            return Err(LimitFault::Fuel);
        }
        if frames > MOST_FRAMES {
            return Err(LimitFault::Frames);
        }
        if cells > MOST_CELLS {
            return Err(LimitFault::Cells);
        }
        Ok(Limits {
            fuel,
            frames,
            cells,
        })
    }
}
