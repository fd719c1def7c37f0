// The limits of a run.
ghost use Rattle.std.specs.Prelude.{◌≤◌};
ghost use Rattle.engine.specs.declared.limits.TheConstants.{MOST_FUEL, MOST_FRAMES, MOST_CELLS};

pub mod making;

// The most that limits may be.
pub const MOST_FUEL: u32 = 1_000_000_000;

pub const MOST_FRAMES: u32 = 512;

pub const MOST_CELLS: u32 = 2_048;

// How many steps, frames and cells a run may have. None is above the most that there is.
#[derive(Clone, Copy, PartialEq, Eq, Debug)]
pub struct Limits {
    pub(crate) fuel: u32,
    pub(crate) frames: u32,
    pub(crate) cells: u32,
    ghost fueled: { fuel ≤ MOST_FUEL },
    ghost framed: { frames ≤ MOST_FRAMES },
    ghost celled: { cells ≤ MOST_CELLS },
}
