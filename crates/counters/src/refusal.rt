// Why a basket or a price list is not made.
ghost use Rattle.std.specs.Prelude.{◌≡◌};
ghost use Rattle.counters.specs.Refusals.{told};

use crate::basket::MOST_LINES;
use crate::prices::MOST_ROWS;

#[derive(Clone, Copy, PartialEq, Eq, Debug)]
pub enum Refusal {
    // there are more lines than a basket takes
    TooManyLines,
    // the line at this place has an article or a quantity out of range
    LargeLine(usize),
    // there are more rows than a price list takes
    TooManyRows,
    // the row at this place has an article or a price out of range
    LargeRow(usize),
    // the row at this place has an article that is not above the one before
    RowOrder(usize),
}

impl Refusal {
    // The number by which the refusal is told.
    pub fn number(self) -> u8
        ensures { result ≡ (told self).0 }
    {
        match self {
            Refusal::TooManyLines => 31,
            Refusal::LargeLine(_) => 32,
            Refusal::TooManyRows => 33,
            Refusal::LargeRow(_) => 34,
            Refusal::RowOrder(_) => 35,
        }
    }

    // The place at fault, counted from 0: that of the line or row, or the most that there may be.
    pub fn place(self) -> usize
        ensures { result ≡ (told self).1 }
    {
        match self {
            Refusal::TooManyLines => MOST_LINES,
            Refusal::TooManyRows => MOST_ROWS,
            Refusal::LargeLine(place) | Refusal::LargeRow(place) | Refusal::RowOrder(place) =>
                place,
        }
    }
}
