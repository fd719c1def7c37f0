// A basket: lines of articles and quantities.
ghost use Rattle.std.specs.Prelude.{◌≡◌, true, false, [], is_some, is_ok};
ghost use Rattle.counters.specs.Refusals.{outcome};
ghost use Rattle.counters.specs.Baskets.{first_large, basket_outcome, basket_table};

use crate::counter::Counter;
use crate::line::Line;
use crate::refusal::Refusal;
use arrayvec::ArrayVec;

// The most lines of a basket.
pub const MOST_LINES: usize = 200;

// Lines that making a basket does not refuse.
#[derive(Drop)]
pub struct Basket {
    lines: ArrayVec<Line, MOST_LINES>,
    ghost lawful: { is_some (basket_outcome lines.items) ≡ false },
}

impl Basket {
    ghost use Rattle.counters.specs.Meanings.{of_basket};

    // The empty basket.
    pub fn new() -> Basket
        ensures { of_basket result ≡ basket_table [] }
    {
        Basket {
            lines: ArrayVec::new(),
        }
    }

    // Makes this the basket of these lines, or refuses them and leaves it as it was. A price list is made in the same way,
    // and a trait for both would be longer than they are.
    pub fn fill(&mut self, lines: &[Line]) -> Result<(), Refusal>
        ensures result { outcome result ≡ basket_outcome lines.now }
        ensures filled { is_ok result ≡ true → of_basket self.new ≡ basket_table lines.now }
        ensures kept { is_ok result ≡ false → self.new ≡ self.old }
    {
        if lines.len() > MOST_LINES {
            return Err(Refusal::TooManyLines);
        }
        check_fields(lines)?;
        self.lines.clear();
        self.lines
            .try_extend_from_slice(lines)
            .map_err(|_| Refusal::TooManyLines)
    }
}

// Refuses at the first line with a field out of range.
fn check_fields(lines: &[Line]) -> Result<(), Refusal>
    ensures { outcome result ≡ first_large lines.now 0 }
{
    lines
        .iter()
        .position(|line| !line.is_small())
        .map_or(Ok(()), |place| Err(Refusal::LargeLine(place)))
}

impl Counter for Basket {
    ghost use Rattle.counters.specs.Meanings.{of_basket};
    ghost use Rattle.counters.specs.LawfulMeanings.{basket_laws};

    ghost table = { of_basket };

    ghost laws = { basket_laws };

    fn answer(&mut self, question: u32) -> Option<u32> {
        self.lines
            .iter()
            .filter(|line| line.article == question)
            .map(|line| line.quantity)
            .reduce(|sum, quantity| sum + quantity)
    }
}
