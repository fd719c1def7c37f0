// Why a rule is refused.
ghost use Rattle.std.specs.Prelude.{◌≡◌, Some};
ghost use Rattle.listing.specs.declared.refusal.Refusal.TheVariants.{Reading, Checking, Writing};
ghost use Rattle.listing.specs.Refusals.{number_of, place_of, refusal_text};

use std::fmt;
use text::WriteRefusal;

// The first refusal on a rule's way: of reading its text, of checking its tables, or of writing it again.
#[derive(Clone, Copy, PartialEq, Eq, Debug)]
pub enum Refusal {
    Reading(text::Refusal),
    Checking(checker::Refusal),
    Writing(WriteRefusal),
}

impl Refusal {
    // The number by which it is refused.
    pub fn number(self) -> u8
        ensures { result ≡ number_of self }
    {
        match self {
            Refusal::Reading(refusal) => refusal.fault.number(),
            Refusal::Checking(refusal) => refusal.fault.number(),
            Refusal::Writing(refusal) => refusal.number(),
        }
    }

    // The byte or the row at fault; a refusal of writing has no place, and is shown at 0.
    pub fn place(self) -> usize
        ensures { result ≡ place_of self }
    {
        match self {
            Refusal::Reading(refusal) => refusal.place,
            Refusal::Checking(refusal) => refusal.row as usize,
            Refusal::Writing(_) => 0,
        }
    }
}

impl fmt::Display for Refusal {
    ghost output = { λ r. Some (refusal_text (number_of r) (place_of r)) };

    fn fmt<W: fmt::Write>(&self, f: &mut fmt::Formatter<W>) -> fmt::Result {
        write!(f, "refused {} place {}", self.number(), self.place())
    }
}

impl From<text::Refusal> for Refusal {
    ghost from_gives = { λ refusal r. r ≡ Reading refusal };

    fn from(refusal: text::Refusal) -> Refusal {
        Refusal::Reading(refusal)
    }
}

impl From<checker::Refusal> for Refusal {
    ghost from_gives = { λ refusal r. r ≡ Checking refusal };

    fn from(refusal: checker::Refusal) -> Refusal {
        Refusal::Checking(refusal)
    }
}

impl From<WriteRefusal> for Refusal {
    ghost from_gives = { λ refusal r. r ≡ Writing refusal };

    fn from(refusal: WriteRefusal) -> Refusal {
        Refusal::Writing(refusal)
    }
}
