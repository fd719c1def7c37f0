// What can be wrong with a text.
ghost use Rattle.std.specs.Prelude.{◌≡◌};
ghost use Rattle.grammar.specs.Faults.{number as number_of};

#[derive(Clone, Copy, PartialEq, Eq, Debug)]
pub enum Fault {
    // the text is too long
    TooLong,
    // a byte begins no token
    BadByte,
    // digits are missing, begin with a needless 0 or write too large a number
    BadNumber,
    // a token stands where the forms do not allow it, or the text ends early
    Misplaced,
    // a bracket is opened for which no open row is left
    TooDeep,
    // no type row is left
    NoTypeRow,
    // no term row is left
    NoTermRow,
}

impl Fault {
    // The number by which the fault is refused.
    pub fn number(self) -> u8
        ensures { result ≡ number_of self }
    {
        self as u8 + 10
    }
}
