// What can be wrong with two tables.
ghost use Rattle.std.specs.Prelude.{◌≡◌};
ghost use Rattle.checker.specs.Faults.{number as number_of};
ghost use Rattle.checker.specs.Verdicts.{answer, at_row};

#[derive(Clone, Copy, PartialEq, Eq, Debug)]
pub enum Fault {
    // there is no type row or no term row, or too many
    TableSize,
    // a type row breaks the laws of type rows
    BadType,
    // a term row breaks the laws of term rows
    BadTerm,
    // a row but the last is not a part exactly once
    PartUse,
    // a row is under more binders than there are sight rows
    TooDeep,
    // a row has no type
    Untyped,
    // the rule's type is not nat
    NotNat,
}

impl Fault {
    // The number by which the fault is refused.
    pub fn number(self) -> u8
        ensures { result ≡ number_of self }
    {
        self as u8 + 21
    }
}

// A fault and the lowest row at which it is.
#[derive(Clone, Copy, PartialEq, Eq, Debug)]
pub struct Refusal {
    pub fault: Fault,
    pub row: u32,
}

// Refuses a fault at a row, if there is one.
pub(crate) fn refuse(fault: Fault, row: Option<u32>) -> Result<(), Refusal>
    ensures { result ≡ answer (at_row fault row) }
{
    row.map_or(Ok(()), |row| Err(Refusal { fault, row }))
}
