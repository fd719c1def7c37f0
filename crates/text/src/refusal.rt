// Why a text is not written.
ghost use Rattle.std.specs.Prelude.{◌≡◌};
ghost use Rattle.text.specs.WriteFaults.{number as number_of};

#[derive(Clone, Copy, PartialEq, Eq, Debug)]
pub enum WriteRefusal {
    // the text is longer than the buffer or the longest text
    NoRoom,
}

impl WriteRefusal {
    // The number by which it is refused.
    pub fn number(self) -> u8
        ensures { result ≡ number_of self }
    {
        match self {
            WriteRefusal::NoRoom => 51,
        }
    }
}
