// Where the bytes of a text go: a count of the room for them, or the front of a buffer.
ghost use Rattle.std.specs.Prelude.{◌≡◌, ℕ, ◌+◌, ◌<◌, ◌≤◌, List, length};
ghost use Rattle.text.specs.Sinks.{SinkLaws, Puts, Wrote, room_laws, front_laws};

use crate::refusal::WriteRefusal;

// Takes bytes one run after another, until one has no room.
pub(crate) trait Sink {
    // The sink before it takes some bytes, the bytes, and the sink after it.
    ghost takes: { Self → List ℕ → Self → Type 0 };

    // So many bytes have no room.
    ghost lacks: { Self → ℕ → Type 0 };

    fn put(&mut self, bytes: &[u8]) -> Result<(), WriteRefusal>
        ensures { Puts takes lacks self.old bytes.now result self.new };

    ghost laws: { SinkLaws takes lacks };
}

// Counts the bytes down from the room for them, and keeps none.
#[derive(Drop)]
pub(crate) struct Room {
    pub left: usize,
}

impl Sink for Room {
    ghost takes = { λ a xs b. a.left ≡ length xs + b.left };

    ghost lacks = { λ a n. a.left < n };

    ghost laws = { room_laws };

    #[inline(always)]
    fn put(&mut self, bytes: &[u8]) -> Result<(), WriteRefusal> {
        self.left = self
            .left
            .checked_sub(bytes.len())
            .ok_or(WriteRefusal::NoRoom)?;
        Ok(())
    }
}

// Writes bytes from a place on, and answers the place after them. A loop, since most runs have one to six bytes: those are
// written before a call of memcpy returns.
#[inline(always)]
fn store(buffer: &mut [u8], from: usize, bytes: &[u8]) -> usize
    requires { from + length bytes.now ≤ length buffer.old }
    ensures { Wrote buffer.old buffer.new from result bytes.now }
{
    let mut at = from;
    for b in bytes {
        buffer[at] = *b;
        at += 1;
    }
    at
}

// Writes the bytes into a buffer that the caller hands over, from its front on; the place after them stands beside it.
// The library's `Cursor` may write less than it is given, and its errors are those of input and output.
#[derive(Drop)]
pub(crate) struct Front<'a> {
    pub buffer: &'a mut [u8],
    pub written: usize,
}

impl Sink for Front<'_> {
    ghost takes = { λ a xs b. (b.buffer.ghost_name ≡ a.buffer.ghost_name) × Wrote a.buffer.now b.buffer.now a.written b.written xs };

    ghost lacks = { λ a n. length a.buffer.now < a.written + n };

    ghost laws = { front_laws };

    #[inline(always)]
    fn put(&mut self, bytes: &[u8]) -> Result<(), WriteRefusal> {
        let end = self.written.saturating_add(bytes.len());
        if end > self.buffer.len() {
            return Err(WriteRefusal::NoRoom);
        }
        self.written = store(self.buffer, self.written, bytes);
        Ok(())
    }
}
