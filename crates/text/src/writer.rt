// Writes the tight text of a passed sheet's rule.
ghost use Rattle.std.specs.Prelude.{◌≡◌};
ghost use Rattle.checker.specs.Sheets.{tables};
ghost use Rattle.text.specs.Trips.{text_of, written, stored, OpensEnough, ReadsBack, WritesBack};

use crate::reader::MOST_BYTES;
use crate::refusal::WriteRefusal;
use crate::sink::{Front, Room};
use crate::walk::put_term;
use checker::Passed;

// Writes the text once the room for all of it has been counted.
fn write_counted(sheet: &Passed, buffer: &mut [u8]) -> Result<usize, WriteRefusal>
    ensures answers { result ≡ written (text_of (tables sheet.now)) buffer.old }
    ensures bytes { buffer.new ≡ stored (text_of (tables sheet.now)) buffer.old }
{
    sheet.is_rule();
    let last = (sheet.terms().len() - 1) as u32;
    let mut room = Room {
        left: buffer.len().min(MOST_BYTES),
    };
    put_term(sheet, last, &mut room)?;
    let mut front = Front { buffer, written: 0 };
    // the room has been counted, so that this refuses nothing
    put_term(sheet, last, &mut front)?;
    Ok(front.written)
}

// Writes the tight text of a passed sheet's rule to the front of the buffer and answers its length; or refuses, with no
// byte written, where it is longer than the buffer or the longest text.
pub fn write(sheet: &Passed, buffer: &mut [u8]) -> Result<usize, WriteRefusal>
    ensures answers { result ≡ written (text_of (tables sheet.now)) buffer.old }
    ensures bytes { buffer.new ≡ stored (text_of (tables sheet.now)) buffer.old }
    ensures opens { OpensEnough (tables sheet.now) }
    ensures reads_back { ReadsBack result (tables sheet.now) buffer.new }
    ensures writes_back { WritesBack result (tables sheet.now) buffer.new }
{
    theory::rows_unfold();
    theory::rows_counted();
    grammar::reads_exactly();
    grammar::reads_once();
    grammar::tight_renders();
    sheet.is_rule();
    write_counted(sheet, buffer)
}
