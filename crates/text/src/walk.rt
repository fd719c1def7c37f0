// The walk over a passed sheet's rows that puts their text into a sink: each row's by those of earlier rows.
ghost use Rattle.std.specs.Prelude.{◌<◌, ◌++◌, length, codes, decimal};
ghost use Rattle.checker.specs.Sheets.{tables};
ghost use Rattle.text.specs.Sinks.{Puts};
ghost use Rattle.text.specs.Writes.{type_text, term_text};

use crate::refusal::WriteRefusal;
use crate::sink::Sink;
use crate::words::{form_opening, shape_opening};
use checker::Passed;
use itoa::Buffer;
use rows::Head;

// Puts a space and the text of the type at a row.
fn put_type<S: Sink>(sheet: &Passed, p: u32, out: &mut S) -> Result<(), WriteRefusal>
    requires { p < length (tables sheet.now).0 }
    ensures { Puts S.takes S.lacks out.old (codes " " ++ type_text (tables sheet.now).0 p) result out.new }
{
    theory::rows_unfold();
    sheet.is_rule();
    let row = sheet.types()[p as usize];
    let Some(shape) = row.shape() else {
        return out.put(b" nat");
    };
    out.put(shape_opening(shape))?;
    put_type(sheet, row.left, out)?;
    put_type(sheet, row.right, out)?;
    out.put(b")")
}

// Puts the digits of a number.
fn put_number<S: Sink>(n: u32, out: &mut S) -> Result<(), WriteRefusal>
    ensures { Puts S.takes S.lacks out.old (decimal n) result out.new }
{
    // a digit alone goes without the buffer, which takes longer to make than the digit to write
    if n < 10 {
        return out.put(&[b'0' + n as u8]);
    }
    out.put(Buffer::new().format(n).as_bytes())
}

// Puts the text of the term at a row.
pub(crate) fn put_term<S: Sink>(sheet: &Passed, p: u32, out: &mut S) -> Result<(), WriteRefusal>
    requires { p < length (tables sheet.now).1 }
    ensures { Puts S.takes S.lacks out.old (term_text (tables sheet.now) p) result out.new }
{
    theory::rows_unfold();
    sheet.is_rule();
    let row = sheet.terms()[p as usize];
    match row.head() {
        Head::Number => put_number(row.number, out),
        Head::Name => {
            out.put(b"#")?;
            put_number(row.number, out)
        }
        Head::Form(form) => {
            out.put(form_opening(form))?;
            if form.types() == 1 {
                put_type(sheet, row.ty, out)?;
            }
            for part in &[row.a, row.b, row.c][..form.parts() as usize] {
                out.put(b" ")?;
                put_term(sheet, *part, out)?;
            }
            out.put(b")")
        }
    }
}
