// The tests. A buffer holds dots before, so that what stays of them shows.
use crate::{doubling_types, long_terms, nested_terms, sheet_of};
use checker::Passed;
use listing::Tables;
use rows::{Form, MOST_TERMS, Shape, TermRow, TypeRow};
use std::process::Abort;
use std::test::Fail;
use text::WriteRefusal;

// Two bytes more than the longest text.
const BYTES: usize = 16_386;

// The length of what is written, or the number of the refusal.
fn write(sheet: &Passed, buffer: &mut [u8]) -> Result<usize, u8> {
    text::write(sheet, buffer).map_err(WriteRefusal::number)
}

// A sheet is written as this text, and the dots behind it stay.
fn writes(rt: &impl Abort, sheet: &Passed, room: usize, text: &[u8]) {
    let mut buffer = [b'.'; BYTES];
    assert_eq!(rt;
        write(sheet, &mut buffer[..room.min(BYTES)]),
        Ok(text.len())
    );
    assert!(rt; buffer.starts_with(text));
    assert!(rt; buffer.iter().skip(text.len()).all(|b| *b == b'.'));
}

// A sheet is refused, and all the dots stay.
fn refuses(rt: &impl Abort, sheet: &Passed, room: usize) {
    let mut buffer = [b'.'; BYTES];
    assert_eq!(rt; write(sheet, &mut buffer[..room.min(BYTES)]), Err(51));
    assert!(rt; buffer.iter().all(|b| *b == b'.'));
}

// How long a sheet's text is.
fn length(sheet: &Passed, room: usize) -> Result<usize, u8> {
    write(sheet, &mut [b'.'; BYTES][..room.min(BYTES)])
}

// The sheet that a text is read into is written with this much room as that text, or refused.
fn rewrites(rt: &impl Abort, rule: &[u8], room: usize, text: Option<&[u8]>) -> Result<(), Fail> {
    let mut tables = Tables::ZERO;
    let mut sight = [0; MOST_TERMS];
    let sheet = tables.read(rule, &mut sight)?;
    match text {
        Some(text) => writes(rt, &sheet, room, text),
        None => refuses(rt, &sheet, room),
    }
    Ok(())
}

// A text with spaces, and the tight one.
fn tight(rt: &impl Abort, rule: &[u8], text: &[u8]) -> Result<(), Fail> {
    rewrites(rt, rule, BYTES, Some(text))?;
    rewrites(rt, text, BYTES, Some(text))
}

#[test]
fn every_form(rt: HostRuntime) -> Result<(), Fail> {
    tight(&rt, b" 7 ", b"7")?;
    tight(&rt, b"(s1)", b"(s 1)")?;
    tight(&rt, b"( ifz 1 2#0 )", b"(ifz 1 2 #0)")?;
    tight(
        &rt,
        b"(ap(lam(to nat nat)(add #0 1))(get 7))",
        b"(ap (lam (to nat nat) (add #0 1)) (get 7))",
    )?;
    tight(
        &rt,
        b"(fst(pair(both nat(to nat nat))1(fail(to nat nat))))",
        b"(fst (pair (both nat (to nat nat)) 1 (fail (to nat nat))))",
    )?;
    tight(
        &rt,
        b"(snd (pair (both nat nat) 1 (mul 2 (sub 3 4))))",
        b"(snd (pair (both nat nat) 1 (mul 2 (sub 3 4))))",
    )?;
    tight(
        &rt,
        b"(catch (fix nat #0)   (fail nat))",
        b"(catch (fix nat #0) (fail nat))",
    )
}

#[test]
fn numbers(rt: HostRuntime) -> Result<(), Fail> {
    tight(&rt, b"0 ", b"0")?;
    tight(&rt, b"9 ", b"9")?;
    tight(&rt, b"10 ", b"10")?;
    tight(&rt, b"1234567 ", b"1234567")?;
    tight(&rt, b"999999999 ", b"999999999")
}

#[test]
fn room(rt: HostRuntime) -> Result<(), Fail> {
    rewrites(&rt, b"( s 1)", 5, Some(b"(s 1)"))?;
    rewrites(&rt, b"( s 1)", 6, Some(b"(s 1)"))?;
    rewrites(&rt, b"( s 1)", 4, None)?;
    rewrites(&rt, b"( s 1)", 0, None)?;
    rewrites(&rt, b"7", 1, Some(b"7"))?;
    rewrites(&rt, b"7", 0, None)
}

// 2 to the power of 1,022 bytes and more: the count stops where they do not fit.
#[test]
fn doubling(rt: HostRuntime) -> Result<(), Fail> {
    let types = doubling_types();
    let terms = [
        TermRow::number(0),
        TermRow::form(Form::Lam, 1_023, [0, 0, 0]),
        TermRow::form(Form::Fail, 1_022, [0, 0, 0]),
        TermRow::form(Form::Ap, 0, [1, 2, 0]),
    ];
    refuses(&rt, &sheet_of(&types, &terms)?, BYTES);
    Ok(())
}

#[test]
fn longest(rt: HostRuntime) -> Result<(), Fail> {
    let nat = [TypeRow::ZERO];
    let most = long_terms(12);
    let sheet = sheet_of(&nat, &most)?;
    refuses(&rt, &sheet, 16_383);
    assert_eq!(rt; length(&sheet, 16_384), Ok(16_384));
    assert_eq!(rt; length(&sheet, BYTES), Ok(16_384));
    refuses(&rt, &sheet_of(&nat, &long_terms(123))?, BYTES);
    Ok(())
}

// Rows in another order than the reader makes them, with a type that is not used.
#[test]
fn other_order(rt: HostRuntime) -> Result<(), Fail> {
    let nat = [TypeRow::ZERO];
    let sum = [
        TermRow::number(2),
        TermRow::number(1),
        TermRow::form(Form::Add, 0, [1, 0, 0]),
    ];
    writes(&rt, &sheet_of(&nat, &sum)?, BYTES, b"(add 1 2)");
    let types = [
        TypeRow::ZERO,
        TypeRow::new(Shape::Both, 0, 0),
        TypeRow::new(Shape::To, 0, 0),
    ];
    let terms = [
        TermRow::number(3),
        TermRow::name(0),
        TermRow::form(Form::Lam, 2, [1, 0, 0]),
        TermRow::form(Form::Ap, 0, [2, 0, 0]),
    ];
    let applied = sheet_of(&types, &terms)?;
    writes(&rt, &applied, BYTES, b"(ap (lam (to nat nat) #0) 3)");
    Ok(())
}

// As deep as tables can be.
#[test]
fn nested(rt: HostRuntime) -> Result<(), Fail> {
    let nat = [TypeRow::ZERO];
    let terms = nested_terms();
    let sheet = sheet_of(&nat, &terms)?;
    assert_eq!(rt; length(&sheet, BYTES), Ok(8_189));
    assert_eq!(rt; length(&sheet, 8_189), Ok(8_189));
    refuses(&rt, &sheet, 8_188);
    Ok(())
}

// What the formatter shows: tight text, or a refusal in words; a line feed at the end is taken off.
fn shown(rt: &(impl Abort + AllocGlobal), input: &[u8], line: &[u8]) -> Result<(), Fail> {
    let found = formatter::format(rt.alloc(), input)?;
    assert_eq!(rt; found.as_slice(), line);
    Ok(())
}

#[test]
fn lines(rt: HostRuntime) -> Result<(), Fail> {
    shown(&rt, b" ( s( get 7) )", b"(s (get 7))\n")?;
    shown(&rt, b"(s (get 7))\n", b"(s (get 7))\n")?;
    shown(
        &rt,
        b"(s 1",
        b"refused 13 place 4: a token that the forms do not allow here, or an early end\n",
    )?;
    shown(
        &rt,
        b"#0\n",
        b"refused 26 place 0: a row that has no type\n",
    )?;
    shown(
        &rt,
        b"(lam (to nat nat) #0)",
        b"refused 27 place 1: a rule whose type is not nat\n",
    )?;
    shown(
        &rt,
        b"(catch (fail (to nat nat)) 1)",
        b"refused 26 place 2: a row that has no type\n",
    )
}
