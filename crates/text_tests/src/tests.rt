// The tests.
use crate::{read_all, read_with, rows_left, spaced};
use grammar::Fault;
use rows::{TermRow, TypeRow};
use std::process::Abort;
use std::test::Fail;
use text::{Counts, OpenForm, Refusal};

fn made(types: usize, terms: usize) -> Result<Counts, Refusal> {
    Ok(Counts { types, terms })
}

fn refused(fault: Fault, place: usize) -> Result<Counts, Refusal> {
    Err(Refusal { fault, place })
}

// The lines of what a text is read as.
fn listed(rt: &(impl Abort + AllocGlobal), rule: &[u8], lines: &str) -> Result<(), Fail> {
    let mut types = [TypeRow::ZERO; 8];
    let mut terms = [TermRow::ZERO; 8];
    let mut opens = [OpenForm::TermWord; 8];
    let made = text::read(rule, &mut types, &mut terms, &mut opens)?;
    let found = listing::list_rows(rt.alloc(), &types[..made.types], &terms[..made.terms])?;
    assert_eq!(rt; found.as_str(), lines);
    Ok(())
}

#[test]
fn leaves(rt: HostRuntime) -> Result<(), Fail> {
    listed(
        &rt,
        b"7",
        "types 1 terms 1\ntype 0: nat left 0 right 0\nterm 0: number type 0 number 7 parts 0 0 0\n",
    )?;
    listed(
        &rt,
        b"#0",
        "types 1 terms 1\ntype 0: nat left 0 right 0\nterm 0: name type 0 number 0 parts 0 0 0\n",
    )?;
    listed(
        &rt,
        b"  999999999 ",
        "types 1 terms 1\ntype 0: nat left 0 right 0\nterm 0: number type 0 number 999999999 parts 0 0 0\n",
    )
}

#[test]
fn forms(rt: HostRuntime) -> Result<(), Fail> {
    let succ =
        "types 1 terms 2\ntype 0: nat left 0 right 0\nterm 0: number type 0 number 1 parts 0 0 0\nterm 1: s type 0 number 0 parts 0 0 0\n";
    listed(&rt, b"(s 1)", succ)?;
    listed(&rt, b"(s1)", succ)?;
    listed(&rt, b" ( s  1 ) ", succ)?;
    listed(
        &rt,
        b"(lam (to nat nat) #0)",
        "types 2 terms 2\ntype 0: nat left 0 right 0\ntype 1: to left 0 right 0\nterm 0: name type 0 number 0 parts 0 0 0\nterm 1: lam type 1 number 0 parts 0 0 0\n",
    )?;
    listed(
        &rt,
        b"(pair (both (to nat nat) (to nat nat)) (fail (to nat nat)) (fix (to nat nat) #0))",
        "types 3 terms 4\ntype 0: nat left 0 right 0\ntype 1: to left 0 right 0\ntype 2: both left 1 right 1\nterm 0: fail type 1 number 0 parts 0 0 0\nterm 1: name type 0 number 0 parts 0 0 0\nterm 2: fix type 1 number 0 parts 1 0 0\nterm 3: pair type 2 number 0 parts 0 2 0\n",
    )
}

#[test]
fn every_form(rt: HostRuntime) {
    assert_eq!(rt; read_all(b"(ifz 1 2 #0)"), made(1, 4));
    assert_eq!(rt;
        read_all(b"(ap (lam (to nat nat) 5) (fail nat))"),
        made(2, 4)
    );
    assert_eq!(rt;
        read_all(b"(fst (pair (both nat nat) 1 (fail nat)))"),
        made(2, 4)
    );
    assert_eq!(rt; read_all(b"(snd (pair (both nat nat) 1 2))"), made(2, 4));
    assert_eq!(rt;
        read_all(b"(catch (catch (fail nat) (fail nat)) 3)"),
        made(1, 5)
    );
    assert_eq!(rt;
        read_all(b"(add (sub 3 2) (mul (get 7) (s 0)))"),
        made(1, 9)
    );
    assert_eq!(rt;
        read_all(b"(fix (to (to nat nat) (both nat (to nat nat))) #0)"),
        made(4, 2)
    );
}

#[test]
fn bytes_and_numbers(rt: HostRuntime) {
    assert_eq!(rt; read_all(b"$"), refused(Fault::BadByte, 0));
    assert_eq!(rt; read_all(b"(s A)"), refused(Fault::BadByte, 3));
    assert_eq!(rt; read_all(b"(s 1)\n"), refused(Fault::BadByte, 5));
    assert_eq!(rt; read_all(b"007"), refused(Fault::BadNumber, 0));
    assert_eq!(rt; read_all(b"1000000000"), refused(Fault::BadNumber, 0));
    assert_eq!(rt;
        read_all(b"99999999999999999999999999"),
        refused(Fault::BadNumber, 0)
    );
    assert_eq!(rt; read_all(b"(s #)"), refused(Fault::BadNumber, 3));
    assert_eq!(rt; read_all(b"(s # 1)"), refused(Fault::BadNumber, 3));
    assert_eq!(rt; read_all(b"#01"), refused(Fault::BadNumber, 0));
    assert_eq!(rt; read_all(b"7 00"), refused(Fault::BadNumber, 2));
    assert_eq!(rt; read_all(b"(s 0)"), made(1, 2));
}

#[test]
fn misplaced(rt: HostRuntime) {
    assert_eq!(rt; read_all(b""), refused(Fault::Misplaced, 0));
    assert_eq!(rt; read_all(b"   "), refused(Fault::Misplaced, 3));
    assert_eq!(rt; read_all(b")"), refused(Fault::Misplaced, 0));
    assert_eq!(rt; read_all(b"nat"), refused(Fault::Misplaced, 0));
    assert_eq!(rt; read_all(b"(1)"), refused(Fault::Misplaced, 1));
    assert_eq!(rt; read_all(b"(to nat nat)"), refused(Fault::Misplaced, 1));
    assert_eq!(rt; read_all(b"(sx 1)"), refused(Fault::Misplaced, 1));
    assert_eq!(rt; read_all(b"(s)"), refused(Fault::Misplaced, 2));
    assert_eq!(rt; read_all(b"(s 1 2)"), refused(Fault::Misplaced, 5));
    assert_eq!(rt; read_all(b"(lam 1 2)"), refused(Fault::Misplaced, 5));
    assert_eq!(rt; read_all(b"(lam (nat) 2)"), refused(Fault::Misplaced, 6));
    assert_eq!(rt; read_all(b"(s 1"), refused(Fault::Misplaced, 4));
    assert_eq!(rt; read_all(b"(s 1  "), refused(Fault::Misplaced, 6));
    assert_eq!(rt; read_all(b"1 2"), refused(Fault::Misplaced, 2));
    assert_eq!(rt; read_all(b"1 (s 2)"), refused(Fault::Misplaced, 2));
}

#[test]
fn rows_run_out(rt: HostRuntime) {
    assert_eq!(rt; read_with(b"", 0, 0, 0), refused(Fault::NoTypeRow, 0));
    assert_eq!(rt; read_with(b"$", 0, 0, 0), refused(Fault::NoTypeRow, 0));
    assert_eq!(rt; read_with(b"7", 1, 0, 0), refused(Fault::NoTermRow, 0));
    assert_eq!(rt; read_with(b"7", 1, 1, 0), made(1, 1));
    assert_eq!(rt; read_with(b"(s 1)", 1, 2, 0), refused(Fault::TooDeep, 0));
    assert_eq!(rt; read_with(b"(s 1)", 1, 1, 1), refused(Fault::NoTermRow, 4));
    assert_eq!(rt;
        read_with(b"(s (s 1))", 1, 3, 1),
        refused(Fault::TooDeep, 3)
    );
    assert_eq!(rt;
        read_with(b"(fix(to nat nat)#0)", 1, 2, 2),
        refused(Fault::NoTypeRow, 15)
    );
    assert_eq!(rt; read_with(b"(fix(to nat nat)#0)", 2, 2, 2), made(2, 2));
    assert_eq!(rt;
        read_with(b"(fail (to nat (to nat nat)))", 2, 1, 3),
        refused(Fault::NoTypeRow, 26)
    );
}

#[test]
fn first_fault_first(rt: HostRuntime) {
    assert_eq!(rt; read_with(b"( $", 1, 0, 0), refused(Fault::TooDeep, 0));
    assert_eq!(rt; read_with(b"(s 007", 1, 0, 1), refused(Fault::BadNumber, 3));
    assert_eq!(rt; read_with(b"(s 7 $", 1, 0, 1), refused(Fault::NoTermRow, 3));
    assert_eq!(rt; read_with(b"(lam 7", 1, 0, 1), refused(Fault::Misplaced, 5));
    assert_eq!(rt; read_with(b"1 (", 1, 1, 0), refused(Fault::Misplaced, 2));
}

#[test]
fn longest(rt: HostRuntime) {
    assert_eq!(rt;
        read_all(&spaced(b"7", b' ')),
        refused(Fault::TooLong, 16_384)
    );
    assert_eq!(rt;
        read_with(&spaced(b"$", b' '), 0, 0, 0),
        refused(Fault::TooLong, 16_384)
    );
    assert_eq!(rt; read_all(&spaced(b"7", b' ')[0..16_384]), made(1, 1));
    assert_eq!(rt;
        read_all(&spaced(b"(s", b' ')[0..16_384]),
        refused(Fault::Misplaced, 16_384)
    );
    assert_eq!(rt; read_all(&spaced(b"(s 1", b')')[0..16_384]), made(1, 2));
}

#[test]
fn last_places(rt: HostRuntime) {
    assert_eq!(rt;
        read_all(&spaced(b"7", b'$')[0..16_384]),
        refused(Fault::BadByte, 16_383)
    );
    assert_eq!(rt;
        read_all(&spaced(b"7", b'#')[0..16_384]),
        refused(Fault::BadNumber, 16_383)
    );
    assert_eq!(rt;
        read_with(&spaced(b"(s", b'(')[0..16_384], 1, 0, 1),
        refused(Fault::TooDeep, 16_383)
    );
    assert_eq!(rt;
        read_with(&spaced(b"(fix(to nat nat", b')')[0..16_384], 1, 0, 2),
        refused(Fault::NoTypeRow, 16_383)
    );
    assert_eq!(rt;
        read_with(&spaced(b"(s", b'7')[0..16_384], 1, 0, 1),
        refused(Fault::NoTermRow, 16_383)
    );
    assert_eq!(rt;
        read_all(&spaced(b" ", b' ')[0..16_384]),
        refused(Fault::Misplaced, 16_384)
    );
}

#[test]
fn rows_past_are_zero(rt: HostRuntime) {
    assert_eq!(rt; rows_left(b"(lam (to nat nat) 5)"), (1, 2));
    assert_eq!(rt; rows_left(b"(lam (to nat nat) 5"), (0, 0));
    assert_eq!(rt; rows_left(b"0"), (0, 0));
}

// Both refusals in one line, and a line feed at the end taken off.
#[test]
fn first_refusal(rt: HostRuntime) -> Result<(), Fail> {
    assert_eq!(rt;
        listing::list(rt.alloc(), b"(s 1")?.as_str(),
        "refused 13 place 4\n"
    );
    assert_eq!(rt;
        listing::list(rt.alloc(), b"#0\n")?.as_str(),
        "refused 26 place 0\n"
    );
    assert_eq!(rt;
        listing::list(rt.alloc(), b"(lam (to nat nat) #0)")?.as_str(),
        "refused 27 place 1\n"
    );
    assert_eq!(rt;
        listing::list(rt.alloc(), b"(catch (fail (to nat nat)) 1)")?.as_str(),
        "refused 26 place 2\n"
    );
    Ok(())
}
