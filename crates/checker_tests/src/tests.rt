// The tests.
use crate::{chain_of_terms, chain_of_types, judged, judged_text, refused, rows_held};
use checker::Fault;
use rows::{Form, MOST_TERMS, Shape, TermRow, TypeRow};

#[test]
fn texts(rt: HostRuntime) {
    assert_eq!(rt; judged_text(b"0", 0), Ok(()));
    assert_eq!(rt;
        judged_text(b"(ifz (sub 12 (get 7)) (mul (get 7) 35) (mul #0 40))", 1),
        Ok(())
    );
    assert_eq!(rt;
        judged_text(b"(catch (fail (to nat nat)) 1)", 64),
        refused(Fault::Untyped, 2)
    );
    assert_eq!(rt; judged_text(b"#0", 64), refused(Fault::Untyped, 0));
    assert_eq!(rt;
        judged_text(b"(lam (to nat nat) #0)", 64),
        refused(Fault::NotNat, 1)
    );
    assert_eq!(rt;
        judged_text(b"(lam nat #0)", 64),
        refused(Fault::Untyped, 0)
    );
    assert_eq!(rt; judged_text(b"(lam nat 5)", 64), refused(Fault::Untyped, 1));
}

#[test]
fn every_form(rt: HostRuntime) {
    assert_eq!(rt;
        judged_text(b"(ap (lam (to nat nat) (add #0 1)) (s 2))", 1),
        Ok(())
    );
    assert_eq!(rt;
        judged_text(
            b"(snd (pair (both (to nat nat) nat) (lam (to nat nat) #0) 5))",
            1,
        ),
        Ok(())
    );
    assert_eq!(rt;
        judged_text(
            b"(fst (pair (both nat (to nat nat)) (lam (to nat nat) #0) 5))",
            1,
        ),
        refused(Fault::Untyped, 3)
    );
    assert_eq!(rt;
        judged_text(
            b"(ap (fix (to nat nat) (lam (to nat nat) (ifz #0 1 (ap #2 #0)))) 3)",
            3,
        ),
        Ok(())
    );
    assert_eq!(rt;
        judged_text(
            b"(ap (fix (to nat nat) (lam (to nat nat) (ifz #0 1 (ap #1 #0)))) 3)",
            3,
        ),
        refused(Fault::Untyped, 4)
    );
}

#[test]
fn sizes(rt: HostRuntime) {
    let types = chain_of_types();
    let terms = chain_of_terms(TermRow::number(7), Form::Succ);
    let more_types = [TypeRow::ZERO; 1_025];
    let more_terms = [TermRow::ZERO; 2_049];
    assert_eq!(rt; judged(&types, &terms, 0), Ok(()));
    assert_eq!(rt;
        judged(&types[..0], &terms, 0),
        refused(Fault::TableSize, 0)
    );
    assert_eq!(rt;
        judged(&types, &terms[..0], 0),
        refused(Fault::TableSize, 0)
    );
    assert_eq!(rt;
        judged(&more_types, &terms, 0),
        refused(Fault::TableSize, 0)
    );
    assert_eq!(rt;
        judged(&types, &more_terms, 0),
        refused(Fault::TableSize, 0)
    );
}

#[test]
fn type_rows(rt: HostRuntime) {
    let terms = [TermRow::number(7)];
    let mut types = chain_of_types();
    types[0] = TypeRow::new(Shape::To, 0, 0);
    assert_eq!(rt; judged(&types, &terms, 0), refused(Fault::BadType, 0));
    let mut equal = chain_of_types();
    equal[1_023] = TypeRow::new(Shape::To, 0, 0);
    assert_eq!(rt; judged(&equal, &terms, 0), refused(Fault::BadType, 1_023));
    let mut own = chain_of_types();
    own[1_023] = TypeRow::new(Shape::Both, 1_023, 0);
    assert_eq!(rt; judged(&own, &terms, 0), refused(Fault::BadType, 1_023));
    let mut kind = chain_of_types();
    kind[2] = TypeRow {
        kind: 3,
        ..TypeRow::ZERO
    };
    kind[3] = TypeRow::ZERO;
    assert_eq!(rt; judged(&kind, &terms, 0), refused(Fault::BadType, 2));
}

#[test]
fn term_rows(rt: HostRuntime) {
    let types = chain_of_types();
    assert_eq!(rt; judged(&types, &[TermRow::number(999_999_999)], 0), Ok(()));
    assert_eq!(rt;
        judged(&types, &[TermRow::number(1_000_000_000)], 0),
        refused(Fault::BadTerm, 0)
    );
    assert_eq!(rt;
        judged(
            &types,
            &[TermRow {
                kind: 16,
                ..TermRow::ZERO
            }],
            0
        ),
        refused(Fault::BadTerm, 0)
    );
    assert_eq!(rt;
        judged(
            &types,
            &[TermRow {
                ty: 1,
                ..TermRow::ZERO
            }],
            0
        ),
        refused(Fault::BadTerm, 0)
    );
    assert_eq!(rt;
        judged(&types, &[TermRow::form(Form::Succ, 0, [0, 0, 0])], 0),
        refused(Fault::BadTerm, 0)
    );
    assert_eq!(rt;
        judged(&types, &[TermRow::form(Form::Fail, 1_024, [0, 0, 0])], 0),
        refused(Fault::BadTerm, 0)
    );
    let mut terms = chain_of_terms(TermRow::number(7), Form::Succ);
    terms[2_047] = TermRow::form(Form::Succ, 0, [2_046, 1, 0]);
    assert_eq!(rt; judged(&types, &terms, 0), refused(Fault::BadTerm, 2_047));
}

#[test]
fn parts(rt: HostRuntime) {
    let types = [TypeRow::ZERO];
    assert_eq!(rt;
        judged(&types, &[TermRow::number(1), TermRow::number(2)], 0),
        refused(Fault::PartUse, 0)
    );
    assert_eq!(rt;
        judged(
            &types,
            &[TermRow::number(1), TermRow::form(Form::Add, 0, [0, 0, 0])],
            0
        ),
        refused(Fault::PartUse, 0)
    );
    let mut terms = chain_of_terms(TermRow::number(7), Form::Succ);
    terms[2_047] = TermRow::number(7);
    assert_eq!(rt; judged(&types, &terms, 0), refused(Fault::PartUse, 2_046));
}

#[test]
fn binders(rt: HostRuntime) {
    let types = [TypeRow::ZERO];
    assert_eq!(rt; judged_text(b"(fix nat #0)", 0), refused(Fault::TooDeep, 0));
    assert_eq!(rt; judged_text(b"(fix nat #0)", 1), Ok(()));
    let mut terms = chain_of_terms(TermRow::number(7), Form::Succ);
    terms[2_045] = TermRow::number(7);
    terms[2_046] = TermRow::number(7);
    terms[2_047] = TermRow::form(Form::Ifz, 0, [2_044, 2_045, 2_046]);
    assert_eq!(rt; judged(&types, &terms, 0), refused(Fault::TooDeep, 2_046));
    assert_eq!(rt; judged(&types, &terms, 1), Ok(()));
    let nested = chain_of_terms(TermRow::name(63), Form::Fix);
    assert_eq!(rt; judged(&types, &nested[0..65], 64), Ok(()));
    assert_eq!(rt;
        judged(&types, &nested[0..65], 63),
        refused(Fault::TooDeep, 0)
    );
}

#[test]
fn last_rows(rt: HostRuntime) {
    let types = [TypeRow::ZERO, TypeRow::new(Shape::To, 0, 0)];
    let mut untyped = chain_of_terms(TermRow::number(7), Form::Succ);
    untyped[2_047] = TermRow::form(Form::Fst, 0, [2_046, 0, 0]);
    assert_eq!(rt; judged(&types, &untyped, 0), refused(Fault::Untyped, 2_047));
    let mut function = chain_of_terms(TermRow::number(7), Form::Succ);
    function[2_047] = TermRow::form(Form::Lam, 1, [2_046, 0, 0]);
    assert_eq!(rt; judged(&types, &function, 1), refused(Fault::NotNat, 2_047));
    assert_eq!(rt;
        judged(&types, &[TermRow::form(Form::Fail, 1, [0, 0, 0])], 0),
        refused(Fault::NotNat, 0)
    );
}

// Lawful tables whose rows are not in the order in which a text is read.
#[test]
fn other_orders(rt: HostRuntime) {
    let types = [
        TypeRow::ZERO,
        TypeRow::new(Shape::Both, 0, 0),
        TypeRow::new(Shape::To, 0, 0),
    ];
    let swapped = [
        TermRow::number(1),
        TermRow::number(2),
        TermRow::form(Form::Sub, 0, [1, 0, 0]),
    ];
    assert_eq!(rt; judged(&types, &swapped, 0), Ok(()));
    let mixed = [
        TermRow::number(1),
        TermRow::number(2),
        TermRow::form(Form::Succ, 0, [1, 0, 0]),
        TermRow::form(Form::Get, 0, [0, 0, 0]),
        TermRow::form(Form::Add, 0, [3, 2, 0]),
    ];
    assert_eq!(rt; judged(&types, &mixed, 0), Ok(()));
    // the second part of ifz, at row 0, is under no name; the third, at row 1, is under one
    let unbound = [
        TermRow::name(0),
        TermRow::name(0),
        TermRow::number(0),
        TermRow::form(Form::Ifz, 0, [2, 0, 1]),
    ];
    assert_eq!(rt; judged(&types, &unbound, 1), refused(Fault::Untyped, 0));
    assert_eq!(rt; judged(&types, &unbound, 0), refused(Fault::TooDeep, 1));
    let bound = [
        TermRow::name(0),
        TermRow::number(3),
        TermRow::number(0),
        TermRow::form(Form::Ifz, 0, [2, 1, 0]),
    ];
    assert_eq!(rt; judged(&types, &bound, 1), Ok(()));
}

// The place holds the tables that passed last.
#[test]
fn places(rt: HostRuntime) {
    let types = [TypeRow::ZERO, TypeRow::new(Shape::To, 0, 0)];
    let rule = [TermRow::name(0), TermRow::form(Form::Fix, 0, [0, 0, 0])];
    let name = [TermRow::name(0)];
    let number = [TermRow::number(5)];
    assert_eq!(rt; rows_held(&types, &name, &name), (1, 1));
    assert_eq!(rt; rows_held(&types, &rule, &name), (2, 2));
    assert_eq!(rt; rows_held(&types, &rule, &number), (2, 1));
}

// As deep as tables can be: 2,047 binders around a name.
#[test]
fn deepest(rt: HostRuntime) {
    let types = [TypeRow::ZERO];
    let nested = chain_of_terms(TermRow::name(2_046), Form::Fix);
    assert_eq!(rt; judged(&types, &nested, MOST_TERMS), Ok(()));
    assert_eq!(rt; judged(&types, &nested, 2_047), Ok(()));
    assert_eq!(rt; judged(&types, &nested, 2_046), refused(Fault::TooDeep, 0));
}
