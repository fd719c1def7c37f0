// The forms that are written in brackets, and what the kinds of rows stand for.
ghost use Rattle.std.specs.Prelude.{◌≡◌, ◌≤◌};
ghost use Rattle.rows.specs.Forms.{kind as kind_of, types as types_of, parts as parts_of, shape_kind, form_at};

// The bracketed forms of a term, in the order of their kinds from 2 on. Kind 0 is a number and 1 a name.
#[derive(Clone, Copy, PartialEq, Eq, Debug)]
pub enum Form {
    Succ,
    Ifz,
    Lam,
    Ap,
    Fix,
    Pair,
    Fst,
    Snd,
    Add,
    Sub,
    Mul,
    Get,
    Fail,
    Catch,
}

impl Form {
    // The kind of the form's rows.
    pub fn kind(self) -> u8
        ensures { result ≡ kind_of self }
    {
        self as u8 + 2
    }

    // How many types stand first in the form.
    pub fn types(self) -> u8
        ensures value { result ≡ types_of self }
        ensures bound { result ≤ 1 }
    {
        match self {
            Form::Lam | Form::Fix | Form::Pair | Form::Fail => 1,
            _ => 0,
        }
    }

    // How many terms follow.
    pub fn parts(self) -> u8
        ensures value { result ≡ parts_of self }
        ensures bound { result ≤ 3 }
    {
        match self {
            Form::Ifz => 3,
            Form::Ap | Form::Pair | Form::Add | Form::Sub | Form::Mul | Form::Catch => 2,
            Form::Fail => 0,
            _ => 1,
        }
    }
}

// The form of a kind. Kinds below 2 are read as the first form's and kinds above 15, which no lawful row has, as the last's:
// it answers for every kind, since the laws of rows speak of every kind.
pub fn form_of(kind: u8) -> Form
    ensures { result ≡ form_at kind }
{
    match kind {
        0 | 1 | 2 => Form::Succ,
        3 => Form::Ifz,
        4 => Form::Lam,
        5 => Form::Ap,
        6 => Form::Fix,
        7 => Form::Pair,
        8 => Form::Fst,
        9 => Form::Snd,
        10 => Form::Add,
        11 => Form::Sub,
        12 => Form::Mul,
        13 => Form::Get,
        14 => Form::Fail,
        _ => Form::Catch,
    }
}

// What a term begins with: a number, a name, or the word of a form.
#[derive(Clone, Copy, PartialEq, Eq, Debug)]
pub enum Head {
    Number,
    Name,
    Form(Form),
}

// The bracketed forms of a type.
#[derive(Clone, Copy, PartialEq, Eq, Debug)]
pub enum Shape {
    To,
    Both,
}

impl Shape {
    // The kind of the shape's rows.
    pub fn kind(self) -> u8
        ensures { result ≡ shape_kind self }
    {
        self as u8 + 1
    }
}
