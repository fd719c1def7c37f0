// The rows of the two tables, which callers hand over: plain structs whose kinds are one byte and whose other fields have 32
// bits. A field that a row's kind does not use is 0.
ghost use Rattle.std.specs.Prelude.{◌≡◌, [], ◌∷◌};
ghost use Rattle.rows.specs.Forms.{head_at, shape_at, shape_kind};
ghost use Rattle.rows.specs.Rows.{type_row, leaf_row, form_row};

use crate::forms::{Form, Head, Shape, form_of};

// A type. Kind 0 is nat, 1 a function and 2 a pair, of the types at two earlier rows.
#[derive(Clone, Copy, PartialEq, Eq, Debug)]
pub struct TypeRow {
    pub kind: u8,
    pub left: u32,
    pub right: u32,
}

impl TypeRow {
    // Also the row of nat.
    pub const ZERO: TypeRow = TypeRow {
        kind: 0,
        left: 0,
        right: 0,
    };

    // The row of a function or a pair.
    pub fn new(shape: Shape, left: u32, right: u32) -> TypeRow
        ensures { result ≡ type_row (shape_kind shape) left right }
    {
        TypeRow {
            kind: shape.kind(),
            left,
            right,
        }
    }

    // The shape of the row's type; nat, and a kind above 2, have none.
    pub fn shape(self) -> Option<Shape>
        ensures { result ≡ shape_at self.kind }
    {
        match self.kind {
            1 => Some(Shape::To),
            2 => Some(Shape::Both),
            _ => None,
        }
    }
}

// A term: its type row, its number, and the earlier rows of its parts.
#[derive(Clone, Copy, PartialEq, Eq, Debug)]
pub struct TermRow {
    pub kind: u8,
    pub ty: u32,
    pub number: u32,
    pub a: u32,
    pub b: u32,
    pub c: u32,
}

impl TermRow {
    // Also the row of the number 0.
    pub const ZERO: TermRow = TermRow {
        kind: 0,
        ty: 0,
        number: 0,
        a: 0,
        b: 0,
        c: 0,
    };

    // The row of a number.
    pub fn number(n: u32) -> TermRow
        ensures { result ≡ leaf_row 0 n }
    {
        TermRow {
            number: n,
            ..TermRow::ZERO
        }
    }

    // The row of a name.
    pub fn name(n: u32) -> TermRow
        ensures { result ≡ leaf_row 1 n }
    {
        TermRow {
            kind: 1,
            ..TermRow::number(n)
        }
    }

    // The row of a form with the row of its type and those of its parts, 0 for what it has not.
    pub fn form(form: Form, ty: u32, parts: [u32; 3]) -> TermRow
        ensures { result ≡ form_row form (ty ∷ []) parts }
    {
        let [a, b, c] = parts;
        TermRow {
            kind: form.kind(),
            ty,
            number: 0,
            a,
            b,
            c,
        }
    }

    // What the term begins with, by `form_of` where it is a form.
    pub fn head(self) -> Head
        ensures { result ≡ head_at self.kind }
    {
        match self.kind {
            0 => Head::Number,
            1 => Head::Name,
            kind => Head::Form(form_of(kind)),
        }
    }
}
