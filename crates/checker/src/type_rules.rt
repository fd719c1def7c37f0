// The rules by which a row has a type. A type is the place of its type row, and nat is at 0.
ghost use Rattle.std.specs.Prelude.{◌≡◌, slice_index};
ghost use Rattle.rows.specs.Forms.{shape_kind};
ghost use Rattle.checker.specs.Shapes.{shaped as shaped_at, bound_at as its_bound};
ghost use Rattle.checker.specs.Types.{rule, own_type as its_type};

use rows::{Form, Head, Shape, TermRow, TypeRow};

// The place that stands for no type. The sight rows are the caller's numbers, so that no Option fits them.
const NO_TYPE: u32 = u32::MAX;

// The type row at t, if it is of this shape.
fn shaped(types: &[TypeRow], shape: Shape, t: u32) -> Option<TypeRow>
    ensures { result ≡ shaped_at types.now (shape_kind shape) t }
{
    types
        .get(t as usize)
        .copied()
        .filter(|row| row.shape() == Some(shape))
}

// The type of the name that part i of a row is under, if it is under one. The third part, which ifz alone has, always is.
pub(crate) fn bound_at(types: &[TypeRow], r: TermRow, i: usize) -> Option<u32>
    ensures { result ≡ its_bound types.now r i }
{
    match (i, r.head()) {
        (0, Head::Form(Form::Lam)) => {
            Some(shaped(types, Shape::To, r.ty).map_or(NO_TYPE, |function| function.left))
        }
        (0, Head::Form(Form::Fix)) => Some(r.ty),
        (2, _) => Some(0),
        _ => None,
    }
}

// The type of a form with the type t by the types of its parts.
fn type_by_rule(types: &[TypeRow], form: Form, t: u32, parts: [u32; 3]) -> Option<u32>
    ensures { result ≡ rule types.now form t (slice_index parts 0) (slice_index parts 1) (slice_index parts 2) }
{
    let [x, y, z] = parts;
    match form {
        Form::Succ | Form::Get => (x == 0).then_some(0),
        Form::Ifz => (x == 0 && y == z).then_some(y),
        Form::Lam => {
            let own = shaped(types, Shape::To, t)?;
            (x == own.right).then_some(t)
        }
        Form::Ap => {
            let function = shaped(types, Shape::To, x)?;
            (y == function.left).then_some(function.right)
        }
        Form::Fix => (x == t).then_some(t),
        Form::Pair => {
            let own = shaped(types, Shape::Both, t)?;
            (x == own.left && y == own.right).then_some(t)
        }
        Form::Fst => Some(shaped(types, Shape::Both, x)?.left),
        Form::Snd => Some(shaped(types, Shape::Both, x)?.right),
        Form::Add | Form::Sub | Form::Mul => (x == 0 && y == 0).then_some(0),
        Form::Fail => Some(t),
        Form::Catch => (x == y).then_some(x),
    }
}

// The type of a row: nat of a number, a name's, or by the form's rule.
pub(crate) fn own_type(
    types: &[TypeRow],
    r: TermRow,
    name: Option<u32>,
    parts: [u32; 3],
) -> Option<u32>
    ensures { result ≡ its_type types.now r name (slice_index parts 0) (slice_index parts 1) (slice_index parts 2) }
{
    match r.head() {
        Head::Number => Some(0),
        Head::Name => name.filter(|t| *t != NO_TYPE),
        Head::Form(form) => type_by_rule(types, form, r.ty, parts),
    }
}
