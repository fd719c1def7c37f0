// The words of forms and shapes, and the forms and shapes of words.
ghost use Rattle.std.specs.Prelude.{◌≡◌, ◌++◌, codes};
ghost use Rattle.grammar.specs.Words.{form_of, shape_of, word, shape_word};

use rows::{Form, Shape};

// The bracket and the word of a form.
pub(crate) fn form_opening(form: Form) -> &'static [u8]
    ensures { result.now ≡ codes "(" ++ word form }
{
    match form {
        Form::Succ => b"(s",
        Form::Ifz => b"(ifz",
        Form::Lam => b"(lam",
        Form::Ap => b"(ap",
        Form::Fix => b"(fix",
        Form::Pair => b"(pair",
        Form::Fst => b"(fst",
        Form::Snd => b"(snd",
        Form::Add => b"(add",
        Form::Sub => b"(sub",
        Form::Mul => b"(mul",
        Form::Get => b"(get",
        Form::Fail => b"(fail",
        Form::Catch => b"(catch",
    }
}

// The bracket and the word of a shape, after a space.
pub(crate) fn shape_opening(shape: Shape) -> &'static [u8]
    ensures { result.now ≡ codes " (" ++ shape_word shape }
{
    match shape {
        Shape::To => b" (to",
        Shape::Both => b" (both",
    }
}

// The form of a word.
#[tactic(auto, using(crate::proofs::Same::same_apart, crate::proofs::Same::unlike_first, crate::proofs::Same::unlike_second, crate::proofs::Same::unlike_third))]
pub(crate) fn form_of(w: &[u8]) -> Option<Form>
    ensures { result ≡ form_of w.now }
{
    match w {
        b"s" => Some(Form::Succ),
        b"ifz" => Some(Form::Ifz),
        b"lam" => Some(Form::Lam),
        b"ap" => Some(Form::Ap),
        b"fix" => Some(Form::Fix),
        b"pair" => Some(Form::Pair),
        b"fst" => Some(Form::Fst),
        b"snd" => Some(Form::Snd),
        b"add" => Some(Form::Add),
        b"sub" => Some(Form::Sub),
        b"mul" => Some(Form::Mul),
        b"get" => Some(Form::Get),
        b"fail" => Some(Form::Fail),
        b"catch" => Some(Form::Catch),
        _ => None,
    }
}

// The shape of a type that a word names.
#[tactic(auto, using(crate::proofs::Same::same_apart, crate::proofs::Same::unlike_first, crate::proofs::Same::unlike_second, crate::proofs::Same::unlike_third))]
pub(crate) fn shape_of(w: &[u8]) -> Option<Shape>
    ensures { result ≡ shape_of w.now }
{
    match w {
        b"to" => Some(Shape::To),
        b"both" => Some(Shape::Both),
        _ => None,
    }
}
