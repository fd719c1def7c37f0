// Takes one token off the front of a text, and keeps the rest.
ghost use Rattle.std.specs.Prelude.{◌≡◌, ℕ, ◌≤◌, min, length};
ghost use Rattle.grammar.specs.Bytes.{class, run as run_of, value};
ghost use Rattle.grammar.specs.Tokens.{token as token_of, trimmed, numeral};
ghost use Rattle.text.specs.Tokens.{step, pair};

use crate::tokens::Token;
use grammar::{Class, Fault};

fn class_of(b: u8) -> Class
    ensures { result ≡ class b }
{
    match b as char {
        ' ' => Class::Space,
        '(' => Class::Open,
        ')' => Class::Close,
        '#' => Class::Hash,
        '0'..='9' => Class::Digit,
        'a'..='z' => Class::Letter,
        _ => Class::Other,
    }
}

// How many bytes at the front are of class `k`.
fn run(text: &[u8], k: Class) -> usize
    ensures value { result ≡ run_of k text.now }
    ensures bound { result ≤ length text.now }
{
    text.iter().take_while(|b| class_of(**b) == k).count()
}

// The largest number, and one more: what a value is cut to, so that it cannot grow past 64 bits.
const TOP: u64 = rows::TOP as u64;

const PAST: u64 = TOP + 1;

// What the digits write, or one above the largest number where that is less.
fn value_of(digits: &[u8]) -> u64
    ensures { result ≡ min 1000000000 (value digits.now 0) }
{
    digits.iter().fold(0, |so: u64, b| {
        (so * 10 + b.saturating_sub(b'0') as u64).min(PAST)
    })
}

// The number at the front of a text, or nothing where its digits are missing, begin with a needless 0 or write too
// large a number.
fn number(text: &[u8]) -> Option<(u32, &[u8])>
    ensures { pair result ≡ numeral text.now }
{
    let (digits, rest) = text.split_at(run(text, Class::Digit));
    let lawful = match digits {
        [] => false,
        [_] => true,
        [first, ..] => *first as char != '0',
    };
    let n = value_of(digits);
    (lawful && n <= TOP).then_some((n as u32, rest))
}

// Takes one token off the front of a text that begins with no space, and keeps the rest. At the text's end there is none.
pub fn token<'a>(text: &'a [u8]) -> Result<Option<(Token<'a>, &'a [u8])>, Fault>
    ensures { step result ≡ token_of text.now }
{
    let [first, rest @ ..] = text else {
        return Ok(None);
    };
    let found = match class_of(*first) {
        Class::Open => (Token::Open, rest),
        Class::Close => (Token::Close, rest),
        Class::Hash => {
            let (n, after) = number(rest).ok_or(Fault::BadNumber)?;
            (Token::Name(n), after)
        }
        Class::Digit => {
            let (n, after) = number(text).ok_or(Fault::BadNumber)?;
            (Token::Number(n), after)
        }
        Class::Letter => {
            let (word, after) = text.split_at(run(text, Class::Letter));
            (Token::Word(word), after)
        }
        Class::Space | Class::Other => return Err(Fault::BadByte),
    };
    Ok(Some(found))
}

// The text without the spaces at its front.
pub fn trim(text: &[u8]) -> &[u8]
    ensures { result.now ≡ trimmed text.now }
{
    &text[run(text, Class::Space)..]
}
