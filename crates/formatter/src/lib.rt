// Makes the text of a rule tight, or says in a line why not.
#![tactic(auto)]

ghost use Rattle.std.specs.Prelude.{◌≡◌, ℕ, List, IfOk, IfErr, Ok, Err};
ghost use Rattle.formatter.specs.Theorems.{TidyStays, Stays};
ghost use Rattle.formatter.specs.Lines.{tidied, chomped, formatted};
ghost use Rattle.formatter.specs.Refusals.{refused};

use listing::{Refusal, SIGHT_ROWS, Tables, rule_in};
use std::alloc::{AllocError, Global};
use text::MOST_BYTES;

mod words;

pub use listing::read_rows_pass;

// The tight text of a rule, at the front of the buffer, or the first refusal.
fn tidy<'b>(rule: &[u8], buffer: &'b mut [u8; MOST_BYTES]) -> Result<&'b [u8], Refusal>
    ensures ok { IfOk result (λ text. tidied rule.now ≡ Ok text.now) }
    ensures err { IfErr result (λ refusal. tidied rule.now ≡ Err (refused refusal)) }
{
    let mut tables = Tables::ZERO;
    let mut sight = [0; SIGHT_ROWS];
    let sheet = tables.read(rule, &mut sight)?;
    let long = text::write(&sheet, buffer)?;
    Ok(&buffer[..long])
}

// The tight text of a rule as a line, or the first refusal, of reading, checking or writing. What is tidy stays as it is.
pub fn format(heap: Global, input: &[u8]) -> Result<Vec<u8>, AllocError>
    ensures value { IfOk result (λ v. v.items ≡ formatted input.now) }
    ensures again { (t : List ℕ) → tidied (chomped input.now) ≡ Ok t → Stays t }
{
    tidy_stays();
    let mut buffer = [0; MOST_BYTES];
    match tidy(rule_in(input), &mut buffer) {
        Ok(text) => [text, b"\n"].concat(heap),
        Err(refusal) => {
            let line = format!(in heap; "{refusal}: {}\n", words::words_of(refusal))?;
            Ok(line.into_bytes())
        }
    }
}

// What tidying gives is tidy: tidying it again changes nothing.
pub fn tidy_stays()
    ensures { TidyStays }
{
    grammar::reads_exactly();
    theory::rows_unfold();
    text::tight_reads();
}
