// Reads the text of a rule into its two tables.
ghost use Rattle.std.specs.Prelude.{◌≡◌, ◌<◌, ◌≤◌, length, slice_set};
ghost use Rattle.rows.specs.Rows.{nat_row};
ghost use Rattle.theory.specs.Emit.{empty};
ghost use Rattle.grammar.specs.Reader.{read as reading};
ghost use Rattle.grammar.specs.TableMaker.{into_tables};
ghost use Rattle.text.specs.Brackets.{rows_of, Same, answered, left};
ghost use Rattle.text.specs.Reads.{outcome, answer as answer_of, made as made_of, zero_type, zero_term, padded, Filled, Ruled, Faulted};

use crate::lexer;
use crate::opens::{Counts, OpenForm, Reader, Refusal};
use grammar::Fault;
use rows::{MOST_TERMS, MOST_TYPES, Stack, TermRow, TypeRow};

// The most bytes of a text.
pub const MOST_BYTES: usize = 16_384;

impl<'a, 'b> Reader<'a, 'b> {
    // Begins with one type row, which is nat.
    fn new(
        types: &'a mut [TypeRow],
        terms: &'a mut [TermRow],
        opens: &'a mut Stack<'b, OpenForm>,
    ) -> Reader<'a, 'b>
        requires some_types { 0 < length types.old }
        requires few_types { length types.old ≤ 1024 }
        requires few_terms { length terms.old ≤ 2048 }
        ensures same_types { result.types.ghost_name ≡ types.entry.ghost_name }
        ensures same_terms { result.terms.ghost_name ≡ terms.entry.ghost_name }
        ensures types { result.types.now ≡ slice_set types.old 0 nat_row }
        ensures terms { result.terms.now ≡ terms.old }
        ensures made { result.made ≡ record { types = 1; terms = 0 } }
        ensures opens { result.opens.now ≡ opens.old }
    {
        types[0] = TypeRow::ZERO;
        Reader {
            types,
            terms,
            made: Counts { types: 1, terms: 0 },
            opens,
        }
    }

    // Reads a whole text: the row of the rule. After the rule only spaces may follow.
    fn run(&mut self, text: &[u8]) -> Result<u32, Refusal>
        ensures answers { answered result (rows_of self.new) ≡ left (length text.now) text.now self.old }
        ensures same { Same self.old self.new }
    {
        let mut rest = text;
        let mut row = None;
        loop {
            let start = lexer::trim(rest);
            let place = text.len() - start.len();
            let refused = |fault| Refusal { fault, place };
            let Some((token, after)) = lexer::token(start).map_err(refused)? else {
                return row.ok_or(refused(Fault::Misplaced));
            };
            if row.is_some() {
                return Err(refused(Fault::Misplaced));
            }
            row = self.turn(token).map_err(refused)?;
            rest = after;
        }
    }
}

// Reads a text that is not too long into two tables that are not too large. Type row 0 is nat.
fn fill(
    text: &[u8],
    types: &mut [TypeRow],
    terms: &mut [TermRow],
    opens: &mut [OpenForm],
) -> Result<Counts, Refusal>
    requires some_types { 0 < length types.old }
    requires few_types { length types.old ≤ 1024 }
    requires few_terms { length terms.old ≤ 2048 }
    ensures { Filled result types.new terms.new (reading (into_tables (length types.old) (length terms.old)) (length opens.old) (length text.now) text.now empty) }
{
    let mut opens = Stack::new(opens);
    let mut reader = Reader::new(types, terms, &mut opens);
    reader.run(text)?;
    Ok(reader.made)
}

// Fills the front of both tables; what stands behind is left, and all of it after a refusal is of no account. Apart from
// `fill`, since of a struct made over `&mut types[..n]` the maker learns no more than the lengths.
fn fill_front(
    text: &[u8],
    types: &mut [TypeRow],
    terms: &mut [TermRow],
    opens: &mut [OpenForm],
) -> Result<Counts, Refusal>
    ensures { Filled result types.new terms.new (outcome types.old terms.old opens.old text.now) }
{
    if text.len() > MOST_BYTES {
        return Err(Refusal {
            fault: Fault::TooLong,
            place: MOST_BYTES,
        });
    }
    if types.is_empty() {
        return Err(Refusal {
            fault: Fault::NoTypeRow,
            place: 0,
        });
    }
    let type_room = types.len().min(MOST_TYPES);
    let term_room = terms.len().min(MOST_TERMS);
    fill(
        text,
        &mut types[..type_room],
        &mut terms[..term_room],
        opens,
    )
}

// Reads a text into the two tables handed over, with `opens` for the brackets that are open at once. What it answers
// and leaves in the tables is `outcome`; and it reads exactly the texts of terms for which the rows suffice.
pub fn read(
    text: &[u8],
    types: &mut [TypeRow],
    terms: &mut [TermRow],
    opens: &mut [OpenForm],
) -> Result<Counts, Refusal>
    ensures answers { result ≡ answer_of (outcome types.old terms.old opens.old text.now) }
    ensures type_rows { types.new ≡ padded zero_type (length types.old) (made_of (outcome types.old terms.old opens.old text.now)).0 }
    ensures term_rows { terms.new ≡ padded zero_term (length terms.old) (made_of (outcome types.old terms.old opens.old text.now)).1 }
    ensures rule { Ruled result types.new terms.new opens.old text.now }
    ensures fault { Faulted result types.old terms.old opens.old text.now }
{
    grammar::reads_exactly();
    grammar::refuses_rightly();
    let answer = fill_front(text, types, terms, opens);
    let made = answer.unwrap_or_default();
    types[made.types..].fill(TypeRow::ZERO);
    terms[made.terms..].fill(TermRow::ZERO);
    answer
}
