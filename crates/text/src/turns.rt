// What a token leads to, by what the open bracket on top still wants.
ghost use Rattle.std.specs.Prelude.{◌≡◌, ◌<◌, [], ◌∷◌, ◌++◌, length, Some};
ghost use Rattle.rows.specs.Rows.{row_place};
ghost use Rattle.rows.specs.Views.{room};
ghost use Rattle.theory.specs.Emit.{Tables};
ghost use Rattle.grammar.specs.Reader.{wanted, made, made_type, opened, replaced};
ghost use Rattle.grammar.specs.TableMaker.{row_made, type_made};
ghost use Rattle.text.specs.Tokens.{tok as tok_of};
ghost use Rattle.text.specs.Brackets.{listed, bracket, brackets, want as want_of, each, with_part, given, turned, rows_of, met, Same, closed_in, turn_in};

use crate::opens::{OpenForm, Part, Parts, Reader, Want};
use crate::tokens::Token;
use crate::words;
use grammar::Fault;
use rows::{Stack, TermRow, TypeRow, find_type};

impl Parts {
    fn none() -> Parts
        ensures { listed result ≡ [] }
    {
        Parts {
            count: 0,
            rows: [0; 3],
        }
    }

    // One row more.
    fn with(self, row: u32) -> Parts
        requires { length (listed self) < 3 }
        ensures { listed result ≡ listed self ++ row ∷ [] }
    {
        // written at a counted place the array would go through memory, and reading takes a third longer
        let [a, b, _] = self.rows;
        match self.count {
            0 => Parts {
                count: 1,
                rows: [row, 0, 0],
            },
            1 => Parts {
                count: 2,
                rows: [a, row, 0],
            },
            _ => Parts {
                count: 3,
                rows: [a, b, row],
            },
        }
    }
}

impl OpenForm {
    // What the next token in the bracket has to begin, or to be.
    fn wants(self) -> Want
        ensures { want_of result ≡ wanted (bracket self ∷ []) }
    {
        match self {
            OpenForm::TermWord => Want::TermWord,
            OpenForm::TypeWord => Want::TypeWord,
            OpenForm::Type(_, p) if p.count < 2 => Want::Type,
            OpenForm::Term(f, p, _) if p.count < f.types() => Want::Type,
            OpenForm::Term(f, _, q) if q.count < f.parts() => Want::Term,
            _ => Want::Close,
        }
    }

    // The bracket with one part more, where it wants such a part.
    fn with(self, part: Part) -> Option<OpenForm>
        ensures { each result ≡ with_part (bracket self) part }
    {
        match (self, part) {
            (OpenForm::Type(k, p), Part::Type(x)) if p.count < 2 => {
                Some(OpenForm::Type(k, p.with(x)))
            }
            (OpenForm::Term(f, p, q), Part::Type(x)) if p.count < f.types() => {
                Some(OpenForm::Term(f, p.with(x), q))
            }
            (OpenForm::Term(f, p, q), Part::Term(y)) if q.count < f.parts() => {
                Some(OpenForm::Term(f, p, q.with(y)))
            }
            _ => None,
        }
    }
}

// What the next token has to begin, or to be.
fn want(opens: &Stack<OpenForm>) -> Want
    ensures { want_of result ≡ wanted (brackets opens.now) }
{
    opens.top().map_or(Want::Term, |top| top.wants())
}

// A whole type or term goes into the bracket around it. A term with none around it is the rule. Inlined, since the
// answer of a call goes through memory, which takes a tenth of a reading.
#[inline(always)]
fn give(opens: &mut Stack<OpenForm>, part: Part) -> Result<Option<u32>, Fault>
    ensures turned { (s : Tables) → turned result s (brackets opens.new) ≡ given part s (brackets opens.old) }
    ensures capacity { room opens.new ≡ room opens.old }
{
    // a match, since by `ok_or(..)?` the bracket with one part more would go through memory
    match (opens.top(), part) {
        (None, Part::Term(y)) => Ok(Some(y)),
        (None, Part::Type(_)) => Err(Fault::Misplaced),
        (Some(top), _) => match top.with(part) {
            Some(more) => {
                opens.replace_top(more);
                Ok(None)
            }
            None => Err(Fault::Misplaced),
        },
    }
}

// Opens a bracket, where there is an open row for it.
fn open(opens: &mut Stack<OpenForm>, o: OpenForm) -> Result<Option<u32>, Fault>
    ensures turned { (s : Tables) → turned result s (brackets opens.new) ≡ opened (room opens.old) (bracket o) s (brackets opens.old) }
    ensures capacity { room opens.new ≡ room opens.old }
{
    opens.push(o).map_err(|_| Fault::TooDeep)?;
    Ok(None)
}

// Gives the bracket on top its word.
fn spell(opens: &mut Stack<OpenForm>, o: OpenForm) -> Result<Option<u32>, Fault>
    ensures turned { (s : Tables) → turned result s (brackets opens.new) ≡ replaced (Some (bracket o)) s (brackets opens.old) }
    ensures capacity { room opens.new ≡ room opens.old }
{
    opens.top().ok_or(Fault::Misplaced)?;
    opens.replace_top(o);
    Ok(None)
}

impl<'a, 'b> Reader<'a, 'b> {
    // Makes a term row, which goes into the bracket around it.
    fn add_term(&mut self, row: TermRow) -> Result<Option<u32>, Fault>
        ensures turned { met result self.new ≡ made (row_made (length self.old.terms.now) row (rows_of self.old)) (brackets self.old.opens.now) }
        ensures same { Same self.old self.new }
    {
        let place = self.made.terms;
        if place >= self.terms.len() {
            return Err(Fault::NoTermRow);
        }
        self.terms[place] = row;
        self.made.terms = place + 1;
        give(self.opens, Part::Term(place as u32))
    }

    // The place of the first equal type row, or the number of those made.
    fn place_of(&self, row: TypeRow) -> usize
        ensures { result ≡ row_place row (rows_of self.now).0 }
    {
        find_type(&self.types[..self.made.types], row)
    }

    // Makes a type row unless there is an equal one; it goes into the bracket around it.
    fn add_type(&mut self, row: TypeRow) -> Result<Option<u32>, Fault>
        ensures turned { met result self.new ≡ made_type (type_made (length self.old.types.now) row (rows_of self.old)) (brackets self.old.opens.now) }
        ensures same { Same self.old self.new }
    {
        let made = self.made.types;
        let place = self.place_of(row);
        // a `give` of its own: with one after both ways a text of 1,020 types takes two fifths longer
        if place < made {
            return give(self.opens, Part::Type(place as u32));
        }
        if made >= self.types.len() {
            return Err(Fault::NoTypeRow);
        }
        self.types[made] = row;
        self.made.types = made + 1;
        give(self.opens, Part::Type(made as u32))
    }

    // Makes the row of the bracket on top, which is whole.
    fn close(&mut self) -> Result<Option<u32>, Fault>
        ensures turned { met result self.new ≡ closed_in self.old }
        ensures same { Same self.old self.new }
    {
        match self.opens.pop() {
            Some(OpenForm::Type(k, p)) => self.add_type(TypeRow::new(k, p.rows[0], p.rows[1])),
            Some(OpenForm::Term(f, p, q)) => self.add_term(TermRow::form(f, p.rows[0], q.rows)),
            _ => Err(Fault::Misplaced),
        }
    }

    // What a token leads to: more tokens, or the row of the rule, which is whole.
    #[tactic(auto, using(crate::proofs::Same::same_apart))]
    pub(crate) fn turn(&mut self, token: Token) -> Result<Option<u32>, Fault>
        ensures turned { met result self.new ≡ turn_in (tok_of token.entry) self.old }
        ensures same { Same self.old self.new }
    {
        match (want(self.opens), token) {
            (Want::Term, Token::Open) => open(self.opens, OpenForm::TermWord),
            (Want::Term, Token::Number(n)) => self.add_term(TermRow::number(n)),
            (Want::Term, Token::Name(n)) => self.add_term(TermRow::name(n)),
            (Want::Type, Token::Open) => open(self.opens, OpenForm::TypeWord),
            (Want::Type, Token::Word(b"nat")) => give(self.opens, Part::Type(0)),
            (Want::TermWord, Token::Word(w)) => {
                let form = words::form_of(w).ok_or(Fault::Misplaced)?;
                spell(
                    self.opens,
                    OpenForm::Term(form, Parts::none(), Parts::none()),
                )
            }
            (Want::TypeWord, Token::Word(w)) => {
                let shape = words::shape_of(w).ok_or(Fault::Misplaced)?;
                spell(self.opens, OpenForm::Type(shape, Parts::none()))
            }
            (Want::Close, Token::Close) => self.close(),
            _ => Err(Fault::Misplaced),
        }
    }
}
