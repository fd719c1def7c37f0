// What the text of a rule is, and what reading one gives, in specs/. Each function here has a theorem for its contract.
#![tactic(auto)]

ghost use Rattle.grammar.specs.Theorems.{ReadsExactly, ReadsOnce, TightRenders};
ghost use Rattle.grammar.specs.Refusals.{RefusesRightly, WrongOnce};

mod bytes;
mod fault;

pub use bytes::Class;
pub use fault::Fault;

// A text is read exactly when it is the text of a term for which the rows suffice; the tables are then that
// term's rows, stand for it, and keep every law of tables.
pub fn reads_exactly()
    ensures { ReadsExactly 16384 1024 2048 }
{
    theory::rows_stand();
    theory::rows_lawful();
}

// A text is the text of one term at most.
pub fn reads_once()
    ensures { ReadsOnce }
{
    theory::rows_stand();
}

// A text that is refused is too long, or it may be that of a term up to the place that is named. Either it goes wrong
// there, with any rows, or rows of the kind that is named run out there, and with more of them it is read further.
pub fn refuses_rightly()
    ensures { RefusesRightly 16384 1024 2048 }
{}

// A text goes wrong at one place at most, by one fault.
pub fn wrong_once()
    ensures { WrongOnce }
{}

// The tight text of a term is a text of it.
pub fn tight_renders()
    ensures { TightRenders 999999999 }
{}
