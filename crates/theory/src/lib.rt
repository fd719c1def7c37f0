// The language of rules and what tables stand for, in specs/. Each function here has a theorem for its contract.
#![tactic(auto)]

ghost use Rattle.theory.specs.Theorems.{RowsStand, RowsLawful, RowsUnfold, RowsCounted};

// The rows of a term stand for that term.
pub fn rows_stand()
    ensures { RowsStand }
{}

// The rows of a term keep the laws of tables.
pub fn rows_lawful()
    ensures { RowsLawful 1024 2048 999999999 }
{}

// Each row of lawful tables stands for its own type or term, by those of the rows before it.
pub fn rows_unfold()
    ensures { RowsUnfold }
{}

// The rule of lawful tables has as many term rows as they, and no more type rows.
pub fn rows_counted()
    ensures { RowsCounted }
{}
