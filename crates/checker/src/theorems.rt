// What is proved of the verdict, for callers that speak of it without a call of the checker.
ghost use Rattle.checker.specs.Theorems.{VerdictMeans, RowsPlaced};

// The verdict passes exactly the well-typed rules, a refusal says what is wrong, and only a refusal for want of sight rows
// is lifted by more of them.
pub fn verdict_means()
    ensures { VerdictMeans }
{}

// Every row of lawful tables stands under one context.
pub fn rows_placed()
    ensures { RowsPlaced }
{}
