// Rules tried at the till, in specs/: texts with the end, steps, moves and cells that each comes to.
#![tactic(auto)]

ghost use Rattle.cases.specs.Cases.{Cases};

// Every case comes out as it is stated.
pub fn cases()
    ensures { Cases }
{}
