// The environment machine over the rows of a sheet, in specs/. The functions here have theorems for their contracts.
#![tactic(auto)]

ghost use Rattle.environments.specs.Laws.{Laws};
ghost use Rattle.environments.specs.Cases.{Cases};

// Its states stand for those of the control-stack machine, its steps for steps, and its runs for runs.
pub fn laws()
    ensures { Laws }
{
    machine::laws();
}

// Tables run by it come out as they do when counted by hand.
pub fn cases()
    ensures { Cases }
{}
