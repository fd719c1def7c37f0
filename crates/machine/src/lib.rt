// The control-stack machine and the structural steps of rules, in specs/. The function here has their laws for its contract.
#![tactic(auto)]

ghost use Rattle.machine.specs.Laws.{Laws};

// The machine is determined, keeps types, ends or goes on, and its moves are the structural steps.
pub fn laws()
    ensures { Laws }
{}
