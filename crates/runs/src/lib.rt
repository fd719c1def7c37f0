// Whole runs of price rules under limits, in specs/: where a run stands, its status, its calls and what they answer.
// The function here has the laws of runs for its contract.
#![tactic(auto)]

ghost use Rattle.runs.specs.Laws.{Laws};

// Every run keeps the promise of whole runs, nothing is left open by it, and engines that break it are shut out.
pub fn laws()
    ensures { Laws }
{
    machine::laws();
}
