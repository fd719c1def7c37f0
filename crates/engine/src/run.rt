// A run of a passed sheet: the sheet, the limits, the machine, and the steps made.
ghost use Rattle.std.specs.Prelude.{◌≡◌, ◌≤◌, true, length};
ghost use Rattle.checker.specs.Sheets.{tables};
ghost use Rattle.machine.specs.StateTyping.{WellTyped};
ghost use Rattle.environments.specs.Nodes.{nodes_of};
ghost use Rattle.environments.specs.NodeTerms.{terms_of};
ghost use Rattle.environments.specs.Stands.{stands};
ghost use Rattle.environments.specs.Fits.{fits};
ghost use Rattle.engine.specs.Stores.{frames_in, cells_in};
ghost use Rattle.engine.specs.Choices.{state_of};

use crate::control::Machine;
use crate::limits::Limits;
use checker::Passed;

pub mod steps;

// Its type says what holds of it between calls: it is within its limits, what its store names is there, and the state that
// it stands for is well typed.
#[derive(Drop)]
pub struct Run<'t> {
    sheet: Passed<'t>,
    limits: Limits,
    machine: Machine,
    steps: u32,
    ghost spending: { steps ≤ limits.fuel },
    ghost moving: { machine.moves ≤ steps },
    ghost standing: { length (frames_in machine.store) ≤ limits.frames },
    ghost holding: { length (cells_in machine.store) ≤ limits.cells },
    ghost fitting: { fits (terms_of (nodes_of (tables sheet))) (nodes_of (tables sheet)) (state_of (tables sheet) machine) ≡ true },
    ghost typing: { ∥ WellTyped (stands (terms_of (nodes_of (tables sheet))) (state_of (tables sheet) machine)) ∥₁ },
}
