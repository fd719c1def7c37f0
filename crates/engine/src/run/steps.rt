// Opening a run, and its steps.
ghost use Rattle.std.specs.Prelude.{◌≡◌, ◌-◌, [], length};
ghost use Rattle.theory.specs.Stands.{rule_of};
ghost use Rattle.checker.specs.Sheets.{tables};
ghost use Rattle.runs.specs.Advances.{once as onward};
ghost use Rattle.runs.specs.Calls.{start, now_at, Came};
ghost use Rattle.engine.specs.Runs.{limits_of, view, Advanced};

use crate::control::{Machine, Program};
use crate::limits::Limits;
use crate::run::Run;
use checker::Passed;
use counters::Counter;

impl<'t> Run<'t> {
    // Opens a run of a passed sheet, and uses neither the sheet nor the limits up.
    pub fn open(sheet: Passed<'t>, limits: Limits) -> Run<'t>
        ensures opens { view result ≡ start (limits_of limits) (rule_of (tables sheet.entry)) }
        ensures came { Came (rule_of (tables sheet.entry)) (limits_of limits) [] [] (view result) }
    {
        environments::laws();
        sheet.is_rule();
        let rows = sheet.terms();
        let last = (rows.len() - 1) as u32;
        Run {
            sheet,
            limits,
            machine: Machine::new(rows, last),
            steps: 0,
        }
    }

    // One step, while the run is going; says whether one was made.
    pub(crate) fn step<C: Counter>(&mut self, counter: &mut C) -> bool
        ensures once { view self.new ≡ now_at (view self.old) (onward (C.Counter.table counter.old) (view self.old).limits (view self.old).standing) }
        ensures step { Advanced (C.Counter.table counter.old) (view self.old) (view self.new) result }
        ensures alike { C.Counter.table counter.new ≡ C.Counter.table counter.old }
    {
        environments::laws();
        machine::laws();
        let program = Program {
            sheet: self.sheet,
            limits: self.limits,
        };
        program.sheet.is_rule();
        if self.steps == self.limits.fuel {
            return false;
        }
        if !self.machine.step(&program, counter) {
            return false;
        }
        self.steps += 1;
        true
    }
}
