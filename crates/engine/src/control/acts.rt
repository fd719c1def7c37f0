// What a step does to the store, and the limits that may not allow it. A row and its environment are passed beside each
// other: most pairs of them are made in `eval`, of a part of its row and its own environment, and each would have to name a
// struct. A step is faster where the larger acts are inlined in it.
ghost use Rattle.std.specs.Prelude.{◌≡◌};
ghost use Rattle.engine.specs.Acts.{stands_at, gave, resumed, opened, bound, paired, second as seconding, halves_at};
ghost use Rattle.engine.specs.Stores.{popped};

use crate::control::Program;
use crate::state::{Cell, Frame, Mode, Next, Value};
use crate::store::names::enter;
use crate::store::{Store, entry_or};

impl Store {
    // Where the machine stands at a row in an environment.
    fn stand(&self, program: &Program, row: u32, env: u32) -> Mode
        ensures { result ≡ stands_at program.now self.now.cells row env }
    {
        Mode::from(enter(program.sheet.terms(), self.cells(), row, env))
    }

    // The values of the pair in a cell.
    pub(crate) fn halves(&self, cell: u32) -> (Value, Value)
        ensures { result ≡ halves_at cell self.now }
    {
        entry_or(self.cells(), cell, Cell::BLANK).halves()
    }

    // The top frame is done with: a move.
    pub(crate) fn give(&mut self, mode: Mode) -> Next
        ensures { (self.new, Some result) ≡ gave mode self.old }
    {
        self.pop();
        Next::Move(mode)
    }

    // The same, and a row is entered.
    pub(crate) fn resume(&mut self, program: &Program, row: u32, env: u32) -> Next
        ensures { (self.new, Some result) ≡ resumed program.now row env self.old }
    {
        let mode = self.stand(program, row, env);
        self.give(mode)
    }

    // A form is opened: a frame more, if there is room for it, and its part is entered.
    pub(crate) fn open(&mut self, program: &Program, f: Frame, row: u32, env: u32) -> Option<Next>
        ensures { (self.new, result) ≡ opened program.now f row env self.old }
    {
        self.push(&program.limits, f)?;
        Some(Next::At(self.stand(program, row, env)))
    }

    // A name is bound: a cell more, if there is room for it, and a row is entered in it: a move.
    #[inline(always)]
    pub(crate) fn bind(&mut self, program: &Program, x: Cell, row: u32) -> Option<Next>
        ensures { (self.new, result) ≡ bound (λ k. k) program.now x row self.old }
    {
        let place = self.alloc(&program.limits, x)?;
        Some(Next::Move(self.stand(program, row, place + 1)))
    }

    // The same, and the top frame is done with.
    #[inline(always)]
    pub(crate) fn resume_with(&mut self, program: &Program, x: Cell, row: u32) -> Option<Next>
        ensures { (self.new, result) ≡ bound popped program.now x row self.old }
    {
        let next = self.bind(program, x, row)?;
        self.pop();
        Some(next)
    }

    // A pair is finished: a cell more, if there is room for it, and the top frame is done with.
    pub(crate) fn pair(
        &mut self,
        program: &Program,
        pair: u16,
        left: Value,
        right: Value,
    ) -> Option<Next>
        ensures { (self.new, result) ≡ paired program.now pair left right self.old }
    {
        let place = self.alloc(&program.limits, Cell::Pair { pair, left, right })?;
        self.pop();
        Some(Next::At(Mode::Return(Value::Pair(place))))
    }

    // The top frame's first part is done with, and its second is entered.
    #[inline(always)]
    pub(crate) fn second(&mut self, program: &Program, v: Value, row: u32, env: u32) -> Next
        ensures { (self.new, Some result) ≡ seconding program.now v row env self.old }
    {
        self.rewrite_top(v);
        Next::At(self.stand(program, row, env))
    }
}
