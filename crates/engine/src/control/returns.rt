// What is done with a value that is returned to the top frame. A step is a third faster where these are inlined in it.
// Each function that takes the counter by `&mut` has to say that its table stays (`alike`): it could put another one there.
ghost use Rattle.std.specs.Prelude.{◌≡◌};
ghost use Rattle.engine.specs.Acts.{branched, applied, taken, returned};

use crate::control::Program;
use crate::control::values::{calculated, limited};
use crate::state::{Cell, Frame, Mode, Next, Value};
use crate::store::Store;
use crate::store::names::enter;
use counters::Counter;

impl Store {
    // A number returned to an ifz.
    fn branch(&mut self, program: &Program, n: u32, row: u32, env: u32) -> Option<Next>
        ensures { (self.new, result) ≡ branched program.now n row env self.old }
    {
        let term = program.row(row);
        match n.checked_sub(1) {
            None => Some(self.resume(program, term.b, env)),
            Some(number) => {
                self.resume_with(program, Cell::Number { number, next: env }, term.c)
            }
        }
    }

    // A function, by the row of its lam and its environment, returned to an argument.
    fn apply(&mut self, program: &Program, lam: u16, outer: u32, row: u32, env: u32) -> Option<Next>
        ensures { (self.new, result) ≡ applied program.now lam outer row env self.old }
    {
        let argument = enter(program.sheet.terms(), self.cells(), row, env);
        let body = program.row(lam as u32).a;
        self.resume_with(program, Cell::bound(argument, outer), body)
    }

    // A value returned to a frame that takes values of its kind alone. The counter is asked where the frame is a get, and
    // only there. Another value stays, which no well typed state has.
    #[inline(always)]
    fn taken<C: Counter>(
        &mut self,
        program: &Program,
        v: Value,
        f: Frame,
        counter: &mut C,
    ) -> Option<Next>
        ensures does { (self.new, result) ≡ taken program.now (C.Counter.table counter.old) v f self.old }
        ensures alike { C.Counter.table counter.new ≡ C.Counter.table counter.old }
    {
        match (v, f) {
            (Value::Number(n), Frame::Succ) => Some(self.give(limited(n as u64 + 1))),
            (Value::Number(n), Frame::Get) => Some(self.give(Mode::from(counter.answer(n)))),
            (Value::Number(n), Frame::Ifz { row, env }) => self.branch(program, n, row, env),
            (Value::Number(_), Frame::CalcFirst { row, env, .. }) => {
                Some(self.second(program, v, row, env))
            }
            (Value::Number(n), Frame::CalcSecond { op, left }) => {
                Some(self.give(limited(calculated(op, left, n))))
            }
            (
                Value::Lam {
                    row: lam,
                    env: outer,
                },
                Frame::Apply { row, env },
            ) => { self.apply(program, lam, outer, row, env) }
            (Value::Pair(cell), Frame::Fst) => Some(self.give(Mode::Return(self.halves(cell).0))),
            (Value::Pair(cell), Frame::Snd) => Some(self.give(Mode::Return(self.halves(cell).1))),
            _ => Some(Next::At(Mode::Return(v))),
        }
    }

    // A value returned to a frame.
    #[inline(always)]
    pub(crate) fn returned<C: Counter>(
        &mut self,
        program: &Program,
        v: Value,
        f: Frame,
        counter: &mut C,
    ) -> Option<Next>
        ensures does { (self.new, result) ≡ returned program.now (C.Counter.table counter.old) v f self.old }
        ensures alike { C.Counter.table counter.new ≡ C.Counter.table counter.old }
    {
        match f {
            Frame::Catch { .. } => Some(self.give(Mode::Return(v))),
            Frame::PairFirst { pair, env } => {
                Some(self.second(program, v, program.row(pair as u32).b, env))
            }
            Frame::PairSecond { pair, left } => self.pair(program, pair, left, v),
            _ => self.taken(program, v, f, counter),
        }
    }
}
