// Which step is made, by the mode and the top frame together: they are matched as a pair, as the rules of the project have
// it, and not looked up in a table of functions.
ghost use Rattle.std.specs.Prelude.{◌≡◌, true};
ghost use Rattle.engine.specs.declared.state.Frame.TheVariants.{CalcFirst};
ghost use Rattle.engine.specs.Stores.{top_of};
ghost use Rattle.engine.specs.Acts.{begun, opened, evaluated, chosen};
ghost use Rattle.engine.specs.Choices.{suits, Small, Ready, Stepped};

use crate::control::{Machine, Program};
use crate::state::{Cell, Closure, Frame, Mode, Next, Op, Value};
use crate::store::Store;
use crate::store::names::enter;
use counters::Counter;
use rows::{Form, Head, TermRow};

impl Store {
    // The step at a row that is no name.
    fn eval(&mut self, program: &Program, row: u16, env: u32) -> Option<Next>
        ensures { (self.new, result) ≡ evaluated program.now row env self.old }
    {
        let place = row as u32;
        let term = program.row(place);
        match term.head() {
            Head::Number => Some(Next::At(Mode::Return(Value::Number(term.number)))),
            // It was looked up where it was entered.
            Head::Name => Some(Next::At(Mode::Eval { row: place, env })),
            Head::Form(Form::Lam) => Some(Next::At(Mode::Return(Value::Lam { row, env }))),
            Head::Form(Form::Fail) => Some(Next::At(Mode::Fail)),
            Head::Form(Form::Fix) => {
                let own = Closure::Row { row: place, env };
                self.bind(program, Cell::bound(own, env), term.a)
            }
            Head::Form(Form::Succ) => self.open(program, Frame::Succ, term.a, env),
            Head::Form(Form::Fst) => self.open(program, Frame::Fst, term.a, env),
            Head::Form(Form::Snd) => self.open(program, Frame::Snd, term.a, env),
            Head::Form(Form::Get) => self.open(program, Frame::Get, term.a, env),
            Head::Form(Form::Ifz) => {
                self.open(program, Frame::Ifz { row: place, env }, term.a, env)
            }
            Head::Form(Form::Ap) => {
                self.open(program, Frame::Apply { row: term.b, env }, term.a, env)
            }
            Head::Form(Form::Catch) => {
                self.open(program, Frame::Catch { row: term.b, env }, term.a, env)
            }
            Head::Form(Form::Pair) => {
                self.open(program, Frame::PairFirst { pair: row, env }, term.a, env)
            }
            Head::Form(Form::Add) => self.calculate(program, Op::Add, term, env),
            Head::Form(Form::Sub) => self.calculate(program, Op::Sub, term, env),
            Head::Form(Form::Mul) => self.calculate(program, Op::Mul, term, env),
        }
    }

    // An operation on two numbers is opened.
    fn calculate(&mut self, program: &Program, op: Op, term: TermRow, env: u32) -> Option<Next>
        ensures { (self.new, result) ≡ opened program.now (CalcFirst op term.b env) term.a env self.old }
    {
        let frame = Frame::CalcFirst {
            op,
            row: term.b,
            env,
        };
        self.open(program, frame, term.a, env)
    }
}

impl Machine {
    // A machine with nothing in its store, at a row.
    pub(crate) fn new(rows: &[TermRow], row: u32) -> Machine
        ensures { result ≡ begun rows.now row }
    {
        Machine {
            store: Store::new(),
            mode: Mode::from(enter(rows, &[], row, 0)),
            moves: 0,
        }
    }

    // What is done next, by the mode and the top frame: where the step leads, or nothing at an end or where the limits do not
    // allow it.
    fn choose<C: Counter>(&mut self, program: &Program, counter: &mut C) -> Option<Next>
        requires { Small self.old.mode }
        ensures does { (self.new.store, result) ≡ chosen program.now (C.Counter.table counter.old) self.old.mode self.old.store }
        ensures stays { self.new ≡ record { store = self.new.store; mode = self.old.mode; moves = self.old.moves } }
        ensures alike { C.Counter.table counter.new ≡ C.Counter.table counter.old }
    {
        match (self.mode, self.store.top()) {
            (Mode::Eval { row, env }, _) => self.store.eval(program, row as u16, env),
            (Mode::Numeral(n), _) => Some(Next::At(Mode::Return(Value::Number(n)))),
            (Mode::Return(v), Some(f)) => self.store.returned(program, v, f, counter),
            (Mode::Fail, Some(Frame::Catch { row, env })) => {
                Some(self.store.resume(program, row, env))
            }
            (Mode::Fail, Some(_)) => Some(self.store.give(Mode::Fail)),
            (Mode::Return(Value::Number(_)) | Mode::Fail, None) => None,
            (mode, None) => Some(Next::At(mode)),
        }
    }

    // One step, or none at an end or where the limits do not allow it; says whether one was made.
    pub(crate) fn step<C: Counter>(&mut self, program: &Program, counter: &mut C) -> bool
        requires ready { Ready program.now.limits self.old }
        requires small { Small self.old.mode }
        requires suited { suits self.old.mode (top_of self.old.store.frames) ≡ true }
        ensures stepped { Stepped program.now (C.Counter.table counter.old) self.old self.new result }
        ensures alike { C.Counter.table counter.new ≡ C.Counter.table counter.old }
    {
        let Some(next) = self.choose(program, counter) else {
            return false;
        };
        match next {
            Next::At(mode) => self.mode = mode,
            Next::Move(mode) => {
                self.mode = mode;
                self.moves += 1;
            }
        }
        true
    }
}
