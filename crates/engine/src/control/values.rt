// What values become.
ghost use Rattle.std.specs.Prelude.{◌≡◌};
ghost use Rattle.machine.specs.Steps.{result as resulting};
ghost use Rattle.engine.specs.View.{op_of};
ghost use Rattle.engine.specs.Values.{limited_to, answered_by, closure_mode, halves_of, bound_to};

use crate::state::{Cell, Closure, Mode, Op, Value};
use rows::TOP;

// A number that is an amount is returned; one above the largest fails.
pub(crate) fn limited(n: u64) -> Mode
    ensures { result ≡ limited_to n }
{
    if n <= TOP as u64 {
        Mode::Return(Value::Number(n as u32))
    } else {
        Mode::Fail
    }
}

pub(crate) fn calculated(op: Op, n: u32, m: u32) -> u64
    ensures { result ≡ resulting (op_of op) n m }
{
    match op {
        Op::Add => n as u64 + m as u64,
        Op::Sub => n.saturating_sub(m) as u64,
        Op::Mul => n as u64 * m as u64,
    }
}

// An answer is returned; where there is none, the question fails.
impl From<Option<u32>> for Mode {
    ghost from_gives = { λ answer mode. mode ≡ answered_by answer };

    fn from(answer: Option<u32>) -> Mode {
        answer.map_or(Mode::Fail, |n| Mode::Return(Value::Number(n)))
    }
}

// A closure is evaluated.
impl From<Closure> for Mode {
    ghost from_gives = { λ closure mode. mode ≡ closure_mode closure };

    fn from(closure: Closure) -> Mode {
        match closure {
            Closure::Number(n) => Mode::Numeral(n),
            Closure::Row { row, env } => Mode::Eval { row, env },
        }
    }
}

impl Cell {
    // The cell that binds a name to a closure, outside of which the environment is `next`.
    pub(crate) fn bound(closure: Closure, next: u32) -> Cell
        ensures { result ≡ bound_to closure next }
    {
        match closure {
            Closure::Number(number) => Cell::Number { number, next },
            Closure::Row { row, env } => Cell::Bound { row, env, next },
        }
    }

    // The values of a pair; any other cell has 0.
    pub(crate) fn halves(self) -> (Value, Value)
        ensures { result ≡ halves_of self }
    {
        match self {
            Cell::Pair { left, right, .. } => (left, right),
            _ => (Value::Number(0), Value::Number(0)),
        }
    }
}
