// Looking names up.
ghost use Rattle.std.specs.Prelude.{◌≡◌};
ghost use Rattle.engine.specs.Stores.{nearest_in, find_in, entered};

use crate::state::{Cell, Closure};
use crate::store::entry_or;
use rows::{Head, TermRow};

// The nearest binding of an environment, and the environment outside it.
fn nearest(cells: &[Cell], env: u32) -> (Closure, u32)
    ensures { result ≡ nearest_in cells.now env }
{
    let Some(place) = env.checked_sub(1) else {
        return (Closure::Number(0), 0);
    };
    match entry_or(cells, place, Cell::BLANK) {
        Cell::Bound { row, env, next } => (Closure::Row { row, env }, next),
        Cell::Number { number, next } => (Closure::Number(number), next),
        _ => (Closure::Number(0), 0),
    }
}

// What a name is bound to in an environment. It takes as many turns as the name's distance.
fn find(cells: &[Cell], env: u32, name: u32) -> Closure
    ensures { result ≡ find_in cells.now env name }
{
    let mut at = env;
    for _ in 0..name {
        at = nearest(cells, at).1;
    }
    nearest(cells, at).0
}

// What a row stands for in an environment: a name is looked up.
pub(crate) fn enter(rows: &[TermRow], cells: &[Cell], row: u32, env: u32) -> Closure
    ensures { result ≡ entered rows.now cells.now row env }
{
    let term = entry_or(rows, row, TermRow::ZERO);
    match term.head() {
        Head::Name => find(cells, env, term.number),
        _ => Closure::Row { row, env },
    }
}
