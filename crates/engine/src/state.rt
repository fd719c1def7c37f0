// What the store holds and where the machine stands. An environment is 0 where it is empty, and k + 1 where cell k is its
// nearest binding: an Option would take twice the room. Frames and modes take 12 bytes and cells 20, with no gap in the blank
// ones, so that a store of blanks is made by clearing memory.

#[derive(Clone, Copy)]
pub enum Op {
    Add,
    Sub,
    Mul,
}

// A value: of a pair, of a frame that waits for the pair's other half, or returned.
#[derive(Clone, Copy)]
pub enum Value {
    Number(u32),
    // a function, by the row of its lam and its environment
    Lam { row: u16, env: u32 },
    // a pair, by its cell
    Pair(u32),
}

// What a name is bound to: a number, or a row that is no name, with the environment of the names in it.
#[derive(Clone, Copy)]
pub enum Closure {
    Number(u32),
    Row { row: u32, env: u32 },
}

// A form with one part open. Rows are those of the parts that wait, but for ifz and pair, which have the form's own row.
#[derive(Clone, Copy)]
pub enum Frame {
    // fills the slots that are not in use
    Blank { a: u8, b: u16, c: u32, d: u32 },
    Succ,
    Fst,
    Snd,
    Get,
    Ifz { row: u32, env: u32 },
    Apply { row: u32, env: u32 },
    Catch { row: u32, env: u32 },
    PairFirst { pair: u16, env: u32 },
    PairSecond { pair: u16, left: Value },
    CalcFirst { op: Op, row: u32, env: u32 },
    CalcSecond { op: Op, left: u32 },
}

impl Frame {
    pub const BLANK: Frame = Frame::Blank {
        a: 0,
        b: 0,
        c: 0,
        d: 0,
    };
}

#[derive(Clone, Copy)]
pub enum Cell {
    // fills the slots that are not in use
    Blank {
        a: u8,
        b: u16,
        c: u32,
        d: u32,
        e: u32,
        f: u32,
    },
    // a name bound to a row in an environment, and the environment outside it
    Bound {
        row: u32,
        env: u32,
        next: u32,
    },
    // a name bound to a number
    Number {
        number: u32,
        next: u32,
    },
    Pair {
        pair: u16,
        left: Value,
        right: Value,
    },
}

impl Cell {
    pub const BLANK: Cell = Cell::Blank {
        a: 0,
        b: 0,
        c: 0,
        d: 0,
        e: 0,
        f: 0,
    };
}

#[derive(Clone, Copy)]
pub enum Mode {
    // evaluating a row that is no name; it is as wide as the fields of rows are, and `Small` says that it fits in 16 bits
    Eval { row: u32, env: u32 },
    // evaluating a number that a name is bound to
    Numeral(u32),
    Return(Value),
    Fail,
}

// Where a step leads: to a mode, without a move or by one.
#[derive(Clone, Copy)]
pub enum Next {
    At(Mode),
    Move(Mode),
}
