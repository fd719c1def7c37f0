// A stack of copied entries in a slice that the caller hands over: the slice and a height beside it, with no heap.
ghost use Rattle.std.specs.Prelude.{◌≤◌, length};

mod calls;

#[derive(Drop)]
pub struct Stack<'a, T: Copy> {
    slots: &'a mut [T],
    height: usize,
    ghost within: { height ≤ length slots.now },
}

// No slot is left.
#[derive(Clone, Copy, PartialEq, Eq, Debug)]
pub struct Full;
