// What a stack does. Its room is a value's and not a type's, so each call that changes a stack says that the room stays.
ghost use Rattle.std.specs.Prelude.{◌≡◌, ◌<◌, [], ◌∷◌, length, drop, is_ok, if◌then◌else◌, Some, nat_lt, slice_set};
ghost use Rattle.std.specs.List.{slice_get};
ghost use Rattle.rows.specs.Views.{view, room};

use crate::stack::{Full, Stack};

impl<'a, T: Copy> Stack<'a, T> {
    // An empty stack.
    pub fn new(slots: &'a mut [T]) -> Stack<'a, T>
        ensures empty { view result ≡ [] }
        ensures capacity { room result ≡ length slots.old }
    {
        Stack { slots, height: 0 }
    }

    // One entry more on top; where no slot is left, nothing changes.
    pub fn push(&mut self, x: T) -> Result<(), Full>
        ensures value { is_ok result ≡ nat_lt (length (view self.old)) (room self.old) }
        ensures after { view self.new ≡ (if is_ok result then x ∷ view self.old else view self.old) }
        ensures capacity { room self.new ≡ room self.old }
    {
        if self.height >= self.slots.len() {
            return Err(Full);
        }
        self.slots[self.height] = x;
        self.height += 1;
        Ok(())
    }

    // Takes the top entry off, if there is one.
    pub fn pop(&mut self) -> Option<T>
        ensures value { result ≡ slice_get (view self.old) 0 }
        ensures after { view self.new ≡ drop 1 (view self.old) }
        ensures capacity { room self.new ≡ room self.old }
    {
        self.height = self.height.checked_sub(1)?;
        Some(self.slots[self.height])
    }

    // The entry `distance` below the top, if there is one.
    pub fn look(&self, distance: usize) -> Option<T>
        ensures { result ≡ slice_get (view self.now) distance }
    {
        let place = self.height.checked_sub(1)?.checked_sub(distance)?;
        Some(self.slots[place])
    }

    // The top entry, if there is one.
    pub fn top(&self) -> Option<T>
        ensures { result ≡ slice_get (view self.now) 0 }
    {
        self.look(0)
    }

    // Another entry in the place of the top one, if there is one.
    pub fn replace_top(&mut self, x: T)
        ensures after { view self.new ≡ slice_set (view self.old) 0 x }
        ensures capacity { room self.new ≡ room self.old }
    {
        if let Some(top) = self.height.checked_sub(1) {
            self.slots[top] = x;
        }
    }
}
