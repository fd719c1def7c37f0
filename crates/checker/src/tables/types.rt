// The descent that finds the types of rows. A type is the place of its type row, and nat is at 0.
ghost use Rattle.std.specs.Prelude.{◌≡◌, ◌+◌, ◌<◌, ◌≤◌, length, drop, is_some, if◌then◌else◌, None};
ghost use Rattle.rows.specs.Views.{view, room};
ghost use Rattle.checker.specs.Depths.{deep_at};
ghost use Rattle.checker.specs.Types.{under, type_at};

use crate::forms::arity_of;
use crate::tables::Tables;
use crate::tables::depth::lower_of;
use crate::type_rules::{bound_at, own_type};
use rows::Stack;

// One name more in sight, where one is bound.
fn enter(names: &mut Stack<u32>, bound: Option<u32>)
    requires { length (view names.old) + (if is_some bound then 1 else 0) ≤ room names.old }
    ensures entries { view names.new ≡ under bound (view names.old) }
    ensures capacity { room names.new ≡ room names.old }
{
    if let Some(t) = bound {
        // there is room, as the clause says
        let _ = names.push(t);
    }
}

// The names without the one that was bound.
fn leave(names: &mut Stack<u32>, bound: Option<u32>)
    ensures entries { view names.new ≡ drop (if is_some bound then 1 else 0) (view names.old) }
    ensures capacity { room names.new ≡ room names.old }
{
    if bound.is_some() {
        let _ = names.pop();
    }
}

impl<'t> Tables<'t> {
    // The type of the term at row p with these names in sight, or its lowest row without one. It visits each row of the
    // term once, since each is a part once.
    pub(crate) fn type_of(&self, names: &mut Stack<u32>, p: u32) -> Result<u32, u32>
        requires within { p < length self.now.terms.now }
        requires deep { deep_at (room names.old) self.now.terms.now p (length (view names.old)) ≡ None }
        ensures value { result ≡ type_at self.now.types.now self.now.terms.now p (view names.old) }
        ensures entries { view names.new ≡ view names.old }
        ensures capacity { room names.new ≡ room names.old }
    {
        let r = self.terms[p as usize];
        let parts = [r.a, r.b, r.c];
        let mut types = [0; 3];
        let mut low = None;
        for (i, part) in parts[..arity_of(r)].iter().enumerate() {
            let bound = bound_at(self.types, r, i);
            enter(names, bound);
            match self.type_of(names, *part) {
                Ok(t) => types[i] = t,
                Err(q) => low = lower_of(low, Some(q)),
            }
            leave(names, bound);
        }
        match low {
            Some(q) => Err(q),
            None => own_type(self.types, r, names.look(r.number as usize), types).ok_or(p),
        }
    }
}
