// Rows under too many binders.
ghost use Rattle.std.specs.Prelude.{◌≡◌, ◌+◌, ◌<◌, length};
ghost use Rattle.checker.specs.Lowest.{lower};
ghost use Rattle.checker.specs.Depths.{deep_at};

use crate::forms::arity_of;
use crate::tables::Tables;
use crate::type_rules::bound_at;

// The lower of two places. `min` of the options would not do, since None stands first in their order.
pub(crate) fn lower_of(x: Option<u32>, y: Option<u32>) -> Option<u32>
    ensures { result ≡ lower x y }
{
    match (x, y) {
        (Some(i), Some(j)) => Some(i.min(j)),
        _ => x.or(y),
    }
}

impl<'t> Tables<'t> {
    // The lowest row of the term at row p, which is under so many binders, that is under more than the limit. It visits
    // each row of the term once, since each is a part once.
    pub(crate) fn too_deep(&self, limit: usize, p: u32, binders: u32) -> Option<u32>
        requires within { p < length self.now.terms.now }
        requires few { binders + p < 2048 }
        ensures { result ≡ deep_at limit self.now.terms.now p binders }
    {
        let r = self.terms[p as usize];
        let parts = [r.a, r.b, r.c];
        let mut low = None;
        for (i, part) in parts[..arity_of(r)].iter().enumerate() {
            let inside = binders + u32::from(bound_at(self.types, r, i).is_some());
            low = lower_of(low, self.too_deep(limit, *part, inside));
        }
        low.or((limit < binders as usize).then_some(p))
    }
}
