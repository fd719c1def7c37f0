// How often each row is a part.
ghost use Rattle.std.specs.Prelude.{◌≡◌, ◌-◌, length};
ghost use Rattle.checker.specs.Lowest.{lowest};
ghost use Rattle.checker.specs.RowTests.{used_once};

use crate::forms::arity_of;
use crate::tables::Tables;
use rows::MOST_TERMS;

impl<'t> Tables<'t> {
    // The lowest row but the last that is not a part exactly once.
    pub(crate) fn bad_part(&self) -> Option<u32>
        ensures { result ≡ lowest (used_once self.now.terms.now) (length self.now.terms.now - 1) }
    {
        let mut counts = [0u32; MOST_TERMS];
        for r in self.terms {
            for part in &[r.a, r.b, r.c][..arity_of(*r)] {
                counts[*part as usize] += 1;
            }
        }
        (0..self.last()).find(|&j| counts[j as usize] != 1)
    }
}
