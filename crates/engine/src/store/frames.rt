// The stack of frames.
ghost use Rattle.std.specs.Prelude.{◌≡◌, length, is_some, if◌then◌else◌, nat_lt};
ghost use Rattle.engine.specs.Stores.{pushed, popped, top_of, to_second, seconded};

use crate::limits::Limits;
use crate::state::{Frame, Value};
use crate::store::Store;

// A form whose first part is open becomes that form with its second part open, where the first returned a value.
fn to_second(f: &mut Frame, v: Value)
    ensures { f.new ≡ to_second f.old v }
{
    *f = match (*f, v) {
        (Frame::PairFirst { pair, .. }, left) => Frame::PairSecond { pair, left },
        (Frame::CalcFirst { op, .. }, Value::Number(left)) => Frame::CalcSecond { op, left },
        (same, _) => same,
    };
}

impl Store {
    // A frame more, if there is room for it. It answers an Option, as the acts do, for `?`.
    pub(crate) fn push(&mut self, limits: &Limits, f: Frame) -> Option<()>
        ensures value { is_some result ≡ nat_lt (length self.old.frames) limits.now.frames }
        ensures after { self.new ≡ (if is_some result then pushed f self.old else self.old) }
    {
        if self.height >= limits.frames {
            return None;
        }
        self.frames[self.height as usize] = f;
        self.height += 1;
        Some(())
    }

    // The top frame, if there is one.
    pub(crate) fn top(&self) -> Option<Frame>
        ensures { result ≡ top_of self.now.frames }
    {
        let at = self.height.checked_sub(1)?;
        Some(self.frames[at as usize])
    }

    // Takes the top frame off, if there is one.
    #[tactic(auto, using(crate::proofs::Stacks::popped))]
    pub(crate) fn pop(&mut self)
        ensures { self.new ≡ popped self.old }
    {
        self.height = self.height.saturating_sub(1);
    }

    // The top frame, whose first part returned v, has its second part open now.
    pub(crate) fn rewrite_top(&mut self, v: Value)
        ensures { self.new ≡ seconded v self.old }
    {
        if let Some(at) = self.height.checked_sub(1) {
            to_second(&mut self.frames[at as usize], v);
        }
    }
}
