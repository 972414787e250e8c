// What a search answers once the target's place in a list is known.
ghost use Rattle.std.specs.Prelude.{◌≡◌};
ghost use Rattle.ranged1d.specs.Answer.{given};
ghost use Rattle.ranged1d.specs.Told.{tell_option};
ghost use Rattle.search.specs.Settled.{ahead, behind, nearest, unequal, settled};

use crate::{Entry, RoundingMethod};

// Where a target lies: of n entries the first i come before it, in a list that rises or falls.
#[derive(Clone, Copy)]
pub struct Place {
    pub rises: bool,
    pub n: usize,
    pub i: usize,
}

impl Place {
    // The entry behind those that come before the target, if there is one.
    fn ahead(self) -> Option<u64>
        ensures { tell_option result ≡ ahead self.n self.i }
    {
        (self.i < self.n).then_some(self.i as u64)
    }

    // The last of those that come before the target, if there is one.
    fn behind(self) -> Option<u64>
        ensures { tell_option result ≡ behind self.i }
    {
        self.i.checked_sub(1).map(|i| i as u64)
    }

    fn nearest(self, closer: bool) -> u64
        ensures { given result ≡ nearest self.n self.i closer }
    {
        if self.i == 0 {
            return 0;
        }
        if self.i < self.n && !closer {
            return self.i as u64;
        }
        (self.i - 1) as u64
    }

    // What a search answers for a target that is no entry; closer says whether it is nearer to the last entry before it than to the next.
    fn settle_other(self, method: RoundingMethod, closer: bool) -> Option<u64>
        ensures { tell_option result ≡ unequal method self.rises self.n self.i closer }
    {
        match (method, self.rises) {
            (RoundingMethod::Exact, _) => None,
            (RoundingMethod::Ceil, true) | (RoundingMethod::Floor, false) => self.ahead(),
            (RoundingMethod::Ceil, false) | (RoundingMethod::Floor, true) => self.behind(),
            (RoundingMethod::Round, _) => Some(self.nearest(closer)),
        }
    }

    // What a search answers for the target t: x is the last entry before it, y the next, and where there is none either may be any number.
    pub fn settle<T: Entry>(self, method: RoundingMethod, x: T, t: T, y: T) -> Option<u64>
        ensures { tell_option result ≡ settled T.numbers method self.rises self.n self.i x t y }
    {
        if self.i < self.n && y.is_equal(t) {
            return Some(self.i as u64);
        }
        self.settle_other(method, t.is_closer(self.rises, x, y))
    }
}
