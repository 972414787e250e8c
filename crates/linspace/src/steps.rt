// The ends and the step of an axis, of either kind of numbers.
ghost use Rattle.std.specs.Prelude.{◌≡◌, refl, true, ◌&&◌, ◌||◌, ◌-◌, ◌<◌, ◌≤◌, length, MatchOption, MatchResult};
ghost use Rattle.ranged1d.specs.Refusals.{number_of};
ghost use Rattle.numeric.specs.Calls.{index_marks};
ghost use Rattle.linspace.specs.List.{Kind, whole, real, stepped, against, axis_admitted};
ghost use Rattle.linspace.specs.Calls.{Spaced, has_entries, unserved};

use numeric::RangedCoordi32;
use ranged1d::Refusal;
use search::Entry;
use std::alloc::AllocError;

// What the calls on an axis ask of its numbers, besides what a search does.
pub(crate) trait Number: Entry {
    ghost kind: { Kind Self };

    fn zero() -> Self
        ensures { result ≡ kind.nil };

    fn plus(self, d: Self) -> Self
        requires { (kind.admitted self && kind.admitted d) ≡ true }
        ensures { result ≡ kind.plus self d };

    ghost compared: { kind.numbers ≡ Self.numbers };
}

impl Number for i32 {
    ghost kind = { whole };

    ghost compared = { refl };

    fn zero() -> i32 {
        0
    }

    fn plus(self, d: i32) -> i32 {
        self + d
    }
}

impl Number for f64 {
    ghost kind = { real };

    ghost compared = { refl };

    fn zero() -> f64 {
        0.0
    }

    fn plus(self, d: f64) -> f64 {
        self + d
    }
}

// The ends and the step by themselves, all admitted.
pub(crate) struct Steps<T: Number> {
    pub(crate) a: T,
    pub(crate) b: T,
    pub(crate) d: T,
    ghost admitted: { axis_admitted T.kind a b d ≡ true },
}

// Kept: copied by hand. A derive copies field by field, which a fact about the fields does not allow where their type is a parameter.
impl<T: Number> Clone for Steps<T> {
    fn clone(&self) -> Result<Self, AllocError> {
        Ok(*self)
    }
}

impl<T: Number> Copy for Steps<T> {}

fn at_most<T: Entry>(x: T, y: T) -> bool
    ensures { result ≡ (T.numbers.less x y || T.numbers.equal x y) }
{
    x.is_less(y) || x.is_equal(y)
}

impl<T: Number> Steps<T> {
    // Whether b lies upward of a.
    pub(crate) fn rises(self) -> bool
        ensures { result ≡ T.kind.numbers.less self.a self.b }
    {
        self.a.is_less(self.b)
    }

    // Whether the step is zero or leads away from b.
    pub(crate) fn leads_away(self) -> bool
        ensures { result ≡ against T.kind self.a self.b self.d }
    {
        if self.a.is_less(self.b) {
            return at_most(self.d, T::zero());
        }
        if self.b.is_less(self.a) {
            return at_most(T::zero(), self.d);
        }
        false
    }

    // Whether a and a + d both come before b.
    pub(crate) fn has_entries(self) -> bool
        ensures { result ≡ has_entries (stepped T.kind self.a self.b self.d) }
    {
        let c = self.a.plus(self.d);
        if self.a.is_less(self.b) {
            return c.is_less(self.b);
        }
        if self.b.is_less(self.a) {
            return self.b.is_less(c);
        }
        false
    }

    // Whether m leaves no mark for a list that has entries.
    pub(crate) fn lacks_mark(self, m: u32) -> bool
        ensures { result ≡ unserved T.kind self.a self.b self.d m }
    {
        m == 0 && self.has_entries()
    }
}

// How far apart the marks of a list are, and how many: the first is its first entry.
#[derive(Clone, Copy)]
pub(crate) struct Spacing {
    pub(crate) by: u32,
    pub(crate) count: usize,
}

// The marks of n indices, which have to fit into `room`. Their plan is not refused: m is not 0, and the indices are few.
pub(crate) fn space_marks(n: u32, m: u32, room: usize) -> Result<Option<Spacing>, Refusal>
    requires n_bound { n ≤ 65536 }
    requires m_nonzero { (0 < n) → 0 < m }
    ensures { MatchResult result (λ o. MatchOption o (n ≡ 0) (λ s. Spaced n m s.by s.count × (s.count ≤ room))) (λ r. (number_of r ≡ 13) × (0 < n) × (room < length (index_marks 0 (n - 1) m))) }
{
    if n == 0 {
        return Ok(None);
    }
    let p = RangedCoordi32(0, (n - 1) as i32).plan(m)?;
    let count = p.count as usize;
    if room < count {
        return Err(Refusal::OutTooShort);
    }
    Ok(Some(Spacing {
        by: p.step.unsigned_abs(),
        count,
    }))
}
