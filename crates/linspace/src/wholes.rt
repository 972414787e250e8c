// Stepped axes of whole numbers. Entry k is a + k · d, so that nothing but the writing of a list takes longer for a longer one.
ghost use Rattle.std.specs.Prelude.{◌≡◌, true, false, ℕ, suc, ◌+◌, ◌*◌, ◌<◌, ◌≤◌, pos, length, get_or, MatchResult};
ghost use Rattle.ranged1d.specs.Admitted.{whole_admitted};
ghost use Rattle.ranged1d.specs.Answer.{given, refused, list_written};
ghost use Rattle.ranged1d.specs.Refusals.{number_of};
ghost use Rattle.ranged1d.specs.Told.{tell, tell_option, tell_found};
ghost use Rattle.numeric.specs.Marks.{list_of};
ghost use Rattle.numeric.specs.Calls.{element};
ghost use Rattle.search.specs.Search.{search, wholes};
ghost use Rattle.linspace.specs.List.{whole, stepped, against, axis_admitted};
ghost use Rattle.linspace.specs.Calls.{nth, marks_of, step_values, step_size, step_from_index, step_index_of, step_index_among, step_place, step_reading, step_key_points};
ghost use Rattle.linspace.specs.WholeSteps.{whole_count, past, whole_position, Known};

use crate::Linspacei32;
use crate::steps::{Spacing, Steps, space_marks};
use ranged1d::{Limit, Refusal};
use search::{Place, RoundingMethod};

// A list that is not refused: its ends and its step, and how many entries it has.
#[derive(Clone, Copy)]
struct Entries {
    s: Steps<i32>,
    n: u32,
    ghost known: { Known s.a s.b s.d n },
}

// How many entries there would be, at most 2,000,000,000: the distance of the ends over the step's size, rounded up. There is none
// where the first step reaches b.
fn count(s: Steps<i32>) -> u32
    requires { against whole s.a s.b s.d ≡ false }
    ensures { result ≡ whole_count s.a s.b s.d }
{
    let span = s.b.abs_diff(s.a);
    let step = s.d.unsigned_abs();
    if span <= step {
        return 0;
    }
    // Kept: rounded up by hand, here and where a position or a share is. `div_ceil` takes a remainder and a branch more.
    (span - 1) / step + 1
}

// The list, or why it is refused.
fn counted(s: Steps<i32>) -> Result<Entries, Refusal>
    ensures { MatchResult result (λ l. (step_size whole s.a s.b s.d ≡ given l.n) × (stepped whole s.a s.b s.d ≡ list_of (element l.s.a l.s.d) l.n)) (λ r. step_size whole s.a s.b s.d ≡ refused (number_of r)) }
{
    if s.leads_away() {
        return Err(Refusal::StepAgainstAxis);
    }
    let n = count(s);
    if 65536 < n {
        return Err(Refusal::ListTooLong);
    }
    Ok(Entries { s, n })
}

impl Entries {
    // Entry k.
    // Kept: first + k · step in place. A public function that asks that it fits would be called by a line as long.
    fn entry(self, k: u32) -> i32
        requires { k < self.n }
        ensures { result ≡ element self.s.a self.s.d k }
    {
        self.s.a + (k as i32) * self.s.d
    }

    // Entry k, if there is one.
    fn get(self, k: u64) -> Option<i32>
        ensures { tell_option result ≡ nth (list_of (element self.s.a self.s.d) self.n) k }
    {
        if k < u64::from(self.n) {
            return Some(self.entry(k as u32));
        }
        None
    }

    // How far v lies past a on the way to b, below zero where it lies behind.
    // Kept: v is admitted here and in the two below. `index_among` tests it once, and a type that holds it would be taken apart in each of the three.
    fn past(self, v: i32) -> i32
        requires { whole_admitted v ≡ true }
        ensures { result ≡ past self.s.a self.s.b v }
    {
        if self.s.rises() {
            return v - self.s.a;
        }
        self.s.a - v
    }

    // How many entries come before v on the way from a to b. A step of zero is met only where the ends are equal, and there is no entry then.
    fn position(self, v: i32) -> u32
        requires { whole_admitted v ≡ true }
        ensures { result ≡ whole_position self.s.a self.s.b self.s.d self.n v }
    {
        let along = self.past(v);
        if along <= 0 {
            return 0;
        }
        let step = self.s.d.unsigned_abs();
        if step == 0 {
            return self.n;
        }
        ((along.unsigned_abs() - 1) / step + 1).min(self.n)
    }

    // Entry i, or v where there is none.
    // Kept: search has this and the next of a lent list. Over a closure that gives entry i they would be one, and each caller would show what it gives.
    fn entry_or(self, i: u32, v: i32) -> i32
        ensures { result ≡ get_or (list_of (element self.s.a self.s.d) self.n) i v }
    {
        if i < self.n {
            return self.entry(i);
        }
        v
    }

    // The last of the first i entries, or v where there is none.
    fn entry_before(self, i: u32, v: i32) -> i32
        ensures { (j : ℕ) → suc j ≡ i → result ≡ get_or (list_of (element self.s.a self.s.d) self.n) j v }
    {
        if i == 0 {
            return v;
        }
        self.entry_or(i - 1, v)
    }

    // The index of v by a search.
    fn find(self, v: i32, method: RoundingMethod) -> Option<u64>
        requires { whole_admitted v ≡ true }
        ensures { tell_option result ≡ search wholes v method (list_of (element self.s.a self.s.d) self.n) }
    {
        let i = self.position(v);
        let x = self.entry_before(i, v);
        let y = self.entry_or(i, v);
        let place = Place {
            rises: self.s.rises(),
            n: self.n as usize,
            i: i as usize,
        };
        place.settle(method, x, v, y)
    }

    // The entries, in all of out, each from the one before it. The sum behind the last is at most 2,000,000,000 in size.
    fn put(self, out: &mut [i32])
        requires { length out.old ≡ self.n }
        ensures { out.new ≡ list_of (element self.s.a self.s.d) self.n }
    {
        let mut x = self.s.a;
        for y in out.iter_mut() {
            *y = x;
            x += self.s.d;
        }
    }

    // The entries at such marks, in all of out.
    fn put_spaced(self, out: &mut [i32], p: Spacing)
        requires size { length out.old ≡ p.count }
        requires few { p.count ≤ self.n }
        requires within { (k : ℕ) → k < p.count → k * p.by < self.n }
        ensures { out.new ≡ list_of (λ k. element self.s.a self.s.d (k * p.by)) p.count }
    {
        for (k, y) in out.iter_mut().enumerate() {
            *y = self.entry((k as u32) * p.by);
        }
    }

    // The entries at the marks of the indices, written to the start of out.
    fn put_marks(self, m: u32, out: &mut [i32]) -> Result<usize, Refusal>
        requires { (0 < self.n) → 0 < m }
        ensures { (tell result, out.new) ≡ list_written (marks_of (pos 0) (list_of (element self.s.a self.s.d) self.n) m) out.old }
    {
        let Some(p) = space_marks(self.n, m, out.len())? else {
            return Ok(0);
        };
        self.put_spaced(&mut out[0..p.count], p);
        Ok(p.count)
    }
}

impl Linspacei32 {
    // Whether both ends and the step are admitted.
    pub fn admitted(self) -> bool
        ensures { result ≡ axis_admitted whole self.inner.0 self.inner.1 self.step }
    {
        self.inner.admitted() && ranged1d::whole_admitted(self.step)
    }

    // The ends and the step, if they are admitted.
    fn steps(self) -> Result<Steps<i32>, Refusal>
        ensures { MatchResult result (λ s. (s.a ≡ self.inner.0) × (s.b ≡ self.inner.1) × (s.d ≡ self.step)) (λ r. (number_of r ≡ 1) × (axis_admitted whole self.inner.0 self.inner.1 self.step ≡ false)) }
    {
        if self.admitted() {
            return Ok(Steps {
                a: self.inner.0,
                b: self.inner.1,
                d: self.step,
            });
        }
        Err(Refusal::WholeNotAdmitted)
    }

    // The list, or why it is refused.
    fn entries(self) -> Result<Entries, Refusal>
        ensures { MatchResult result (λ l. (step_size whole self.inner.0 self.inner.1 self.step ≡ given l.n) × (stepped whole self.inner.0 self.inner.1 self.step ≡ list_of (element l.s.a l.s.d) l.n)) (λ r. step_size whole self.inner.0 self.inner.1 self.step ≡ refused (number_of r)) }
    {
        let s = self.steps()?;
        counted(s)
    }

    // The list, written to the start of out.
    pub fn values(self, out: &mut [i32]) -> Result<usize, Refusal>
        ensures { (tell result, out.new) ≡ step_values whole self.inner.0 self.inner.1 self.step out.old }
    {
        let l = self.entries()?;
        let size = l.n as usize;
        if out.len() < size {
            return Err(Refusal::ListTooLong);
        }
        l.put(&mut out[0..size]);
        Ok(size)
    }

    // The number of entries.
    pub fn size(self) -> Result<u64, Refusal>
        ensures { tell result ≡ step_size whole self.inner.0 self.inner.1 self.step }
    {
        let l = self.entries()?;
        Ok(u64::from(l.n))
    }

    // Entry k.
    pub fn from_index(self, k: u64) -> Result<Option<i32>, Refusal>
        ensures { tell_found result ≡ step_from_index whole self.inner.0 self.inner.1 self.step k }
    {
        let l = self.entries()?;
        Ok(l.get(k))
    }

    // The index of v by the search, and the number of entries, which is worked out once for both.
    pub fn index_among(self, v: i32, method: RoundingMethod) -> Result<Option<(u64, u64)>, Refusal>
        ensures { tell_found result ≡ step_index_among whole self.inner.0 self.inner.1 self.step v method }
    {
        if !ranged1d::whole_admitted(v) {
            return Err(Refusal::WholeNotAdmitted);
        }
        let l = self.entries()?;
        let n = u64::from(l.n);
        Ok(l.find(v, method).map(|k| (k, n)))
    }

    // The index of v by the search.
    pub fn index_of(self, v: i32, method: RoundingMethod) -> Result<Option<u64>, Refusal>
        ensures { tell_found result ≡ step_index_of whole self.inner.0 self.inner.1 self.step v method }
    {
        let found = self.index_among(v, method)?;
        Ok(found.map(|it| it.0))
    }

    // The place of v, by the ends alone; a list that is refused has none.
    pub fn map(self, v: i32, limit: Limit) -> Result<i32, Refusal>
        ensures { tell result ≡ step_place whole self.inner.0 self.inner.1 self.step v limit }
    {
        let s = self.steps()?;
        let z = self.inner.map(v, limit)?;
        counted(s)?;
        Ok(z)
    }

    // The entry that pixel x is read as.
    pub fn unmap(self, x: i32, limit: Limit) -> Result<Option<i32>, Refusal>
        ensures { tell_found result ≡ step_reading whole self.inner.0 self.inner.1 self.step x limit }
    {
        let s = self.steps()?;
        if !limit.admits(x) {
            return Err(Refusal::LimitNotAdmitted);
        }
        let l = counted(s)?;
        let Some(k) = discrete::pixel_index(x, limit, l.n)? else {
            return Ok(None);
        };
        Ok(l.get(k))
    }

    // The entries at the marks of the indices, written to the start of out: m bounds their number.
    pub fn key_points(self, m: u32, out: &mut [i32]) -> Result<usize, Refusal>
        ensures { (tell result, out.new) ≡ step_key_points whole self.inner.0 self.inner.1 self.step m out.old }
    {
        let s = self.steps()?;
        if s.lacks_mark(m) {
            return Err(Refusal::NoStep);
        }
        let l = counted(s)?;
        l.put_marks(m, out)
    }
}
