// Stepped axes of real numbers. An entry is the sum before it and the step, rounded, so that the list is walked.
ghost use Rattle.std.specs.Prelude.{◌≡◌, true, false, cond, ltb, ◌≤◌, length, MatchOption, MatchResult};
ghost use Rattle.ranged1d.specs.Refusals.{number_of};
ghost use Rattle.std.specs.Float.Ieee.{lt};
ghost use Rattle.std.specs.Float.{nan};
ghost use Rattle.ranged1d.specs.Answer.{given, none, refused};
ghost use Rattle.ranged1d.specs.Admitted.{reading_admitted};
ghost use Rattle.ranged1d.specs.Told.{tell, tell_found};
ghost use Rattle.linspace.specs.List.{real, stepped, against, toward};
ghost use Rattle.linspace.specs.Calls.{has_entries, unserved, step_values, step_size, step_from_index, step_index_of, step_place, step_reading, step_key_points};
ghost use Rattle.linspace.specs.RealSteps.{plus_step, after, Kept, InReach, Walked};

use crate::Linspacef64;
use crate::lanes::{Sums, put_entries, unkept};
use crate::steps::{Steps, space_marks};
use crate::track::{Spot, approach, count_on, reach, share, walk_both};
use numeric::RangedCoordi32;
use ranged1d::{Limit, Refusal};
use search::{Place, RoundingMethod};

// How many sums a walk keeps, and how many steps they are apart: at most 32, since room for more would be cleared by a call.
#[derive(Clone, Copy)]
struct Likely {
    size: usize,
    by: usize,
    ghost few: { size ≤ 32 },
    ghost near: { InReach size by },
}

// Whether the step is so large beside the ends that rounding moves no sum by more than an eighth of it: then three quarters of the steps that a division
// counts stay before b.
fn is_coarse(s: Steps<f64>) -> bool {
    let far = s.d * 1125899906842624.0;
    if far < 0.0 {
        return far <= s.b && s.a <= -far;
    }
    -far <= s.a && s.b <= far
}

// The longer one of a step x and the step d, which lead the same way.
fn longer(x: f64, d: f64) -> f64 {
    if d < 0.0 {
        return if x < d { x } else { d };
    }
    if d < x { x } else { d }
}

// The longest step that a sum takes: the step itself, or what rounding makes of it at an end. Beside ends so large that few bits of the step are
// left, each sum is rounded alike.
fn longest(s: Steps<f64>) -> f64 {
    longer(s.a + s.d - s.a, longer(s.b - (s.b - s.d), s.d))
}

// The number of entries, by a division. Not of a list that is short or too long, nor of one by a step so small that rounding may make it much shorter.
fn roughly(s: Steps<f64>) -> Option<usize>
    ensures { MatchOption result (Unit {0}) (λ k. (32 ≤ k) × (k ≤ 65536)) }
{
    let k = rounding::to_u64((s.b - s.a) / s.d);
    if k < 32 || 65536 < k || !is_coarse(s) {
        return None;
    }
    Some(k as usize)
}

// The same, not more than a few entries off where a list is so long that this is worth another division.
fn nearly(s: Steps<f64>) -> Option<usize>
    ensures { MatchOption result (Unit {0}) (λ k. (32 ≤ k) × (k ≤ 65536)) }
{
    let k = roughly(s)?;
    if k < 256 {
        return Some(k);
    }
    let n = rounding::to_u64((s.b - s.a) / longest(s)).min(k as u64);
    if n < 32 {
        return None;
    }
    Some(n as usize)
}

// A list that has entries, along which a walk leads.
#[derive(Clone, Copy)]
struct Walk {
    s: Steps<f64>,
    ghost onward: { against real s.a s.b s.d ≡ false },
    ghost some: { has_entries (stepped real s.a s.b s.d) ≡ true },
}

impl Walk {
    // The list, if it has entries, or why there is none.
    fn start(s: Steps<f64>) -> Result<Option<Walk>, Refusal>
        ensures { MatchResult result (λ o. (against real s.a s.b s.d ≡ false) × MatchOption o (has_entries (stepped real s.a s.b s.d) ≡ false) (λ w. w.s ≡ s)) (λ r. (number_of r ≡ 6) × (against real s.a s.b s.d ≡ true)) }
    {
        if s.leads_away() {
            return Err(Refusal::StepAgainstAxis);
        }
        if !s.has_entries() {
            return Ok(None);
        }
        Ok(Some(Walk { s }))
    }

    // Where the entries are counted from: at x, the sum after k steps, if it comes before b, as all sums before it do then; at a otherwise.
    fn set_out(self, x: f64, k: usize) -> Spot
        requires k_bound { k ≤ 65537 }
        requires x_value { x ≡ after (plus_step self.s.d) k self.s.a }
        ensures { Walked (toward real (lt self.s.a self.s.b) self.s.b) (plus_step self.s.d) 65537 self.s.a result.n result.x }
    {
        if search::precedes(self.s.rises(), x, self.s.b) {
            return Spot { n: k, x };
        }
        Spot { n: 0, x: self.s.a }
    }

    // The index that a search answers for a NaN with.
    fn index_of_nan(self, method: RoundingMethod) -> Result<Option<u64>, Refusal>
        ensures { tell_found result ≡ step_index_of real self.s.a self.s.b self.s.d nan method }
    {
        let n = count_on(self.s, self.s.a, 0);
        if 65536 < n {
            return Err(Refusal::ListTooLong);
        }
        search::settle_nan(method, n)
    }

    // The index of v, the list being walked once.
    fn index_of(self, v: f64, method: RoundingMethod) -> Result<Option<u64>, Refusal>
        ensures { tell_found result ≡ step_index_of real self.s.a self.s.b self.s.d v method }
    {
        if v.is_nan() {
            return self.index_of_nan(method);
        }
        let at = approach(self.s, v);
        let n = count_on(self.s, at.right, at.n);
        if 65536 < n {
            return Err(Refusal::ListTooLong);
        }
        let place = Place {
            rises: self.s.rises(),
            n,
            i: at.n,
        };
        Ok(place.settle(method, at.left, v, at.right))
    }

    // Entry k, the list being walked once.
    fn entry(self, k: u64) -> Result<Option<f64>, Refusal>
        ensures { tell_found result ≡ step_from_index real self.s.a self.s.b self.s.d k }
    {
        let at = reach(self.s, k);
        told(count_on(self.s, at.x, at.n), k, at.x)
    }

    // The entry that pixel x is read as, the list being walked once: which index that is depends on the number of entries, so that a second sum goes
    // along with the first, by the pixel's share.
    fn reading(self, x: i32, limit: Limit) -> Result<Option<f64>, Refusal>
        requires { reading_admitted x limit ≡ true }
        ensures { tell_found result ≡ step_reading real self.s.a self.s.b self.s.d x limit }
    {
        let both = walk_both(self.s, share(x - limit.0, limit.1 - limit.0));
        told(both.n, both.k, both.x)
    }
}

// The number of entries, or why the list is refused. x is the sum after k steps.
fn counted_from(s: Steps<f64>, x: f64, k: usize) -> Result<usize, Refusal>
    requires k_bound { k ≤ 65537 }
    requires x_value { x ≡ after (plus_step s.d) k s.a }
    ensures { tell result ≡ step_size real s.a s.b s.d }
{
    let Some(w) = Walk::start(s)? else {
        return Ok(0);
    };
    let at = w.set_out(x, k);
    let n = count_on(w.s, at.x, at.n);
    if 65536 < n {
        return Err(Refusal::ListTooLong);
    }
    Ok(n)
}

// The same, from the start.
fn counted(s: Steps<f64>) -> Result<usize, Refusal>
    ensures { tell result ≡ step_size real s.a s.b s.d }
{
    counted_from(s, s.a, 0)
}

// The same, from the last of the sums that are kept on the way, which fill kept.
fn walk_along(kept: &mut [f64], s: Steps<f64>, w: Likely) -> Result<usize, Refusal>
    requires { length kept.old ≡ w.size }
    ensures count { tell result ≡ step_size real s.a s.b s.d }
    ensures kept { Kept (plus_step s.d) s.a w.by kept.new }
{
    put_entries(kept, s.a, s.d, w.by);
    let last = w.size - 1;
    counted_from(s, kept[last], last * w.by)
}

// Which sums to keep of a list of about k entries, with a mark at each `step`: those at the marks, if they are few, or four where runs of marks begin.
// The last is to be an entry: from a sum past the end nothing is counted, and the list would be walked again. So a mark within a thousandth of the end
// is left out.
fn spread(k: usize, step: usize) -> Option<Likely>
    requires k_bound { k ≤ 65536 }
    requires le_k { 32 ≤ k }
{
    if step == 0 {
        return None;
    }
    let far = (k - k / 1024 - 2) / step;
    if far < 32 {
        return Some(Likely {
            size: far + 1,
            by: step,
        });
    }
    let h = k / 4;
    Some(Likely {
        size: 4,
        by: h - h % step,
    })
}

// Which sums to keep, by the marks that a list of the rough number of entries has.
fn likely_marks(s: Steps<f64>, m: u32) -> Option<Likely> {
    let k = nearly(s)?;
    let p = RangedCoordi32(0, (k - 1) as i32).plan(m).ok()?;
    spread(k, p.step.unsigned_abs() as usize)
}

// The n entries, written to the start of out.
fn put_values(sums: Sums, n: usize, out: &mut [f64]) -> Result<usize, Refusal>
    requires { step_size real sums.s.a sums.s.b sums.s.d ≡ given n }
    ensures { (tell result, out.new) ≡ step_values real sums.entry.s.a sums.entry.s.b sums.entry.s.d out.old }
{
    if out.len() < n {
        return Err(Refusal::ListTooLong);
    }
    sums.put_all(&mut out[..n], 1);
    Ok(n)
}

// The entries at the marks of the n indices, written to the start of out.
fn put_marks(sums: Sums, n: usize, m: u32, out: &mut [f64]) -> Result<usize, Refusal>
    requires d_value { step_size real sums.s.a sums.s.b sums.s.d ≡ given n }
    requires m_value { unserved real sums.s.a sums.s.b sums.s.d m ≡ false }
    ensures { (tell result, out.new) ≡ step_key_points real sums.entry.s.a sums.entry.s.b sums.entry.s.d m out.old }
{
    let Some(p) = space_marks(n as u32, m, out.len())? else {
        return Ok(0);
    };
    sums.put_spaced(&mut out[..p.count], p.by as usize);
    Ok(p.count)
}

// The same, or why the list is refused. kept is filled on the way.
fn marks_along(
    kept: &mut [f64],
    s: Steps<f64>,
    w: Likely,
    m: u32,
    out: &mut [f64],
) -> Result<usize, Refusal>
    requires size { length kept.old ≡ w.size }
    requires m_value { unserved real s.a s.b s.d m ≡ false }
    ensures { (tell result, out.new) ≡ step_key_points real s.a s.b s.d m out.old }
{
    let n = walk_along(kept, s, w)?;
    put_marks(Sums { s, kept, h: w.by }, n, m, out)
}

// Entry k of a list with n entries, which is x, if there is one.
fn told(n: usize, k: u64, x: f64) -> Result<Option<f64>, Refusal>
    ensures { tell_found result ≡ cond (ltb 65536 n) (refused 7) (cond (ltb k n) (given x) none) }
{
    if 65536 < n {
        return Err(Refusal::ListTooLong);
    }
    Ok((k < n as u64).then_some(x))
}

impl Linspacef64 {
    fn steps(self) -> Steps<f64>
        ensures { (result.a ≡ self.inner.0) × (result.b ≡ self.inner.1) × (result.d ≡ self.step) }
    {
        Steps {
            a: self.inner.0,
            b: self.inner.1,
            d: self.step,
        }
    }

    // The list, written to the start of out.
    pub fn values(self, out: &mut [f64]) -> Result<usize, Refusal>
        ensures { (tell result, out.new) ≡ step_values real self.inner.0 self.inner.1 self.step out.old }
    {
        let s = self.steps();
        let Some(k) = nearly(s) else {
            let n = counted(s)?;
            return put_values(unkept(s), n, out);
        };
        let w = Likely { size: 4, by: k / 4 };
        let mut kept = [0.0; 4];
        let n = walk_along(&mut kept, s, w)?;
        put_values(
            Sums {
                s,
                kept: &kept,
                h: w.by,
            },
            n,
            out,
        )
    }

    // The number of entries.
    pub fn size(self) -> Result<u64, Refusal>
        ensures { tell result ≡ step_size real self.inner.0 self.inner.1 self.step }
    {
        let n = counted(self.steps())?;
        Ok(n as u64)
    }

    // Entry k.
    pub fn from_index(self, k: u64) -> Result<Option<f64>, Refusal>
        ensures { tell_found result ≡ step_from_index real self.inner.0 self.inner.1 self.step k }
    {
        let s = self.steps();
        match Walk::start(s)? {
            Some(w) => w.entry(k),
            None => Ok(None),
        }
    }

    // The index of v by the search. An empty list answers for every v as for a NaN.
    pub fn index_of(self, v: f64, method: RoundingMethod) -> Result<Option<u64>, Refusal>
        ensures { tell_found result ≡ step_index_of real self.inner.0 self.inner.1 self.step v method }
    {
        let s = self.steps();
        match Walk::start(s)? {
            Some(w) => w.index_of(v, method),
            None => search::settle_nan(method, 0),
        }
    }

    // The place of v, by the ends alone; a list that is refused has none.
    pub fn map(self, v: f64, limit: Limit) -> Result<i32, Refusal>
        ensures { tell result ≡ step_place real self.inner.0 self.inner.1 self.step v limit }
    {
        let z = self.inner.map(v, limit)?;
        counted(self.steps())?;
        Ok(z)
    }

    // The entry that pixel x is read as.
    pub fn unmap(self, x: i32, limit: Limit) -> Result<Option<f64>, Refusal>
        ensures { tell_found result ≡ step_reading real self.inner.0 self.inner.1 self.step x limit }
    {
        if !limit.admits(x) {
            return Err(Refusal::LimitNotAdmitted);
        }
        let s = self.steps();
        match Walk::start(s)? {
            Some(w) => w.reading(x, limit),
            None => Ok(None),
        }
    }

    // The entries at the marks of the indices, written to the start of out: m bounds their number.
    pub fn key_points(self, m: u32, out: &mut [f64]) -> Result<usize, Refusal>
        ensures { (tell result, out.new) ≡ step_key_points real self.inner.0 self.inner.1 self.step m out.old }
    {
        let s = self.steps();
        if s.lacks_mark(m) {
            return Err(Refusal::NoStep);
        }
        let Some(w) = likely_marks(s, m) else {
            let n = counted(s)?;
            return put_marks(unkept(s), n, m, out);
        };
        let mut kept = [0.0; 32];
        marks_along(&mut kept[0..w.size], s, w, m, out)
    }
}
