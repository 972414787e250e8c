// The whole axis as a discrete one, after `impl_discrete_trait` of types/numeric.rs and `unmap` of discrete.rs: its count, the index of
// a value, the value at an index, the place of a value, and the value that a pixel is read as.
ghost use Rattle.std.specs.Prelude.{◌≡◌, true, ◌&&◌, ◌||◌, ◌*◌, ◌/◌, ◌%◌, ◌≤◌, ◌<◌, false, MatchResult};
ghost use Rattle.std.specs.Int.Signed.{lt_z};
ghost use Rattle.ranged1d.specs.Admitted.{whole_admitted, limit_admitted};
ghost use Rattle.ranged1d.specs.Refusals.{number_of};
ghost use Rattle.ranged1d.specs.Told.{tell, tell_found};
ghost use Rattle.real.specs.Place.{whole_spot, whole_place};
ghost use Rattle.real.specs.Exact.{whole_exact};
ghost use Rattle.real.specs.Reading.{outside};
ghost use Rattle.ranged1d.specs.Numbers.{same};
ghost use Rattle.numeric.specs.Directed.{directed_count, directed_from, whole_directed};
ghost use Rattle.numeric.specs.Whole.{ends_admitted, whole_size, whole_index_of, whole_from_index, whole_reading, count_of, value_from};

use crate::RangedCoordi32;
use ranged1d::{Limit, Refusal};

// n times w by d, and what remains: w is a part of d, so that the quotient is no more than n.
fn exact_of(n: u32, w: u32, d: u32) -> (u32, u32)
    requires n_bound { n ≤ 2000000 }
    requires w_le_d { w ≤ d }
    requires d_nonzero { 0 < d }
    ensures { result ≡ (n * w / d, n * w % d) }
{
    let x = (n as u64) * (w as u64);
    let y = d as u64;
    ((x / y) as u32, (x % y) as u32)
}

// The ends of an axis, both admitted.
#[derive(Clone, Copy)]
pub(crate) struct Ends {
    pub(crate) a: i32,
    pub(crate) b: i32,
    ghost admitted: { ends_admitted a b ≡ true },
}

impl Ends {
    // How many values there are: at most 2,000,000,001.
    #[tactic(auto, unfolding(crate::specs::Whole::count_of))]
    fn len(self) -> u32
        ensures { result ≡ count_of self.a self.b }
    {
        let Ends { a, b } = self;
        if b < a {
            return 0;
        }
        b.abs_diff(a) + 1
    }

    // How many there are whichever way the axis runs: at most 2,000,000,001 too.
    fn directed_len(self) -> u32
        ensures { result ≡ directed_count self.a self.b }
    {
        self.b.abs_diff(self.a) + 1
    }

    // The value at index k. An i64 has room for the sum, an i32 has not.
    // Kept: by i32::try_from and checked_add a value took 6.6 ns, against 3.6 so.
    #[tactic(auto, unfolding(crate::specs::Whole::value_from))]
    fn value_at(self, k: u64) -> Result<Option<i32>, Refusal>
        ensures { tell_found result ≡ value_from self.a k }
    {
        if 2147483647 < k {
            return Ok(None);
        }
        let v = (self.a as i64) + (k as i64);
        if 2147483647 < v {
            return Err(Refusal::AboveI32);
        }
        Ok(Some(v as i32))
    }

    // The value at index i of an axis that descends: i below a. An i64 has room for the difference, an i32 has not.
    // Kept: beside `value_at`. One function would be handed the sign, the bound and the refusal, and these are all that either does.
    #[tactic(auto, unfolding(crate::specs::Directed::directed_from, crate::specs::Directed::directed_value))]
    fn value_below(self, i: u64) -> Result<Option<i32>, Refusal>
        requires { lt_z self.b self.a ≡ true }
        ensures { tell_found result ≡ directed_from self.a self.b i }
    {
        if 2147483647 < i {
            return Ok(None);
        }
        let v = (self.a as i64) - (i as i64);
        if v < -2147483647 {
            return Err(Refusal::BelowI32);
        }
        Ok(Some(v as i32))
    }

    // Whether v lies off the axis, or the axis has no length.
    fn is_off(self, v: i32) -> bool
        ensures { result ≡ (same self.a self.b || outside v self.a self.b) }
    {
        self.a == self.b || real::outside_limit(v, self.a, self.b)
    }

    // The place of v on the film, or that it is too far, by the rule of the real axis. Differences of whole numbers are exact as f64,
    // so they are taken before the numbers become f64.
    fn spot_of(self, v: i32, limit: Limit) -> Option<i64>
        requires v_value { whole_admitted v ≡ true }
        requires limit_value { limit_admitted limit ≡ true }
        ensures { result ≡ whole_spot self.a self.b v limit }
    {
        let Ends { a, b } = self;
        let Limit(p, q) = limit;
        let l = q - p;
        if a == b {
            return Some((l / 2) as i64);
        }
        let t = real::as_f64(v - a) / real::as_f64(b - a);
        real::place_along(p, q, l, t)
    }
}

impl RangedCoordi32 {
    // Whether both ends are admitted.
    pub fn admitted(self) -> bool
        ensures { result ≡ ends_admitted self.0 self.1 }
    {
        ranged1d::whole_admitted(self.0) && ranged1d::whole_admitted(self.1)
    }

    // The ends, if they are admitted.
    pub(crate) fn ends(self) -> Result<Ends, Refusal>
        ensures { MatchResult result (λ e. (e.a ≡ self.0) × (e.b ≡ self.1)) (λ r. (number_of r ≡ 1) × (ends_admitted self.0 self.1 ≡ false)) }
    {
        if !self.admitted() {
            return Err(Refusal::WholeNotAdmitted);
        }
        Ok(Ends {
            a: self.0,
            b: self.1,
        })
    }

    // The ends, if they are admitted and v is too.
    fn ends_beside(self, v: i32) -> Result<Ends, Refusal>
        ensures { MatchResult result (λ e. (e.a ≡ self.0) × (e.b ≡ self.1) × (whole_admitted v ≡ true)) (λ r. (number_of r ≡ 1) × ((ends_admitted self.0 self.1 && whole_admitted v) ≡ false)) }
    {
        let ends = self.ends()?;
        if !ranged1d::whole_admitted(v) {
            return Err(Refusal::WholeNotAdmitted);
        }
        Ok(ends)
    }

    // The count of the values.
    #[tactic(auto, unfolding(crate::specs::Whole::whole_size))]
    pub fn size(self) -> Result<u64, Refusal>
        ensures { tell result ≡ whole_size self.0 self.1 }
    {
        Ok(self.ends()?.len() as u64)
    }

    // Which value v is, counted from 0; it may lie past the end.
    #[tactic(auto, unfolding(crate::specs::Whole::whole_index_of))]
    pub fn index_of(self, v: i32) -> Result<Option<u64>, Refusal>
        ensures { tell_found result ≡ whole_index_of self.0 self.1 v }
    {
        let a = self.ends_beside(v)?.a;
        if v < a {
            return Ok(None);
        }
        Ok(Some((v - a) as u64))
    }

    // The value at index k, past the end too.
    #[tactic(auto, unfolding(crate::specs::Whole::whole_from_index, crate::specs::Whole::value_from))]
    pub fn from_index(self, k: u64) -> Result<Option<i32>, Refusal>
        ensures { tell_found result ≡ whole_from_index self.0 self.1 k }
    {
        self.ends()?.value_at(k)
    }

    // The place of v on the film.
    #[tactic(auto, using(crate::proofs::Places::places))]
    pub fn map(self, v: i32, limit: Limit) -> Result<i32, Refusal>
        ensures { tell result ≡ whole_place self.0 self.1 v limit }
    {
        let ends = self.ends_beside(v)?;
        if !limit.admitted() {
            return Err(Refusal::LimitNotAdmitted);
        }
        let z = ends.spot_of(v, limit).ok_or(Refusal::TooFar)?;
        Ok(z as i32)
    }

    // How many pixels v lies from p, and how many parts of one more, of which the length of the axis makes a pixel.
    #[tactic(auto, unfolding(real::specs::Exact::whole_exact))]
    pub fn map_exact(self, v: i32, limit: Limit) -> Result<(u32, u32), Refusal>
        ensures { tell result ≡ whole_exact self.0 self.1 v limit }
    {
        let ends = self.ends_beside(v)?;
        if !limit.admitted() {
            return Err(Refusal::LimitNotAdmitted);
        }
        if ends.is_off(v) {
            return Err(Refusal::NotOnAxis);
        }
        let Ends { a, b } = ends;
        let Limit(p, q) = limit;
        Ok(exact_of(q.abs_diff(p), v.abs_diff(a), b.abs_diff(a)))
    }

    // The value that pixel x is read as.
    #[tactic(auto, using(crate::proofs::Readings::by_index, crate::proofs::Readings::no_reading_off))]
    pub fn unmap(self, x: i32, limit: Limit) -> Result<Option<i32>, Refusal>
        ensures { tell_found result ≡ whole_reading self.0 self.1 x limit }
    {
        let ends = self.ends()?;
        let Some(k) = discrete::pixel_index(x, limit, ends.len())? else {
            return Ok(None);
        };
        ends.value_at(k)
    }

    // The value that pixel x is read as on the axis as it runs: as `unmap` has it where the axis does not descend; where it does, among
    // the values from a down to b, at most 2,000,000,001.
    // Kept: its end is `unmap` but for the count and the value; a function for both would be handed the two as closures.
    #[tactic(auto, using(crate::proofs::Directed::by_index, crate::proofs::Directed::no_directed_off))]
    pub fn unmap_directed(self, x: i32, limit: Limit) -> Result<Option<i32>, Refusal>
        ensures { tell_found result ≡ whole_directed self.0 self.1 x limit }
    {
        if self.0 <= self.1 {
            return self.unmap(x, limit);
        }
        let ends = self.ends()?;
        let Some(k) = discrete::pixel_index(x, limit, ends.directed_len())? else {
            return Ok(None);
        };
        ends.value_below(k)
    }
}
