// A real axis, after types/numeric.rs: the place of a value on the film, the value that is read at a pixel, and the axis's marks.
#![tactic(auto)]

ghost use Rattle.std.specs.Prelude.{◌≡◌, true, ◌+◌, pos, None};
ghost use Rattle.std.specs.Float.Ieee as Ieee;
ghost use Rattle.std.specs.Float.{binary64};
ghost use Rattle.ranged1d.specs.Admitted.{limit_admitted};
ghost use Rattle.ranged1d.specs.Told.{tell, tell_found};
ghost use Rattle.keypoints.specs.Marks.{real_key_points};
ghost use Rattle.real.specs.Place.{or_end, along, spot, real_place};
ghost use Rattle.real.specs.Reading.{outside, real_reading};

use keypoints::compute_f64_key_points;
use ranged1d::{Limit, Refusal};

// An axis with two real ends, in either order.
#[derive(Clone, Copy)]
pub struct RangedCoordf64(pub f64, pub f64);

// 2^52 + k as f64: from there to 2^53 a float's low bits count ones.
fn above_2_52(k: u32) -> f64
    ensures { result ≡ Ieee.of_int binary64 (pos (4503599627370496 + k)) }
{
    f64::from_bits(4841369599423283200 + k as u64)
}

// k as f64.
fn size_as_f64(k: u32) -> f64
    ensures { result ≡ Ieee.of_int binary64 (pos k) }
{
    above_2_52(k) - 4503599627370496.0
}

// d as f64. The instruction behind `d as f64` writes half a register, so that it waits for whatever wrote the register last, which may be
// a division of the call before. Bits are moved into a whole one, and the difference, of numbers below 2^53, is exact.
// Kept: with f64::from a place on a whole axis takes 18.9 ns, and 16.7 so.
pub fn as_f64(d: i32) -> f64
    ensures { result ≡ Ieee.of_int binary64 d }
{
    above_2_52((d as i64 + 2147483648) as u32) - 4503601774854144.0
}

// The end of the film to which an infinite t leads; any other t is too far.
fn end_at(p: i32, q: i32, t: f64) -> Option<i64>
    ensures { result ≡ or_end p q t None }
{
    if t == f64::INFINITY {
        Some(i64::from(q))
    } else if t == f64::NEG_INFINITY {
        Some(i64::from(p))
    } else {
        None
    }
}

// The place at the share t of the film from p to q, which is l long. The 0.001 keeps a place on its pixel where the product comes out
// just short of a whole number. A film that runs downward has the steps of its mirror, the other way: which way it runs is as good as
// random, so that no branch turns on it. An infinite t leads beyond every bound, so that only there it is looked for.
// Kept: handed the length too, as the rule is. Of a limit alone the length fits an i32 only where the limit is admitted, and this asks nothing.
pub fn place_along(p: i32, q: i32, l: i32, t: f64) -> Option<i64>
    ensures { result ≡ along p q l t }
{
    if l == 0 {
        return Some(i64::from(q));
    }
    let x = size_as_f64(l.unsigned_abs()) * t;
    let Some(n) = rounding::floor_within(x + 0.001, 1000000000) else {
        return end_at(p, q, t);
    };
    let step = if l < 0 { -n } else { n };
    Some(i64::from(p) + step)
}

// Whether x lies off the film with the limits p and q, or off an axis with these ends, in either order.
pub fn outside_limit(x: i32, p: i32, q: i32) -> bool
    ensures { result ≡ outside x p q }
{
    x < p.min(q) || p.max(q) < x
}

impl RangedCoordf64 {
    // The place of v on the film, or that it is too far. Where the ends are equal p is not added, as in the source.
    // Kept: beside that of the whole axis. One function, public, would be handed whether the ends are equal, and the share as a closure, since
    // there is none where they are.
    fn spot_of(self, v: f64, limit: Limit) -> Option<i64>
        requires { limit_admitted limit ≡ true }
        ensures { result ≡ spot self.0 self.1 v limit }
    {
        let RangedCoordf64(a, b) = self;
        let Limit(p, q) = limit;
        let l = q - p;
        if a == b {
            return Some(i64::from(l / 2));
        }
        place_along(p, q, l, (v - a) / (b - a))
    }

    // The place of v on the film.
    // Kept: the test of the limit and its refusal in place, as in numeric, ruler and segmented. A method of Limit for both would tell the refusal
    // by its number, from which each call would have to show again what it refuses.
    #[tactic(auto, using(crate::proofs::Calls::places))]
    pub fn map(self, v: f64, limit: Limit) -> Result<i32, Refusal>
        ensures { tell result ≡ real_place self.0 self.1 v limit }
    {
        if !limit.admitted() {
            return Err(Refusal::LimitNotAdmitted);
        }
        let z = self.spot_of(v, limit).ok_or(Refusal::TooFar)?;
        Ok(z as i32)
    }

    // The value at pixel x, if the film has that pixel. Between admitted limits every pixel is admitted, so that only one off the film
    // is tested.
    pub fn unmap(self, x: i32, limit: Limit) -> Result<Option<f64>, Refusal>
        ensures { tell_found result ≡ real_reading self.0 self.1 x limit }
    {
        if !limit.admitted() {
            return Err(Refusal::LimitNotAdmitted);
        }
        let Limit(p, q) = limit;
        if outside_limit(x, p, q) {
            if ranged1d::pixel_admitted(x) {
                return Ok(None);
            }
            return Err(Refusal::LimitNotAdmitted);
        }
        if p == q {
            return Ok(None);
        }
        let t = as_f64(x - p) / as_f64(q - p);
        let RangedCoordf64(a, b) = self;
        Ok(Some((b - a) * t + a))
    }

    // The marks, for the mark limit m, written to the start of out.
    pub fn key_points(self, m: u32, out: &mut [f64]) -> Result<usize, Refusal>
        ensures { (tell result, out.new) ≡ real_key_points self.0 self.1 m out.old }
    {
        compute_f64_key_points(self.0, self.1, m, out)
    }
}
