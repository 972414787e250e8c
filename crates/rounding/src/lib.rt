// Floor, ceil and round of floats, as Rust's methods of these names give them, and as whole numbers
// within a bound.
#![tactic(auto)]

ghost use Rattle.std.specs.Prelude.{◌≡◌, true, false, pos};
ghost use Rattle.std.specs.Float.Ieee as Ieee;
ghost use Rattle.std.specs.Float.{binary64, fin};
ghost use Rattle.rounding.specs.Integral.{ceil_of, floor_of, floors, round_of, round_of32};
ghost use Rattle.rounding.specs.Within.{ceil_within, floor_within, kept, round_within, whole_of};

// The greatest whole number that is at most x. From 2^52 on no number has a fraction. A whole x comes
// back itself, so that -0.0 keeps its sign; so do a NaN and the infinities.
// Kept: the library's f64::floor promises the same and is slower, on numbers of both signs 14.9 ns against 12.0 one after the other and 9.8
// against 7.6 side by side; its f64::ceil 15.0 against 12.6 and 10.0 against 4.1.
pub fn floor(x: f64) -> f64
    ensures { result ≡ floor_of x }
{
    if -4503599627370496.0 < x && x < 4503599627370496.0 {
        let t = floor_small(x);
        if t < x {
            return t;
        }
    }
    x
}

// The least whole number that is at least x.
#[tactic(auto, using(crate::proofs::Signs::ceilings))]
pub fn ceil(x: f64) -> f64
    ensures { result ≡ ceil_of x }
{
    -floor(-x)
}

// The whole number nearest to x, a half going away from zero.
// Kept: the library's f64::round promises the same, and the marks of a real axis, which count by it, take 209 ns with it and 194 so.
pub fn round(x: f64) -> f64
    ensures { result ≡ round_of x }
{
    let size = if x < 0.0 { -x } else { x };
    let r = nearest(size);
    if x < 0.0 {
        return -r;
    }
    r
}

// round of an f32. An f32 with a fraction is below 2^23, so its answer is an f32 too.
// Kept: the library's f32::round promises the same (`rounds` of proofs/Rounded), but rounding is worked out by the program, as the floor is.
pub fn round_f32(x: f32) -> f32
    ensures { result ≡ round_of32 x }
{
    if x != x {
        return x;
    }
    round(x as f64) as f32
}

// floor as a whole number, or that it lies beyond the bound. A bound is below 2^32, so what is 2^52 or more in size is beyond it. A
// NaN counts as 0.
pub fn floor_within(x: f64, bound: u32) -> Option<i64>
    ensures { result ≡ floor_within bound x }
{
    if -4503599627370496.0 < x && x < 4503599627370496.0 {
        return keep(floor_small(x) as i64, bound);
    }
    if x.is_nan() {
        return Some(0);
    }
    None
}

// ceil as a whole number.
#[tactic(auto, using(crate::proofs::Ceilings::minus_fits, crate::proofs::Ceilings::turned_none, crate::proofs::Ceilings::turned_some))]
pub fn ceil_within(x: f64, bound: u32) -> Option<i64>
    ensures { result ≡ ceil_within bound x }
{
    let n = floor_within(-x, bound)?;
    Some(-n)
}

// round of an f32 as a whole number: the floor of the rounded number, which has no fraction.
pub fn round_within(x: f32, bound: u32) -> Option<i64>
    ensures { result ≡ round_within bound x }
{
    floor_within(round(std::num::f32_to_f64_with_nan(x)), bound)
}

// x cut toward zero, as Rust's `x as u64`: 0 for a NaN, and the nearest end of the range outside it.
pub fn to_u64(x: f64) -> u64
    ensures { result ≡ Ieee.to_unsigned 64 x }
{
    std::num::saturating_f64_to_u64(x)
}

// The floor of an x below 2^52 in size; 0.0 for either zero, so the result casts to an integer.
// With 2^52 of x's sign added, x has no place left for a fraction and is rounded to a whole number.
// Taken away again, that leaves a whole number less than 1 from x, and the comparison tells on which side.
// c is chosen, and 1 taken off, without a branch: which way either goes is as good as random.
fn floor_small(x: f64) -> f64
    requires fact_1 { Ieee.lt (fin true 1 (pos 52)) x ≡ true }
    requires fact_2 { Ieee.lt x (fin false 1 (pos 52)) ≡ true }
    ensures { result ≡ Ieee.of_int binary64 (whole_of floors x) }
{
    let c = if x < 0.0 {
        -4503599627370496.0
    } else {
        4503599627370496.0
    };
    let t = (x + c) - c;
    if x < t {
        return t - 1.0;
    }
    t
}

// round of an x that is not below zero. t is below 2^52 there, so t + 0.5 and t + 1.0 are exact.
fn nearest(x: f64) -> f64
    requires { Ieee.lt x (fin false 0 (pos 0)) ≡ false }
    ensures { result ≡ round_of x }
{
    if x < 4503599627370496.0 {
        let t = floor_small(x);
        if x > t {
            let step = if x < t + 0.5 { 0.0 } else { 1.0 };
            return t + step;
        }
    }
    x
}

// n if it is within the bound.
fn keep(n: i64, bound: u32) -> Option<i64>
    ensures { result ≡ kept bound n }
{
    let b = bound as i64;
    (-b..=b).contains(&n).then_some(n)
}
