// Labels of real numbers, after data/float.rs, plain and in scientific notation, into lent bytes.
#![tactic(auto)]

ghost use Rattle.std.specs.Prelude.{◌≡◌, true, false, ◌∷◌, ◌++◌, ◌-◌, ◌^◌, ◌≤◌, ◌<◌, length, take, ◌+◌, MatchResult};
ghost use Rattle.std.specs.Float.Ieee as Ieee;
ghost use Rattle.ranged1d.specs.Answer.{given, refused, list_written};
ghost use Rattle.ranged1d.specs.Refusals.{number_of};
ghost use Rattle.ranged1d.specs.Told.{tell};
ghost use Rattle.rounding.specs.Within.{AtMost};
ghost use Rattle.float.specs.Shorten.{shorten, tolerance, plain};
ghost use Rattle.float.specs.Scientific.{zero_float, letter, table_index, scale_of, scientific_of};
ghost use Rattle.float.specs.Calls.{printable, too_small, label_print, label_scientific};
ghost use Rattle.float.specs.Steps.{Taken, back, parts, trimmed, parts_of, unsigned_parts, tail_of, tail_length, bytes_of, decimals_for};

use decades::Power;
use ranged1d::Refusal;
use std::marker::Model;

// How a label is written: with at least min_decimal decimals, of which at most max_decimal say anything of the number.
#[derive(Clone, Copy)]
pub struct FloatPrettyPrinter {
    pub min_decimal: u32,
    pub max_decimal: u32,
}

// How many decimals may say anything of a number: ten at most.
#[derive(Clone, Copy)]
struct Precision {
    number: usize,
    ghost few: { number ≤ 10 },
}

// A shortened number, and how many decimals it has at most.
#[derive(Clone, Copy)]
struct Shortened {
    value: f64,
    levels: usize,
}

// What is written: a minus sign or none, the whole part, and `places` decimals, which are the digits of `decimals`.
#[derive(Clone, Copy)]
struct Parts {
    minus: bool,
    whole: u64,
    places: usize,
    decimals: u64,
}

impl Model for Parts {
    ghost Value = { Taken };

    ghost view = { λ t. parts t.minus t.whole t.places t.decimals };

    ghost invariant = { λ t. (t.places ≤ 10) × (t.decimals < 10 ^ t.places) };

    ghost inverse = { λ t. record { minus = t.minus; whole = t.whole; places = t.places; decimals = t.decimals } };
}

// The way down, from level to level: the number at which it ends, and how many levels were passed, at most as many as there is room for. The floor of
// each of these is kept in `floors`, for the way back.
fn descend(n: f64, eps: f64, floors: &mut [f64]) -> Shortened
    ensures found { back (take result.levels floors.new) (plain result.value) ≡ shorten (length floors.old) n eps }
    ensures few { result.levels ≤ length floors.old }
{
    let mut x = n;
    let mut t = eps;
    for (levels, floor) in floors.iter_mut().enumerate() {
        if t >= 1.0 {
            return Shortened { value: x, levels };
        }
        let down = rounding::floor(x);
        if x - down < t {
            return Shortened {
                value: down,
                levels,
            };
        }
        let up = rounding::ceil(x);
        if up - x < t {
            return Shortened { value: up, levels };
        }
        // Here the digits come one after another, for a screen to show: `down` is first the floor of n, then decimal k of what lies above it. The last
        // of them is the value that is returned.
        *floor = down;
        x = (x - down) * 10.0;
        t = t * 10.0;
    }
    Shortened {
        value: x,
        levels: floors.len(),
    }
}

// n by as few decimals as bring it nearer than the tolerance of h decimals, and no more than h: down to the level that is near enough, and back
// through the floors. There is room for the floors of ten levels, which are all that a label has.
fn find_minimal_repr(n: f64, h: Precision) -> Shortened
    ensures { result ≡ shorten h.number n (tolerance h.number) }
{
    let mut floors = [0.0; 10];
    let r = descend(
        n,
        1.0 / 10u64.pow(h.number as u32) as f64,
        &mut floors[..h.number],
    );
    let levels = r.levels;
    let value = floors[..levels]
        .iter()
        .rfold(r.value, |value, floor| floor + value / 10.0);
    Shortened { value, levels }
}

// Without the zeros at the end of the decimals.
fn trim(minus: bool, whole: u64, p: Precision, d: u64) -> Parts
    requires { d < 10 ^ p.number }
    ensures { result ≡ trimmed minus whole p.number d }
{
    let mut decimals = d;
    for places in (1..=p.number).rev() {
        if decimals % 10 != 0 {
            return Parts {
                minus,
                whole,
                places,
                decimals,
            };
        }
        decimals /= 10;
    }
    Parts::whole(minus, whole)
}

// A shortened number taken apart. Both casts are exact: neither number is near the end of a u64.
// Kept: asked of Shortened, not held by it. It is a word of the rule, by which a number of any size is shortened.
fn take_apart(r: Shortened) -> Parts
    requires few { r.levels ≤ 10 }
    requires near { AtMost (2 ^ 53 + 2) r.value }
    ensures { result ≡ parts_of r.value r.levels }
{
    let minus = r.value.is_sign_negative();
    let size = r.value.abs();
    let whole = rounding::to_u64(size);
    if r.levels == 0 {
        return Parts::whole(minus, whole);
    }
    let unit = 10u64.pow(r.levels as u32);
    let d = rounding::to_u64(rounding::round((size - rounding::floor(size)) * unit as f64));
    if unit <= d {
        return Parts::whole(minus, whole + 1);
    }
    trim(minus, whole, Precision { number: r.levels }, d)
}

impl Parts {
    // A whole number, without decimals.
    fn whole(minus: bool, whole: u64) -> Parts
        ensures { result ≡ parts minus whole 0 0 }
    {
        Parts {
            minus,
            whole,
            places: 0,
            decimals: 0,
        }
    }

    // Without the sign where all digits are zeros: the whole part is 0, and decimals there are none, since the last of them is no zero.
    fn unsigned(self) -> Parts
        ensures { result ≡ unsigned_parts self }
    {
        if self.whole == 0 && self.places == 0 {
            return Parts::whole(false, 0);
        }
        self
    }

    // How many bytes these parts have with at least e decimals.
    fn length(self, e: u32) -> usize
        ensures bytes { result ≡ length (bytes_of self e) }
        ensures few { result < 2 ^ 33 }
    {
        let front = decimal::long_label(self.minus, self.whole);
        front.as_slice().len() + tail_length(self.places, e as usize)
    }
}

// Writes the point and the decimals, and zeros behind them to the end; or nothing where there is nothing to write.
fn put_tail(t: Parts, tail: &mut [u8])
    requires { tail_length t.places (length tail.old - 1) ≡ length tail.old }
    ensures { tail.new ≡ tail_of t.places t.decimals (length tail.old - 1) }
{
    if tail.is_empty() {
        return;
    }
    let end = 1 + t.places;
    tail[0] = b'.';
    decimal::put_last_digits(&mut tail[1..end], t.decimals);
    tail[end..].fill(b'0');
}

// How many bytes `put_tail` writes for k decimals and zeros to e of them.
fn tail_length(k: usize, e: usize) -> usize
    requires { (k < 2 ^ 32) × (e < 2 ^ 32) }
    ensures { result ≡ tail_length k e }
{
    if k == 0 && e == 0 { 0 } else { 1 + k.max(e) }
}

// Writes the parts with at least e decimals, if out is long enough.
fn float_to_string(t: Parts, e: u32, out: &mut [u8]) -> Result<usize, Refusal>
    ensures { (tell result, out.new) ≡ list_written (bytes_of t e) out.old }
{
    let text = decimal::long_label(t.minus, t.whole);
    let front = text.as_slice();
    let at = front.len();
    let need = at + tail_length(t.places, e as usize);
    if out.len() < need {
        return Err(Refusal::OutTooShort);
    }
    out[..at].copy_from_slice(front);
    put_tail(t, &mut out[at..need]);
    Ok(need)
}

// Writes the parts without a minus before zero.
fn put_plain(t: Parts, e: u32, out: &mut [u8]) -> Result<usize, Refusal>
    ensures { (tell result, out.new) ≡ list_written (bytes_of (unsigned_parts t) e) out.old }
{
    float_to_string(t.unsigned(), e, out)
}

// The power of ten in front of which the mantissa of a number of the size x stands.
fn scale(x: f64) -> Power
    ensures index { result.index ≡ table_index x }
    ensures value { result.value ≡ scale_of x }
    ensures few { result.index ≤ 616 }
{
    let d = decades::decade(x);
    if x / d.value + 0.00001 >= 10.0 {
        return Power {
            index: d.index + 1,
            value: d.value * 10.0,
        };
    }
    d
}

// Writes the parts of a mantissa, the letter e and an exponent's text, if out is long enough.
fn put_scientific(t: Parts, e: u32, exponent: &[u8], out: &mut [u8]) -> Result<usize, Refusal>
    requires { length exponent.now ≤ 11 }
    ensures { (tell result, out.new) ≡ list_written (bytes_of t e ++ (letter ∷ exponent.now)) out.old }
{
    let at = t.length(e);
    let all = at + 1 + exponent.len();
    if out.len() < all {
        return Err(Refusal::OutTooShort);
    }
    float_to_string(t, e, out)?;
    out[at] = b'e';
    out[at + 1..all].copy_from_slice(exponent);
    Ok(all)
}

// Writes the plain or the scientific text of a number that is neither zero nor too small.
fn put_either(n: f64, h: Precision, e: u32, out: &mut [u8]) -> Result<usize, Refusal>
    requires has_label { printable n ≡ true }
    requires nonzero { Ieee.eq n zero_float ≡ false }
    requires large { too_small n ≡ false }
    ensures { (tell result, out.new) ≡ list_written (scientific_of n h.number e) out.old }
{
    let r = find_minimal_repr(n, h);
    let t = take_apart(r);
    let p = scale(n.abs());
    let exponent = p.index as i32 - 307;
    if exponent.unsigned_abs() < 3 {
        return put_plain(t, e, out);
    }
    let u = take_apart(find_minimal_repr(n / p.value, Precision { number: 5 }));
    let text = decimal::label(exponent);
    let x = text.as_slice();
    if u.length(e) + 1 + x.len() + 1 < t.length(e) || r.value == 0.0 {
        return put_scientific(u, e, x, out);
    }
    put_plain(t, e, out)
}

// Whether n has a label: a NaN compares with nothing.
fn has_label(n: f64) -> bool
    ensures { result ≡ printable n }
{
    n.abs() < 9007199254740992.0
}

impl FloatPrettyPrinter {
    // How many decimals may say anything of n, if it has a label with so many decimals.
    fn decimals_for(self, n: f64) -> Result<Precision, Refusal>
        ensures { MatchResult result (λ h. given h.number ≡ decimals_for n self.max_decimal self.min_decimal) (λ r. refused (number_of r) ≡ decimals_for n self.max_decimal self.min_decimal) }
    {
        if !has_label(n) {
            return Err(Refusal::NotPrintable);
        }
        if 10 < self.max_decimal || 20 < self.min_decimal {
            return Err(Refusal::TooManyDecimals);
        }
        Ok(Precision {
            number: self.max_decimal as usize,
        })
    }

    // The label of n, written to the start of out: 38 bytes are always enough.
    pub fn print(self, n: f64, out: &mut [u8]) -> Result<usize, Refusal>
        ensures { (tell result, out.new) ≡ label_print n self.max_decimal self.min_decimal out.old }
    {
        let r = find_minimal_repr(n, self.decimals_for(n)?);
        put_plain(take_apart(r), self.min_decimal, out)
    }

    // The scientific label of n, written to the start of out: 29 bytes are always enough.
    pub fn print_scientific(self, n: f64, out: &mut [u8]) -> Result<usize, Refusal>
        ensures { (tell result, out.new) ≡ label_scientific n self.max_decimal self.min_decimal out.old }
    {
        let most = self.decimals_for(n)?;
        if n == 0.0 {
            return decimal::put_text(b"0", out);
        }
        if n.abs() < 1e-307 {
            return Err(Refusal::TooSmall);
        }
        put_either(n, most, self.min_decimal, out)
    }
}
