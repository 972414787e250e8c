// Whole numbers whose last f digits are taken as decimals, f from 0 to 6: their text, and its reader.
#![tactic(auto)]

ghost use Rattle.std.specs.Prelude.{◌≡◌, ◌+◌, ◌/◌, ◌^◌, ◌≤◌, ◌<◌, ◌++◌, MatchResult, nat_abs, length, take};
ghost use Rattle.ranged1d.specs.Refusals.{number_of};
ghost use Rattle.ranged1d.specs.Told.{tell, tell_option};
ghost use Rattle.decimal.specs.Print.{padded};
ghost use Rattle.decimal.specs.Read.{value_of};
ghost use Rattle.fixed.specs.Fixed.{fraction, fixed_text, unpointed, number_in, fixed_print, fixed_read};
ghost use Rattle.fixed.specs.Steps.{printed};

use decimal::Text;
use ranged1d::Refusal;

// How many decimals a text has: six at most.
// Kept: beside float's Precision, of ten. One over the bound would be public in decimal, for a field and what it holds.
#[derive(Clone, Copy)]
struct Decimals {
    number: usize,
    ghost few: { number ≤ 6 },
}

impl Decimals {
    // So many, if a text can have them.
    fn new(f: u32) -> Result<Decimals, Refusal>
        ensures { MatchResult result (λ d. d.number ≡ f) (λ r. (number_of r ≡ 24) × (6 < f)) }
    {
        if 6 < f {
            return Err(Refusal::TooManyDigits);
        }
        Ok(Decimals { number: f as usize })
    }
}

// Puts a point and the last f digits of n at the end of the bytes, no point where f is 0. Returns what is left of n, and where the point stands or
// the bytes end.
fn split(n: u64, f: Decimals, bytes: &mut [u8; 12]) -> (u64, usize)
    ensures written { bytes.new ≡ take result.1 bytes.old ++ fraction f.number n }
    ensures end { result.1 + length (fraction f.number n) ≡ 12 }
    ensures rest { result.0 ≡ n / 10 ^ f.number }
{
    let f = f.number;
    if f == 0 {
        return (n, 12);
    }
    let end = 11 - f;
    bytes[end] = b'.';
    let rest = decimal::put_last_digits(&mut bytes[end + 1..], n);
    (rest, end)
}

// The text of x with f decimals. Twelve bytes are enough: a sign, a point, and ten digits, or the seven of a number below one.
fn spell(x: i32, f: Decimals) -> Text<12>
    requires { nat_abs x ≤ 1000000000 }
    ensures { result ≡ padded 12 (fixed_text f.number x) }
{
    let negative = x < 0;
    let mut bytes = [b' '; 12];
    let (rest, end) = split(x.unsigned_abs() as u64, f, &mut bytes);
    let mut blanks = itoa::write_digits(rest, &mut bytes, end);
    if negative {
        blanks -= 1;
        bytes[blanks] = b'-';
    }
    Text { bytes, blanks }
}

// The text of x with f decimals, written to the start of out.
pub fn print(x: i32, f: u32, out: &mut [u8]) -> Result<usize, Refusal>
    ensures { (tell result, out.new) ≡ fixed_print x f out.old }
{
    if !ranged1d::whole_admitted(x) {
        return Err(Refusal::WholeNotAdmitted);
    }
    let f = Decimals::new(f)?;
    decimal::put_text(spell(x, f).as_slice(), out)
}

// What the bytes stand for if they are digits and points; a point says nothing.
// Kept: beside decimal's pair, whose loop knows no point. One pair for both would be public there, ask for twelve bytes at most, and be handed which byte
// to skip: more than the two short functions here.
fn value(s: &[u8]) -> u64
    requires { length s.now ≤ 12 }
    ensures value { result ≡ value_of 0 (unpointed s.now) }
    ensures small { result < 2 ^ 63 }
{
    let mut n: u64 = 0;
    for &c in s {
        if c != b'.' {
            n = n * 10 + c.saturating_sub(b'0') as u64;
        }
    }
    n
}

// The same behind a minus sign, or without one.
fn number_in(s: &[u8]) -> i64
    requires { length s.now ≤ 12 }
    ensures { result ≡ number_in s.now }
{
    match s.strip_prefix(b"-") {
        Some(size) => -(value(size) as i64),
        None => value(s) as i64,
    }
}

// The admitted number that is printed as s.
fn printed(s: &[u8], f: Decimals) -> Option<i32>
    ensures { tell_option result ≡ printed f.number s.now }
{
    if 12 < s.len() {
        return None;
    }
    let x = i32::try_from(number_in(s)).ok()?;
    (ranged1d::whole_admitted(x) && s == spell(x, f).as_slice()).then_some(x)
}

// The number that is printed as this text with so many decimals.
pub fn read(text: &[u8], decimals: u32) -> Result<i32, Refusal>
    ensures { tell result ≡ fixed_read text.now decimals }
{
    let f = Decimals::new(decimals)?;
    printed(text, f).ok_or(Refusal::NotADecimal)
}
