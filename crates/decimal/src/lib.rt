// Whole numbers in base ten, as labels have them, and their reader.
#![tactic(auto)]

ghost use Rattle.std.specs.Prelude.{◌≡◌, ◌+◌, ◌-◌, ◌/◌, ◌^◌, ◌≤◌, ◌<◌, ◌++◌, length, drop, replicate};
ghost use Rattle.ranged1d.specs.Answer.{list_written};
ghost use Rattle.ranged1d.specs.Told.{tell, tell_option};
ghost use Rattle.decimal.specs.Print.{blank, digits, last_digits, natural, signed_digits, decimal, text_of, long_text_of, padded};
ghost use Rattle.decimal.specs.Read.{value_of, signed_value, read_i32, read_u32};

use ranged1d::Refusal;

// A number's text at the end of N bytes, with blanks on its left, and how many those are.
// Kept: bytes with a count beside. Texts are in memory of a fixed size, and a ruler's record has them with their blanks.
#[derive(Clone, Copy)]
pub struct Text<const N: usize> {
    pub bytes: [u8; N],
    pub blanks: usize,
}

impl<const N: usize> Text<N> {
    // The text without its blanks.
    pub fn as_slice(&self) -> &[u8]
        ensures { result.now ≡ drop self.now.blanks self.now.bytes }
    {
        self.bytes.get(self.blanks..).unwrap_or(&[])
    }
}

// Writes the digits of size to the end of a blank text. Returns how many blanks are left: one at least, for a sign.
// Kept: a `while`, and a place that is counted. Over a range in reverse a ruler of 50 marks, whose labels these are, takes 1,166 ns, and 813 so; over `iter_mut`
// with `enumerate` and `rev` a label takes longer still, and with the kit's itoa nearly three times as long.
fn put_digits(t: &mut [u8], size: u64) -> usize
    requires in_bounds { 2 ≤ length t.old }
    requires blank { t.old ≡ replicate (length t.old) blank }
    requires size_bound { size < 10 ^ (length t.old - 1) }
    ensures digits { t.new ≡ replicate result blank ++ digits (length t.old - 2) size }
    ensures whole { result + length (digits (length t.old - 2) size) ≡ length t.old }
    ensures some { 1 ≤ result }
{
    let mut i = t.len() - 1;
    let mut n = size;
    while 9 < n {
        t[i] = b'0' + (n % 10) as u8;
        n /= 10;
        i -= 1;
    }
    t[i] = b'0' + n as u8;
    i
}

// The digits of size in N bytes, and a minus sign in front of them where it is asked for, also in front of a zero. There is room for every digit and
// the sign.
fn spell<const N: usize>(negative: bool, size: u64) -> Text<N>
    requires in_bounds { 2 ≤ N }
    requires size_bound { size < 10 ^ (N - 1) }
    ensures { result ≡ padded N (signed_digits negative (N - 2) size) }
{
    let mut bytes = [b' '; N];
    let mut blanks = put_digits(&mut bytes, size);
    if negative {
        blanks -= 1;
        bytes[blanks] = b'-';
    }
    Text { bytes, blanks }
}

// The label of v.
pub fn label(v: i32) -> Text<11>
    ensures { result ≡ text_of (decimal v) }
{
    spell(v < 0, v.unsigned_abs() as u64)
}

// The text of a number that is not signed.
pub fn natural_label(n: u32) -> Text<11>
    ensures { result ≡ text_of (natural n) }
{
    spell(false, n as u64)
}

// The same of a size of up to 64 bits: twenty digits and the sign.
pub fn long_label(negative: bool, size: u64) -> Text<21>
    ensures { result ≡ long_text_of (signed_digits negative 19 size) }
{
    spell(negative, size)
}

// Writes the last digits of n to out, as many as it has bytes, zeros where n has fewer. Returns what is left of n without them.
// Kept: an index. Over `iter_mut` and `rev` the loop's invariant would know what was handed out, and not at which place it stands.
pub fn put_last_digits(out: &mut [u8], n: u64) -> u64
    ensures digits { out.new ≡ last_digits (length out.old) n }
    ensures rest { result ≡ n / 10 ^ length out.old }
{
    let mut rest = n;
    for i in (0..out.len()).rev() {
        out[i] = b'0' + (rest % 10) as u8;
        rest /= 10;
    }
    rest
}

// Writes a text to the start of out, if that is long enough. Returns how many bytes it has.
pub fn put_text(text: &[u8], out: &mut [u8]) -> Result<usize, Refusal>
    ensures { (tell result, out.new) ≡ list_written text.now out.old }
{
    let n = text.len();
    if out.len() < n {
        return Err(Refusal::OutTooShort);
    }
    out[..n].copy_from_slice(text);
    Ok(n)
}

// What the bytes stand for if they are digits. Eleven bytes at most, so that the number stays far below 2^63.
fn value(s: &[u8]) -> u64
    requires { length s.now ≤ 11 }
    ensures value { result ≡ value_of 0 s.now }
    ensures small { result < 2 ^ 63 }
{
    let mut n: u64 = 0;
    for c in s {
        n = n * 10 + c.saturating_sub(b'0') as u64;
    }
    n
}

// The same behind a minus sign, or without one.
fn signed_value(s: &[u8]) -> i64
    requires { length s.now ≤ 11 }
    ensures { result ≡ signed_value s.now }
{
    match s.strip_prefix(b"-") {
        Some(digits) => -(value(digits) as i64),
        None => value(s) as i64,
    }
}

// The i32 that is printed as s.
pub fn read_i32(s: &[u8]) -> Option<i32>
    ensures { tell_option result ≡ read_i32 s.now }
{
    if 11 < s.len() {
        return None;
    }
    let v = i32::try_from(signed_value(s)).ok()?;
    (s == label(v).as_slice()).then_some(v)
}

// The u32 that is printed as s.
// Kept: beside read_i32. One function for both would be handed what differs: how the value is read, its type, and how it is printed. What they share is
// the test of the length and one comparison.
pub fn read_u32(s: &[u8]) -> Option<u32>
    ensures { tell_option result ≡ read_u32 s.now }
{
    if 11 < s.len() {
        return None;
    }
    let n = u32::try_from(value(s)).ok()?;
    (s == natural_label(n).as_slice()).then_some(n)
}
