// Lines of text, and the numbers in them: base ten, a minus sign in front of a negative one, which becomes its two's complement.
ghost use Rattle.std.specs.Prelude.{◌≤◌, length};
ghost use Rattle.memchr.specs.Find.{IsFirstByte, is_byte};

use memchr::memchr;

// v with one digit more; v itself where that is too large for a u64.
fn push(v: u64, digit: u32) -> u64 {
    v.checked_mul(10)
        .and_then(|tens| tens.checked_add(u64::from(digit)))
        .unwrap_or(v)
}

// The number that s begins with, 0 where it begins with no digit; and what follows it.
fn digits(s: &[u8]) -> (u64, &[u8]) {
    let mut value = 0;
    for (k, byte) in s.iter().enumerate() {
        let Some(digit) = char::from(*byte).to_digit(10) else {
            return (value, &s[k..]);
        };
        value = push(value, digit);
    }
    (value, &[])
}

fn number(s: &[u8]) -> (u64, &[u8]) {
    match s.strip_prefix(b"-") {
        Some(size) => {
            let (value, rest) = digits(size);
            (value.wrapping_neg(), rest)
        }
        None => digits(s),
    }
}

// The numbers of a text, one byte between two of them, as many as fit; returns how many.
pub(crate) fn numbers(text: &[u8], out: &mut [u64]) -> usize
    ensures { result ≤ length out.new }
{
    let mut rest = text;
    for (n, place) in out.iter_mut().enumerate() {
        if rest.is_empty() {
            return n;
        }
        let (value, after) = number(rest);
        *place = value;
        rest = after.get(1..).unwrap_or(&[]);
    }
    out.len()
}

// Where this byte stands first.
fn find(text: &[u8], byte: u8) -> Option<usize>
    ensures { IsFirstByte (is_byte byte) text.now result }
{
    memchr(byte, text)
}

// What stands before the first blank, and what stands behind it.
pub(crate) fn split_word(line: &[u8]) -> (&[u8], &[u8]) {
    match find(line, b' ') {
        Some(end) => (&line[..end], &line[end + 1..]),
        None => (line, &[]),
    }
}
