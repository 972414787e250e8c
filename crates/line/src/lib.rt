// The ruler program's lines.
#![tactic(auto)]

ghost use Rattle.std.specs.Prelude.{◌≡◌, [], ◌∷◌, ◌++◌, ◌+◌, ◌≤◌, length, drop, MatchOption};
ghost use Rattle.ranged1d.specs.Answer.{given, none};
ghost use Rattle.ranged1d.specs.Told.{tell_option};
ghost use Rattle.decimal.specs.Print.{decimal};
ghost use Rattle.line.specs.Mark.{put_mark};
ghost use Rattle.line.specs.Line.{field, whole_field, parse_numbers, parse_line};

use ranged1d::Limit;

// What a line asks for: an axis, its limits on the film, and how many marks at most.
#[derive(Clone, Copy)]
pub struct Request {
    pub a: i32,
    pub b: i32,
    pub limit: Limit,
    pub m: u32,
}

// The word before the first blank, and what follows that blank.
fn field(s: &[u8]) -> Option<(&[u8], &[u8])>
    ensures { MatchOption result (field s.now ≡ none) (λ f. field s.now ≡ given (f.0.now, f.1.now)) }
{
    let n = s.iter().position(|&c| c == b' ')?;
    Some((&s[..n], &s[n + 1..]))
}

// A number in such a field, and what follows.
fn whole_field(s: &[u8]) -> Option<(i32, &[u8])>
    ensures { MatchOption result (whole_field s.now ≡ none) (λ f. whole_field s.now ≡ given (f.0, f.1.now)) }
{
    let (word, rest) = field(s)?;
    Some((decimal::read_i32(word)?, rest))
}

// The five numbers of a line, after its first blank.
fn read_numbers(s: &[u8]) -> Option<Request>
    ensures { tell_option result ≡ parse_numbers s.now }
{
    let (a, rest) = whole_field(s)?;
    let (b, rest) = whole_field(rest)?;
    let (p, rest) = whole_field(rest)?;
    let (q, rest) = whole_field(rest)?;
    let m = decimal::read_u32(rest)?;
    let limit = Limit(p, q);
    Some(Request { a, b, limit, m })
}

// What a line asks for: the numbers of a line that begins with the word rule, or that it is a bad one.
pub fn read_line(s: &[u8]) -> Option<Request>
    ensures { tell_option result ≡ parse_line s.now }
{
    let (word, rest) = field(s)?;
    if word != b"rule".as_slice() {
        return None;
    }
    read_numbers(rest)
}

// A text and one byte behind it, at the start of out; how many bytes that is.
fn put(text: &[u8], last: u8, out: &mut [u8]) -> usize
    requires { 1 + length text.now ≤ length out.old }
    ensures { (result ≡ 1 + length text.now) × (out.new ≡ (text.now ++ (last ∷ [])) ++ drop (1 + length text.now) out.old) }
{
    let n = text.len();
    out[..n].copy_from_slice(text);
    out[n] = last;
    n + 1
}

// v in base ten, and one byte behind it.
fn put_number(v: i32, last: u8, out: &mut [u8]) -> usize
    requires { 12 ≤ length out.old }
    ensures { (result ≡ 1 + length (decimal v)) × (out.new ≡ (decimal v ++ (last ∷ [])) ++ drop (1 + length (decimal v)) out.old) }
{
    put(decimal::label(v).as_slice(), last, out)
}

// The line of a mark at the start of out, and how many bytes it has. Two numbers, a blank and a newline are 24 bytes at most; where
// there is no room for so many, nothing is written.
// Kept: 0 where there is no room, not an Option: this is promised, and the rule of 01 (specs' `put_mark`) is a pair of number and bytes.
pub fn put_mark(v: i32, x: i32, out: &mut [u8]) -> usize
    ensures { (result, out.new) ≡ put_mark v x out.old }
{
    if out.len() < 24 {
        return 0;
    }
    let n = put_number(v, b' ', out);
    let k = put_number(x, b'\n', &mut out[n..]);
    n + k
}
