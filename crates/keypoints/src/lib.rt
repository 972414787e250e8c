// The key points of a real axis, after the float form of `gen_key_points_comp` in types/numeric.rs, with the decade of the length from a
// table.
#![tactic(auto)]

ghost use Rattle.std.specs.Prelude.{◌≡◌, ◌++◌, ltb, ◌≤◌, length, drop};
ghost use Rattle.rounding.specs.Operations.{◌⊘◌};
ghost use Rattle.ranged1d.specs.Told.{tell, tell_option};
ghost use Rattle.keypoints.specs.Scale.{is_small, unless_next, rest_of, first_mark, last_mark, points_by, ten, start_of, chosen, most_rounds};
ghost use Rattle.keypoints.specs.Marks.{passes, shifted, marks_from, marks_by, marks_for, most_marks, unmarked_for, end_admitted, axis_admitted, put_unless, smaller, larger, real_key_points};

use ranged1d::Refusal;

// How far from zero an end may be, and how near to each other two ends.
const FARTHEST: f64 = 1e6;

const NEAREST: f64 = 1e-3;

// The largest mark limit, the most rounds that a scale is looked for, and the most marks, with one more so that too many are known.
const MOST_ASKED: u32 = 1000;

const MOST_ROUNDS: usize = 20;

const MOST_MARKS: usize = 2000;

const ONE_MORE: usize = MOST_MARKS + 1;

// The ends of an axis, the smaller one first.
#[derive(Clone, Copy)]
struct Span {
    lo: f64,
    hi: f64,
}

// The step between marks, and the granularity that they are held to.
#[derive(Clone, Copy)]
struct Scale {
    step: f64,
    grain: f64,
}

// What the loop over the marks goes by: a mark is the base and a distance from there, which grows by the step until it passes the right
// end.
// Kept: the four numbers of the rule (specs/Marks), two of them a scale's. Within a Scale each would be named by two words.
#[derive(Clone, Copy)]
struct Run {
    step: f64,
    grain: f64,
    base: f64,
    right: f64,
}

// Whether x is less than c in size.
// Kept: two comparisons, here and in `end_admitted`, as the rule has them. By `abs` they were proved, in 78 lines more.
#[tactic(auto, unfolding(crate::specs::Scale::is_small))]
fn is_small(c: f64, x: f64) -> bool
    ensures { result ≡ is_small c x }
{
    -c < x && x < c
}

// What x is past a multiple of s, or 0 where that is s but for rounding.
#[tactic(auto, unfolding(crate::specs::Scale::rest_of))]
fn rem_euclid(x: f64, s: f64) -> f64
    ensures { result ≡ rest_of x s }
{
    if 0.0 < s {
        return unless_next(s, x - rounding::floor(x / s) * s);
    }
    unless_next(s, x - rounding::ceil(x / s) * s)
}

fn unless_next(s: f64, r: f64) -> f64
    ensures { result ≡ unless_next s r }
{
    if is_small(f64::EPSILON, r - s) {
        return 0.0;
    }
    r
}

// The first multiple of s from lo on.
#[tactic(auto, unfolding(crate::specs::Scale::first_mark))]
fn first_mark(lo: f64, s: f64) -> f64
    ensures { result ≡ first_mark lo s }
{
    let v = lo - rem_euclid(lo, s);
    if v < lo {
        return v + s;
    }
    v
}

// The last multiple of s up to hi.
#[tactic(auto, unfolding(crate::specs::Scale::last_mark))]
fn last_mark(hi: f64, s: f64) -> f64
    ensures { result ≡ last_mark hi s }
{
    hi - rem_euclid(hi, s)
}

impl Scale {
    // Another step, with the same granularity.
    fn with_step(self, step: f64) -> Scale
        ensures { result ≡ record { step = step; grain = self.grain } }
    {
        Scale {
            step,
            grain: self.grain,
        }
    }

    // A tenth of both.
    fn tenth(self) -> Scale
        ensures { result ≡ record { step = self.step ⊘ ten; grain = self.grain ⊘ ten } }
    {
        Scale {
            step: self.step / 10.0,
            grain: self.grain / 10.0,
        }
    }
}

impl Run {
    // Whether the mark at the distance x has not passed the right end.
    #[tactic(auto, unfolding(crate::specs::Marks::passes))]
    fn goes_on(self, x: f64) -> bool
        ensures { result ≡ passes self x }
    {
        -f64::EPSILON <= self.right - x - self.base
    }

    // The distance x, moved up where it is below 0 once it is rounded to the granularity.
    #[tactic(auto, unfolding(crate::specs::Marks::shifted))]
    fn shift_rounded(self, x: f64) -> f64
        ensures { result ≡ shifted self x }
    {
        let g = self.grain;
        if rounding::round(x / g) * g < 0.0 {
            return x + g;
        }
        x
    }

    // The same. A distance that is not below 0 is not below it rounded either, so that marks are spared the division, all but one at most.
    #[tactic(auto, using(crate::proofs::Signs::stays))]
    fn shift(self, x: f64) -> f64
        ensures { result ≡ shifted self x }
    {
        if 0.0 < self.grain {
            if x < 0.0 {
                return self.shift_rounded(x);
            }
            return x;
        }
        self.shift_rounded(x)
    }

    // The number of marks from the distance x on, up to one more than the most. They are counted before any is written, since a refusal
    // writes nothing.
    #[tactic(auto, using(crate::proofs::Lists::counts))]
    fn count(self, x: f64) -> usize
        ensures length_value { result ≡ length (marks_from self 2001 x) }
        ensures bound { result ≤ 2001 }
    {
        let mut y = x;
        for k in 0..ONE_MORE {
            if !self.goes_on(y) {
                return k;
            }
            y = self.shift(y) + self.step;
        }
        ONE_MORE
    }

    // The n marks from the distance x on, written to the start of out.
    #[tactic(auto, using(crate::proofs::Lists::few, crate::proofs::Lists::all_written))]
    fn put(self, x: f64, n: usize, out: &mut [f64])
        requires n_in_bounds { n ≤ length out.old }
        requires n_value { n ≡ length (marks_from self 2001 x) }
        ensures { out.new ≡ marks_from self 2001 x ++ drop n out.old }
    {
        let mut y = x;
        for mark in out[..n].iter_mut() {
            let z = self.shift(y);
            *mark = z + self.base;
            y = z + self.step;
        }
    }
}

impl Span {
    // The ends a and b in order; of equal ones the first counts as the smaller.
    fn between(a: f64, b: f64) -> Span
        ensures { result ≡ record { lo = smaller a b; hi = larger a b } }
    {
        if b < a {
            return Span { lo: b, hi: a };
        }
        Span { lo: a, hi: b }
    }

    // How many marks there would be, by the step old / nxt.
    #[tactic(auto, unfolding(crate::specs::Scale::points_by))]
    fn points(self, old: f64, nxt: f64) -> u64
        ensures { result ≡ points_by self.lo self.hi old nxt }
    {
        let s = old / nxt;
        let left = first_mark(self.lo, s);
        let right = last_mark(self.hi, s);
        rounding::to_u64(rounding::round(1.0 + (right - left) / old * nxt))
    }

    // The scale that the first round begins with. One more than n is above m where m is at most n.
    #[tactic(auto, using(crate::proofs::Rules::starts))]
    fn start(self, m: u64) -> Scale
        ensures { result ≡ start_of self.lo self.hi m }
    {
        let d = self.hi - self.lo;
        let p = decades::decade(d).value;
        let g = p / 10.0;
        if m <= rounding::to_u64(rounding::floor(d / p)) {
            return Scale {
                step: p * 10.0,
                grain: g * 10.0,
            };
        }
        Scale { step: p, grain: g }
    }

    // The scale that is chosen, if the rounds begin with this one and come to one.
    // Kept: three tests in a row. A `find` over the three parts and their steps divides before it is asked: 131 ns for the marks, and 119 so.
    #[tactic(auto, using(crate::proofs::Rules::rounds))]
    fn choose(self, m: u64, first: Scale) -> Option<Scale>
        ensures { tell_option result ≡ chosen self.lo self.hi m most_rounds first.step first.grain }
    {
        let mut s = first;
        for _ in 0..MOST_ROUNDS {
            if m < self.points(s.step, 2.0) {
                return Some(s);
            }
            if m < self.points(s.step, 5.0) {
                return Some(s.with_step(s.step / 2.0));
            }
            if m < self.points(s.step, 10.0) {
                return Some(s.with_step(s.step / 5.0));
            }
            s = s.tenth();
        }
        None
    }

    // The marks by a scale.
    #[tactic(auto, using(crate::proofs::Lists::by_length), unfolding(crate::specs::Marks::marks_by))]
    fn put_scaled(self, s: Scale, out: &mut [f64]) -> Result<usize, Refusal>
        ensures { (tell result, out.new) ≡ put_unless (ltb most_marks (length (marks_by self.lo self.hi s))) (marks_by self.lo self.hi s) out.old }
    {
        let left = first_mark(self.lo, s.step);
        let base = rounding::floor(left / s.grain) * s.grain;
        let run = Run {
            step: s.step,
            grain: s.grain,
            base,
            right: last_mark(self.hi, s.step),
        };
        let x = left - base;
        let n = run.count(x);
        if MOST_MARKS < n {
            return Err(Refusal::RealAxisNotMarked);
        }
        if out.len() < n {
            return Err(Refusal::OutTooShort);
        }
        run.put(x, n, out);
        Ok(n)
    }

    // The marks from lo to hi.
    #[tactic(auto, using(crate::proofs::Calls::of_span))]
    fn put(self, m: u32, out: &mut [f64]) -> Result<usize, Refusal>
        ensures { (tell result, out.new) ≡ put_unless (unmarked_for self.lo self.hi m) (marks_for self.lo self.hi m) out.old }
    {
        let d = self.lo - self.hi;
        if is_small(f64::EPSILON, d) {
            if out.is_empty() {
                return Err(Refusal::OutTooShort);
            }
            out[0] = self.lo;
            return Ok(1);
        }
        if is_small(NEAREST, d) {
            return Err(Refusal::RealAxisNotMarked);
        }
        let k = u64::from(m);
        let s = self
            .choose(k, self.start(k))
            .ok_or(Refusal::RealAxisNotMarked)?;
        self.put_scaled(s, out)
    }
}

// Whether x is admitted as an end; a NaN is not.
#[tactic(auto, unfolding(crate::specs::Marks::end_admitted))]
fn end_admitted(x: f64) -> bool
    ensures { result ≡ end_admitted x }
{
    -FARTHEST <= x && x <= FARTHEST
}

// Whether both ends and the mark limit are admitted.
fn axis_admitted(a: f64, b: f64, m: u32) -> bool
    ensures { result ≡ axis_admitted a b m }
{
    end_admitted(a) && end_admitted(b) && m <= MOST_ASKED
}

// The marks of the axis from a to b, in either order, written to the start of out: at most about m of them.
#[tactic(auto, using(crate::proofs::Calls::of_axis))]
pub fn compute_f64_key_points(a: f64, b: f64, m: u32, out: &mut [f64]) -> Result<usize, Refusal>
    ensures { (tell result, out.new) ≡ real_key_points a b m out.old }
{
    if m == 0 {
        return Ok(0);
    }
    if !axis_admitted(a, b, m) {
        return Err(Refusal::RealAxisNotMarked);
    }
    Span::between(a, b).put(m, out)
}
