// Axes of numbers, after types/numeric.rs: the key points of the integer coordinates.
#![tactic(auto)]

ghost use Rattle.std.specs.Prelude.{◌≡◌, true, ◌&&◌, [], ◌∷◌, ◌++◌, ℕ, ◌+◌, ◌*◌, ◌<◌, ◌≤◌, ℤ, pos, nat_abs, SomeIff, ◌*ℤ◌, length};
ghost use Rattle.std.specs.Int.Signed.{le_z};
ghost use Rattle.ranged1d.specs.Admitted.{index_admitted};
ghost use Rattle.ranged1d.specs.Answer.{given, ◌when◌, lowest};
ghost use Rattle.ranged1d.specs.Told.{tell, tell_option};
ghost use Rattle.numeric.specs.Marks.{low, high, step_at, serves, chosen, first_index, last_by, how_many, list_of, no_step_for};
ghost use Rattle.numeric.specs.Calls.{Computes, key_points_as, whole_key_points, plan_with, plan_by, whole_plan, inside_plan, element, point_at, index_key_points};

mod whole;

use ranged1d::Refusal;
pub use real::RangedCoordf64;
use whole::Ends;

// An axis with two whole ends, in either order.
#[derive(Clone, Copy)]
pub struct RangedCoordi32(pub i32, pub i32);

// An axis of indices.
// Kept: a type of its own. One over i32 and usize would be no plainer, since the axes share a single call, which is one function within.
#[derive(Clone, Copy)]
pub struct RangedCoordusize(pub usize, pub usize);

// Which multiple is the last mark: the upper end cut toward zero, or the last that is not above it.
#[derive(Clone, Copy)]
pub enum Choice {
    Cut,
    Inside,
}

// Marks that are not written: the first, the step to the next, and how many there are.
#[derive(Clone, Copy)]
pub struct KeyPoints {
    pub first: i32,
    pub step: i32,
    pub count: u32,
}

const STEPS: [u32; 28] = [
    1, 2, 5, 10, 20, 50, 100, 200, 500, 1000, 2000, 5000, 10000, 20000, 50000, 100000, 200000,
    500000, 1000000, 2000000, 5000000, 10000000, 20000000, 50000000, 100000000, 200000000,
    500000000, 1000000000,
];

// A step of the table.
#[derive(Clone, Copy)]
struct Step {
    by: u32,
    ghost some: { 0 < by },
    ghost most: { by ≤ 1000000000 },
}

// Step k.
fn step_at(k: usize) -> Step
    requires { k < 28 }
    ensures { result.by ≡ step_at k }
{
    Step { by: STEPS[k] }
}

// Whether step k serves the distance d. d + s - 1 stays below 2^32.
// Kept: the sum before the division. d.div_ceil(s) takes the remainder too, and a branch on it, at each of up to 28 steps.
fn serves_at(d: u32, m: u32, k: usize) -> bool
    requires k_bound { k < 28 }
    requires d_bound { d ≤ 2000000000 }
    ensures { result ≡ serves d m k }
{
    let s = step_at(k).by;
    let n = (d + (s - 1)) / s;
    if k % 3 == 0 { n <= m } else { n < m }
}

// The place of the first step that serves.
fn choose(d: u32, m: u32) -> Option<usize>
    requires { d ≤ 2000000000 }
    ensures { SomeIff result (chosen d m < 28) (chosen d m) }
{
    (0..28).find(|k| serves_at(d, m, *k))
}

// How many whole numbers there are from i to j.
fn how_many(i: i32, j: i32) -> u32
    requires i_bound { nat_abs i ≤ 1000000000 }
    requires j_bound { nat_abs j ≤ 1000000000 }
    ensures { result ≡ how_many i j }
{
    let n = j + 1 - i;
    if n < 0 { 0 } else { n as u32 }
}

impl Step {
    // Which of its multiples is the least that is not below z.
    fn first_from(self, z: i32) -> i32
        requires { nat_abs z ≤ 1000000000 }
        ensures { result ≡ first_index z self.by }
    {
        let t = self.by as i32;
        if z < 0 { z / t } else { (z + (t - 1)) / t }
    }
}

// The ends of an axis, both admitted, the lower one first.
#[derive(Clone, Copy)]
struct Sorted {
    lo: i32,
    hi: i32,
    ghost lo_near: { nat_abs lo ≤ 1000000000 },
    ghost hi_near: { nat_abs hi ≤ 1000000000 },
    ghost rises: { le_z lo hi ≡ true },
}

impl Ends {
    fn sorted(self) -> Sorted
        ensures { (result.lo ≡ low self.a self.b) × (result.hi ≡ high self.a self.b) }
    {
        Sorted {
            lo: self.a.min(self.b),
            hi: self.a.max(self.b),
        }
    }
}

impl Sorted {
    // Which multiple of s is the last mark. The source cuts hi toward zero by `range.1 - range.1 % scale`.
    #[tactic(auto, using(crate::proofs::Inside::last_near_hi))]
    fn last(self, choice: Choice, s: Step) -> i32
        ensures value { result ≡ last_by choice self.hi s.by }
        ensures near { nat_abs result ≤ 1000000000 }
    {
        match choice {
            Choice::Cut => self.hi / (s.by as i32),
            Choice::Inside => -s.first_from(-self.hi),
        }
    }

    // The marks, unwritten.
    fn plan(self, choice: Choice, m: u32) -> Result<KeyPoints, Refusal>
        ensures { tell result ≡ lowest (3 when no_step_for self.lo self.hi m ∷ []) (given (plan_with choice self.lo self.hi m)) }
    {
        let k = choose(self.hi.abs_diff(self.lo), m).ok_or(Refusal::NoStep)?;
        let s = step_at(k);
        let i = s.first_from(self.lo);
        let n = how_many(i, self.last(choice, s));
        let step = s.by as i32;
        let first = i * step;
        Ok(KeyPoints {
            first,
            step,
            count: n,
        })
    }
}

// Numbers from first on, a step apart, as `mark` has them.
// Kept: first + k · step in place, as in ruler and linspace. The fields of KeyPoints are public, so that a method for it tests of each mark, as `get`
// does, that there is one and that it fits an i32.
fn fill_marks<T: Copy, F: Fn(i32) -> T>(out: &mut [T], first: i32, step: i32, mark: F)
    requires callable { F.IsAlwaysCallable mark }
    requires few { length out.old ≤ 2147483648 }
    requires by_index { (k : ℕ) → k < length out.old → (nat_abs (pos k *ℤ step) ≤ 2147483647) × (nat_abs (element first step k) ≤ 2147483647) }
    ensures { (f : ℤ → T) → Computes (F.post mark) f → out.new ≡ list_of (λ k. f (element first step k)) (length out.old) }
{
    for (k, x) in out.iter_mut().enumerate() {
        *x = mark(first + k as i32 * step);
    }
}

impl KeyPoints {
    // Mark i, counted from 0. The product and the sum fit an i64, whatever the fields hold.
    #[tactic(auto, unfolding(crate::specs::Calls::point_at))]
    pub fn get(self, i: u32) -> Option<i32>
        ensures { tell_option result ≡ point_at self i }
    {
        if self.count <= i {
            return None;
        }
        let v = self.first as i64 + i as i64 * self.step as i64;
        i32::try_from(v).ok()
    }
}

impl RangedCoordi32 {
    // The marks, unwritten, for a caller that needs no list of them: m bounds their number.
    pub fn plan(self, m: u32) -> Result<KeyPoints, Refusal>
        ensures { tell result ≡ whole_plan self.0 self.1 m }
    {
        self.plan_by(Choice::Cut, m)
    }

    // The marks, likewise, by the choice of the last.
    #[tactic(auto, unfolding(crate::specs::Calls::whole_plan, crate::specs::Calls::inside_plan))]
    pub fn plan_by(self, choice: Choice, m: u32) -> Result<KeyPoints, Refusal>
        ensures { tell result ≡ plan_by choice self.0 self.1 m }
    {
        self.ends()?.sorted().plan(choice, m)
    }

    // The marks as `mark` has them, written to the start of out.
    fn write_marks<T: Copy, F: Fn(i32) -> T>(
        self,
        m: u32,
        out: &mut [T],
        mark: F,
    ) -> Result<(T, usize), Refusal>
        requires { F.IsAlwaysCallable mark }
        ensures { (f : ℤ → T) → Computes (F.post mark) f → (tell result, out.new) ≡ key_points_as f self.0 self.1 m out.old }
    {
        let p = self.plan(m)?;
        let n = p.count as usize;
        if out.len() < n {
            return Err(Refusal::OutTooShort);
        }
        let step = mark(p.step);
        fill_marks(&mut out[..n], p.first, p.step, mark);
        Ok((step, n))
    }

    // The marks, written to the start of out: m bounds their number.
    pub fn key_points(self, m: u32, out: &mut [i32]) -> Result<(i32, usize), Refusal>
        ensures { (tell result, out.new) ≡ whole_key_points self.0 self.1 m out.old }
    {
        self.write_marks(m, out, |z| z)
    }
}

impl RangedCoordusize {
    // Whether both ends are admitted.
    fn admitted(self) -> bool
        ensures { result ≡ (index_admitted self.0 && index_admitted self.1) }
    {
        ranged1d::index_admitted(self.0) && ranged1d::index_admitted(self.1)
    }

    // The marks, written to the start of out: m bounds their number. The admitted ends are i32s, and no mark is below zero.
    #[tactic(auto, unfolding(crate::specs::Calls::index_key_points))]
    pub fn key_points(self, m: u32, out: &mut [usize]) -> Result<(usize, usize), Refusal>
        ensures { (tell result, out.new) ≡ index_key_points self.0 self.1 m out.old }
    {
        if !self.admitted() {
            return Err(Refusal::WholeNotAdmitted);
        }
        let whole = RangedCoordi32(self.0 as i32, self.1 as i32);
        whole.write_marks(m, out, |z| z.unsigned_abs() as usize)
    }
}
