// Entries of a real stepped axis, written from the sums that a walk has kept: those sums themselves, or four runs at once that begin at them. A sum
// waits for the one before it; four runs wait together.
ghost use Rattle.std.specs.Prelude.{◌≡◌, ◌*◌, ◌≤◌, [], length, MatchOption};
ghost use Rattle.linspace.specs.RealSteps.{plus_step, after, sums_by, Kept, four_runs};

use crate::steps::Steps;
use crate::track::advance;

// The sums that a walk has kept, h steps apart, from the first end on.
#[derive(Clone, Copy)]
pub(crate) struct Sums<'a> {
    pub(crate) s: Steps<f64>,
    pub(crate) kept: &'a [f64],
    pub(crate) h: usize,
    ghost are: { Kept (plus_step s.d) s.a h kept.now },
}

// The next entry of each run.
// Kept: four fields. As an array, which would be lent to each step, they are not held in registers: lists took 1.1 times as long.
#[derive(Clone, Copy)]
struct Four {
    x0: f64,
    x1: f64,
    x2: f64,
    x3: f64,
}

// Each sum after k further steps.
fn advance_four(q: Four, d: f64, k: usize) -> Four
    ensures { (result.x0 ≡ after (plus_step d) k q.x0) × (result.x1 ≡ after (plus_step d) k q.x1) × (result.x2 ≡ after (plus_step d) k q.x2) × (result.x3 ≡ after (plus_step d) k q.x3) }
{
    let mut x = q;
    for _i in 0..k {
        x.x0 += d;
        x.x1 += d;
        x.x2 += d;
        x.x3 += d;
    }
    x
}

// Four runs of g entries, `by` steps apart, one behind the other, in all of out; returns the sum behind the last.
// Kept: four indices. As slices the runs are split off by three calls and zipped as ((a, b), (c, d)), and put into four names again in each turn.
fn put_four(out: &mut [f64], q: Four, d: f64, by: usize, g: usize) -> f64
    requires { length out.old ≡ 4 * g }
    ensures { (out.new ≡ four_runs (plus_step d) by g q.x0 q.x1 q.x2 q.x3 []) × (result ≡ after (plus_step d) (g * by) q.x3) }
{
    let mut y = q;
    for k in 0..g {
        out[k] = y.x0;
        out[g + k] = y.x1;
        out[2 * g + k] = y.x2;
        out[3 * g + k] = y.x3;
        y = advance_four(y, d, by);
    }
    y.x3
}

// x and the sums behind it, `by` steps apart, in all of out.
pub(crate) fn put_entries(out: &mut [f64], x: f64, d: f64, by: usize)
    ensures { out.new ≡ sums_by (plus_step d) by x (length out.old) }
{
    let Some((first, rest)) = out.split_first_mut() else {
        return;
    };
    *first = x;
    let mut y = x;
    for z in rest.iter_mut() {
        y = advance(y, d, by);
        *z = y;
    }
}

// How long four runs can be that begin at four kept sums: h steps are g entries, `by` apart, and 4 g of the n are wanted.
fn run_length(size: usize, h: usize, by: usize, n: usize) -> Option<usize>
    ensures { MatchOption result (Unit {0}) (λ g. (4 * g ≤ n) × (g * by ≡ h) × (size ≡ 4)) }
{
    if by == 0 || size != 4 || h % by != 0 || n / 4 < h / by {
        return None;
    }
    Some(h / by)
}

// None of the sums, where a list is not worth it.
pub(crate) fn unkept<'a>(s: Steps<f64>) -> Sums<'a>
    ensures { result.s ≡ s }
{
    Sums { s, kept: &[], h: 0 }
}

impl Sums<'_> {
    // The sum behind the kept ones.
    fn next(self) -> f64
        ensures { result ≡ after (plus_step self.entry.s.d) (length self.entry.kept.now * self.entry.h) self.entry.s.a }
    {
        match self.kept.last() {
            Some(x) => advance(*x, self.s.d, self.h),
            None => self.s.a,
        }
    }

    // Entries in all of out, as far apart as the kept sums: those, as far as they go, and then further ones.
    fn put_kept(self, out: &mut [f64])
        ensures { out.new ≡ sums_by (plus_step self.entry.s.d) self.entry.h self.entry.s.a (length out.old) }
    {
        let n = out.len();
        let g = self.kept.len();
        if n <= g {
            out.copy_from_slice(&self.kept[..n]);
            return;
        }
        let (first, rest) = out.split_at_mut(g);
        first.copy_from_slice(self.kept);
        put_entries(rest, self.next(), self.s.d, self.h);
    }

    // Entries in all of out, `by` apart, from the first on. Put in where it is called, so that the loops of a whole list know that they go by one: else
    // a list of ten entries takes a quarter more instructions, and each turn of four runs nearly twice as many.
    #[inline(always)]
    pub(crate) fn put_all(self, out: &mut [f64], by: usize)
        ensures { out.new ≡ sums_by (plus_step self.entry.s.d) by self.entry.s.a (length out.old) }
    {
        let s = self.s;
        let Some(g) = run_length(self.kept.len(), self.h, by, out.len()) else {
            put_entries(out, s.a, s.d, by);
            return;
        };
        let q = Four {
            x0: s.a,
            x1: self.kept[1],
            x2: self.kept[2],
            x3: self.kept[3],
        };
        let (runs, rest) = out.split_at_mut(4 * g);
        let x = put_four(runs, q, s.d, by, g);
        put_entries(rest, x, s.d, by);
    }

    // The same, where the kept sums may be the entries.
    pub(crate) fn put_spaced(self, out: &mut [f64], by: usize)
        ensures { out.new ≡ sums_by (plus_step self.entry.s.d) by self.entry.s.a (length out.old) }
    {
        if self.h == by {
            self.put_kept(out);
            return;
        }
        self.put_all(out, by);
    }
}
