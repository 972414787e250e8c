// Walks along the list of a real stepped axis: each entry is a sum that waits for the one before it, so that a walk takes along all that its
// caller asks.
ghost use Rattle.std.specs.Prelude.{◌≡◌, true, ◌+◌, ◌-◌, ◌/◌, ◌≤◌, pos, nat_abs, length};
ghost use Rattle.std.specs.Float.Ieee.{eq, lt};
ghost use Rattle.linspace.specs.List.{real, entries, toward};
ghost use Rattle.linspace.specs.RealSteps.{plus_step, after, Parted, Reached, Behind, Shares, nearest};
ghost use Rattle.linspace.specs.Walks.{Tracked, Stepped, head_of, Trails};

use crate::steps::Steps;

// An entry, or the sum behind the last one, and its index.
#[derive(Clone, Copy)]
pub(crate) struct Spot {
    pub(crate) n: usize,
    pub(crate) x: f64,
}

// An entry and b by size, and what each goes on by: the list goes on while low < high, whether it rises or falls. b stands, since
// -0.0 added to a number gives that number.
#[derive(Clone, Copy)]
struct Track {
    low: f64,
    high: f64,
    raise: f64,
    lower: f64,
}

// A second sum, behind the first: the share of the entries that the first has passed, in 2^40ths of an entry, how many whole entries that is, and the
// sum after so many steps.
#[derive(Clone, Copy)]
struct Trail {
    gone: u64,
    k: u64,
    x: f64,
}

// The number of entries, and the sum after k steps.
#[derive(Clone, Copy)]
pub(crate) struct Both {
    pub(crate) n: usize,
    pub(crate) k: u64,
    pub(crate) x: f64,
}

// Where a target lies: how many entries come before it, the last of them, and the sum behind that.
#[derive(Clone, Copy)]
pub(crate) struct Sides {
    pub(crate) n: usize,
    pub(crate) left: f64,
    pub(crate) right: f64,
}

// The track of a list that stands at x, on the way to b by d.
// Kept: told whether the list rises, which is asked once before a walk. As a const each of the walks would begin with
// `if s.rises() { walk::<true>(…) } else { walk::<false>(…) }`, and stand twice in the program.
fn track_at(rises: bool, b: f64, d: f64, x: f64) -> Track
    ensures { Tracked rises b d x result }
{
    if rises {
        return Track {
            low: x,
            high: b,
            raise: d,
            lower: -0.0,
        };
    }
    Track {
        low: b,
        high: x,
        raise: -0.0,
        lower: d,
    }
}

// One step on.
fn step_on(t: Track) -> Track
    ensures { Stepped t result }
{
    Track {
        low: t.low + t.raise,
        high: t.high + t.lower,
        raise: t.raise,
        lower: t.lower,
    }
}

// The entry that a track stands at.
// Kept: told whether the list rises, as `track_at` is.
fn head(rises: bool, t: Track) -> f64
    ensures { result ≡ head_of rises t }
{
    if rises { t.low } else { t.high }
}

// The number of entries, 65,537 where there are more, of which x is entry k if there is one.
// Kept: four walks. One walk would be handed what a step takes along as a closure of one line, and promise a fold of it, of which each caller would have
// to show what it is: longer than a loop of five lines. And k is below the bound of the loop, where a count begins and where a walk sets out.
pub(crate) fn count_on(s: Steps<f64>, x: f64, k: usize) -> usize
    requires { k ≤ 65537 }
    ensures { result ≡ k + length (entries (toward real (lt s.a s.b) s.b) (plus_step s.d) (65537 - k) x) }
{
    let mut t = track_at(s.rises(), s.b, s.d, x);
    for n in k..65537 {
        if !(t.low < t.high) {
            return n;
        }
        t = step_on(t);
    }
    65537
}

// Walks to entry k, or to the sum behind the last entry.
pub(crate) fn reach(s: Steps<f64>, k: u64) -> Spot
    ensures { Reached (toward real (lt s.a s.b) s.b) (plus_step s.d) 65537 s.a k result.n result.x }
{
    let rises = s.rises();
    let last = k.min(65537) as usize;
    let mut t = track_at(rises, s.b, s.d, s.a);
    for n in 0..last {
        if !(t.low < t.high) {
            return Spot {
                n,
                x: head(rises, t),
            };
        }
        t = step_on(t);
    }
    Spot {
        n: last,
        x: head(rises, t),
    }
}

// t or b, whichever comes first: what comes before it comes before both.
// Kept: told whether the list rises, as `track_at` is.
fn nearer(rises: bool, t: f64, b: f64) -> f64
    ensures { result ≡ nearest rises b t }
{
    if search::precedes(rises, t, b) { t } else { b }
}

// Walks to the first entry that does not come before t.
pub(crate) fn approach(s: Steps<f64>, t: f64) -> Sides
    requires b_value { eq s.b s.b ≡ true }
    requires t_value { eq t t ≡ true }
    ensures { Parted (toward real (lt s.a s.b) s.b) (plus_step s.d) 65537 s.a (toward real (lt s.a s.b) t) result.n result.left result.right }
{
    let rises = s.rises();
    let mut left = t;
    let mut y = track_at(rises, nearer(rises, t, s.b), s.d, s.a);
    for n in 0..65537 {
        if !(y.low < y.high) {
            return Sides {
                n,
                left,
                right: head(rises, y),
            };
        }
        left = head(rises, y);
        y = step_on(y);
    }
    Sides {
        n: 65537,
        left,
        right: head(rises, y),
    }
}

// The sum after k further steps.
pub(crate) fn advance(x: f64, d: f64, k: usize) -> f64
    ensures { result ≡ after (plus_step d) k x }
{
    let mut y = x;
    for _i in 0..k {
        y += d;
    }
    y
}

// How far along the film a pixel lies that is `far` past the first limit, with the second `whole` past it, in 2^40ths, rounded up, and at most all of
// them. As n entries are so few that n · whole is below 2^40, the share of n, cut, is n · far / whole, cut. Where the limits meet, a pixel past them is
// past every entry.
fn part_of(far: u32, whole: u32) -> u64
    requires far_bound { far ≤ 2000000 }
    requires whole_bound { whole ≤ 2000000 }
    ensures { Shares (pos far) (pos whole) result }
{
    if far == 0 {
        return 0;
    }
    if whole <= far {
        return 1099511627776;
    }
    let parts = whole as u64;
    ((far as u64) * 1099511627776 + (parts - 1)) / parts
}

// The same by signed distances, d and w. A pixel behind the first limit counts as on it.
pub(crate) fn share(d: i32, w: i32) -> u64
    requires d_bound { nat_abs d ≤ 2000000 }
    requires w_bound { nat_abs w ≤ 2000000 }
    ensures { Shares d w result }
{
    if (d < 0) != (w < 0) {
        return 0;
    }
    part_of(d.unsigned_abs(), w.unsigned_abs())
}

// The second sum, once the first has taken a step: it takes one where a whole entry more is gone. At most 65,536 shares, 2^56 parts, were gone before.
fn trail_on(y: Trail, d: f64, share: u64) -> Trail
    requires share_bound { share ≤ 1099511627776 }
    requires gone_bound { y.gone ≤ 72057594037927936 }
    requires k_value { y.k ≡ y.gone / 1099511627776 }
    ensures { Trails d share y result }
{
    let steps = [-0.0, d];
    let gone = y.gone + share;
    let k = gone / 1099511627776;
    Trail {
        gone,
        k,
        x: y.x + steps[(k - y.k) as usize],
    }
}

// Walks along the list, with the second sum behind the first.
pub(crate) fn walk_both(s: Steps<f64>, share: u64) -> Both
    requires { share ≤ 1099511627776 }
    ensures { Behind (toward real (lt s.a s.b) s.b) (plus_step s.d) s.a share result.n result.k result.x }
{
    let mut t = track_at(s.rises(), s.b, s.d, s.a);
    let mut y = Trail {
        gone: 0,
        k: 0,
        x: s.a,
    };
    for n in 0..65537 {
        if !(t.low < t.high) {
            return Both { n, k: y.k, x: y.x };
        }
        t = step_on(t);
        y = trail_on(y, s.d, share);
    }
    Both {
        n: 65537,
        k: y.k,
        x: y.x,
    }
}
