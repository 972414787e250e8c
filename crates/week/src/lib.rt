// The running week: which of the minutes 0 to 10,079 lie in windows, and how many before a minute do. Windows are lent as numbers in a
// row, two for each: its first minute, and its end, which is no longer part of it.
#![tactic(auto)]

ghost use Rattle.std.specs.Prelude.{◌≡◌, ℕ, ◌+◌, ◌≤◌, ◌<◌};
ghost use Rattle.ranged1d.specs.Answer.{Answer};
ghost use Rattle.ranged1d.specs.Told.{tell_option, tell_found};
ghost use Rattle.week.specs.Week.{running_minute, clock_minute};
ghost use Rattle.week.specs.Steps.{fits_from, carried_to, surveyed, OfTheWeek, Carries};

use ranged1d::Refusal;

// A window, and how many window minutes come before it.
#[derive(Clone, Copy)]
struct Counted {
    first: u32,
    end: u32,
    seen: u32,
}

impl Counted {
    ghost use Rattle.week.specs.Steps.{OfTheWeek, running_in, clock_in};

    // A clock minute's running minute, if it is one of the window's.
    fn running(self, clock: u32) -> Option<u32>
        requires { OfTheWeek self }
        ensures { tell_option result ≡ running_in clock self }
    {
        carried(self.first, self.end - self.first, self.seen, clock)
    }

    // A running minute's clock minute, if it is one of the window's.
    // Kept: beside `running`, of which it is the way back: one method for both would be told which way.
    fn clock(self, running: u32) -> Option<u32>
        requires { OfTheWeek self }
        ensures { tell_option result ≡ clock_in running self }
    {
        carried(self.seen, self.end - self.first, self.first, running)
    }
}

// Whether a window may come where `next` is the least minute at which it may begin.
fn fits(next: u32, first: u32, end: u32) -> bool
    ensures { result ≡ fits_from next first end }
{
    next <= first && first < end && end <= 10080
}

// x, if it lies in a stretch of n minutes that begins at `from`, at the same place of a stretch that begins at `to`.
fn carried(from: u32, n: u32, to: u32, x: u32) -> Option<u32>
    requires { to + n ≤ 4294967295 }
    ensures { tell_option result ≡ carried_to from n to x }
{
    if from <= x && x - from < n {
        return Some(to + (x - from));
    }
    None
}

// Once over the windows, never over minutes: whether they are a running week, and what `carry` finds in one of them.
fn survey<F: Fn(Counted) -> Option<u32>>(windows: &[u32], carry: F) -> Result<Option<u32>, Refusal>
    requires { (w : Counted) → OfTheWeek w → F.pre carry w }
    ensures { (f : Counted → Answer ℕ) → Carries (F.post carry) f → tell_found result ≡ surveyed f windows.now }
{
    let (pairs, alone) = windows.as_chunks::<2>();
    if 32 < pairs.len() || !alone.is_empty() {
        return Err(Refusal::BadWeek);
    }
    let mut found = None;
    let mut next = 0;
    let mut seen = 0;
    for &[first, end] in pairs {
        if !fits(next, first, end) {
            return Err(Refusal::BadWeek);
        }
        found = carry(Counted { first, end, seen }).or(found);
        seen += end - first;
        next = end + 1;
    }
    Ok(found)
}

// The running minute of a clock minute: the number of window minutes before it.
pub fn running(windows: &[u32], clock: u32) -> Result<Option<u32>, Refusal>
    ensures { tell_found result ≡ running_minute windows.now clock }
{
    let found = survey(windows, |window| window.running(clock))?;
    // 26 comes before 27
    if 10079 < clock {
        return Err(Refusal::BadMinute);
    }
    Ok(found)
}

// The clock minute whose running minute is this one.
pub fn clock(windows: &[u32], running: u32) -> Result<Option<u32>, Refusal>
    ensures { tell_found result ≡ clock_minute windows.now running }
{
    survey(windows, |window| window.clock(running))
}
