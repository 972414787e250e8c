// What every discrete axis shares, after discrete.rs: the index that a pixel is read as.
#![tactic(auto)]

ghost use Rattle.std.specs.Prelude.{◌≡◌, ◌≤◌, nat_abs};
ghost use Rattle.discrete.specs.Index.{index_for, pixel_index};
ghost use Rattle.ranged1d.specs.Told.{tell_option, tell_found};

use ranged1d::{Limit, Refusal};

// The index, by how far the pixel and the second limit lie from the first. A quotient below zero is read as 0, so that what lies on the
// other side of the first limit needs no division; of all else the sizes are divided, the product being at most 2,000,000 · (2^32 − 1),
// below 2^53. Before it divides by 64 bits the processor is made to look whether 32 are enough; with signs that test would go by
// the way the film runs, and be guessed wrongly as often as this changes.
// The source divides in f64 and finds the same index: the product is exact, and a quotient that is no whole number lies at least
// 1 ÷ |w| below the next one, while rounding moves it by at most its 2^53rd part, which is less.
fn index_within(d: i32, w: i32, n: u32) -> Option<u64>
    requires d_bound { nat_abs d ≤ 2000000 }
    requires w_bound { nat_abs w ≤ 2000000 }
    ensures { tell_option result ≡ index_for d w n }
{
    if w == 0 {
        if 0 < d && 0 < n {
            return None;
        }
        return Some(0);
    }
    if (d < 0) != (w < 0) {
        return Some(0);
    }
    let far = d.unsigned_abs() as u64;
    let length = w.unsigned_abs() as u64;
    Some(far * (n as u64) / length)
}

// The index of pixel x on an axis with n values. n is a u32: the largest count of an axis is 2,000,000,001, and with any u32 the
// product stays below 2^53, so that no count is refused.
pub fn pixel_index(x: i32, limit: Limit, n: u32) -> Result<Option<u64>, Refusal>
    ensures { tell_found result ≡ pixel_index x limit n }
{
    if !limit.admits(x) {
        return Err(Refusal::LimitNotAdmitted);
    }
    let Limit(p, q) = limit;
    Ok(index_within(x - p, q - p, n))
}
