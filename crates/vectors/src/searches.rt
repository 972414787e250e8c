// Lines on searches of a list: the number of entries, the entries, the target, the method, and what is returned.
ghost use Rattle.std.specs.Prelude.{◌≤◌, length};

use crate::bits::{Word, after, at};
use crate::calls::same_found;
use ranged1d::Refusal;
use search::RoundingMethod;

// Word k of the line: 0 exact, 1 up, 2 down, 3 nearest, as any other number is read too. None where the line has no such word.
// Kept: its own numbers beside those of culvraod, so that a line is read without what it is to judge.
pub(crate) fn method(numbers: &[u64], k: usize) -> Option<RoundingMethod> {
    match numbers.get(k)? {
        0 => Some(RoundingMethod::Exact),
        1 => Some(RoundingMethod::Ceil),
        2 => Some(RoundingMethod::Floor),
        _ => Some(RoundingMethod::Round),
    }
}

fn same_search<T: Word, F: FnOnce(&[T], T, RoundingMethod) -> Result<Option<u64>, Refusal>>(
    numbers: &[u64],
    list: &mut [T],
    search: F,
) -> bool
    requires callable { F.IsAlwaysCallable search }
    requires short { length list.old ≤ 64 }
{
    let size: usize = at(numbers, 0);
    for (k, place) in list.iter_mut().enumerate() {
        *place = at(numbers, k + 1);
    }
    let Some(entries) = list.get(..size) else {
        return false;
    };
    match method(numbers, size + 2) {
        Some(by) => {
            let found = search(entries, at(numbers, size + 1), by);
            same_found(after(numbers, size + 3), found)
        }
        None => false,
    }
}

pub(crate) fn whole_search(numbers: &[u64]) -> bool {
    same_search(numbers, &mut [i32::UNSET; 64], |entries, target, by| {
        search::search_whole(entries, target, by)
    })
}

pub(crate) fn real_search(numbers: &[u64]) -> bool {
    same_search(numbers, &mut [f64::UNSET; 64], |entries, target, by| {
        search::search_real(entries, target, by)
    })
}
