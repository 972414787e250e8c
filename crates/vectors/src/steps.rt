// Lines on stepped axes: the ends and the step, what the call takes besides, and what is returned.
use crate::bits::{Word, after, at};
use crate::calls::{limit, real_axis, same, same_found, whole_axis};
use crate::lists::{counted, same_lent};
use crate::searches::method;
use linspace::{Linspacef64, Linspacei32};

pub(crate) fn whole_steps(numbers: &[u64]) -> Linspacei32 {
    Linspacei32 {
        inner: whole_axis(numbers),
        step: at(numbers, 2),
    }
}

pub(crate) fn real_steps(numbers: &[u64]) -> Linspacef64 {
    Linspacef64 {
        inner: real_axis(numbers),
        step: at(numbers, 2),
    }
}

// Whether the call of this name on these steps answers as the line has it. A macro, since steps of whole and of real numbers have calls
// of the same names and no trait.
macro_rules! same_steps {
    ($call:expr, $numbers:expr, $steps:expr, $list:expr) => {{
        let numbers = $numbers;
        let steps = $steps;
        match $call {
            b"size" => same(after(numbers, 3), steps.size()),
            b"at" => same_found(after(numbers, 4), steps.from_index(at(numbers, 3))),
            b"idx" => method(numbers, 4).is_some_and(|by| same_found(after(numbers, 5), steps.index_of(at(numbers, 3), by))),
            b"map" => same(after(numbers, 6), steps.map(at(numbers, 3), limit(numbers, 4))),
            b"read" => same_found(after(numbers, 6), steps.unmap(at(numbers, 3), limit(numbers, 4))),
            b"list" => same_lent(after(numbers, 3), $list, |out| counted(steps.values(out))),
            b"marks" => same_lent(after(numbers, 4), $list, |out| counted(steps.key_points(at(numbers, 3), out))),
            _ => false,
        }
    }};
}

pub(crate) fn whole(call: &[u8], numbers: &[u64]) -> bool {
    let list = &mut [i32::UNSET; 64];
    same_steps!(call, numbers, whole_steps(numbers), list)
}

pub(crate) fn real(call: &[u8], numbers: &[u64]) -> bool {
    let list = &mut [f64::UNSET; 64];
    same_steps!(call, numbers, real_steps(numbers), list)
}
