// Lines on the calls that answer with one number: the arguments, then 0 and the answer, or -1 for none, or the number of the refusal.
ghost use Rattle.std.specs.Prelude.{◌<◌};

use crate::bits::{Word, after, at};
use numeric::{RangedCoordf64, RangedCoordi32};
use ranged1d::{Limit, Refusal};

// -1 in two's complement.
const NOTHING: u64 = u64::MAX;

// Below, `words` are what the line has behind its arguments.
pub(crate) fn same_nothing(words: &[u64]) -> bool {
    words == [NOTHING].as_slice()
}

pub(crate) fn same_refusal(words: &[u64], r: Refusal) -> bool {
    words == [u64::from(r.number())].as_slice()
}

pub(crate) fn same_answer(words: &[u64], answer: u64) -> bool {
    words == [0, answer].as_slice()
}

pub(crate) fn same_two(words: &[u64], first: u64, second: u64) -> bool {
    words == [0, first, second].as_slice()
}

// Whether a call gave what the words say.
pub(crate) fn same<T: Word>(words: &[u64], x: Result<T, Refusal>) -> bool {
    match x {
        Ok(answer) => same_answer(words, answer.word()),
        Err(r) => same_refusal(words, r),
    }
}

pub(crate) fn same_found<T: Word>(words: &[u64], x: Result<Option<T>, Refusal>) -> bool {
    match x {
        Ok(Some(answer)) => same_answer(words, answer.word()),
        Ok(None) => same_nothing(words),
        Err(r) => same_refusal(words, r),
    }
}

// Kept: an axis of either kind of numbers, here and in marks.rt, searches.rt, segments.rt and steps.rt. Each is a line that names its type.
pub(crate) fn whole_axis(numbers: &[u64]) -> RangedCoordi32 {
    RangedCoordi32(at(numbers, 0), at(numbers, 1))
}

pub(crate) fn real_axis(numbers: &[u64]) -> RangedCoordf64 {
    RangedCoordf64(at(numbers, 0), at(numbers, 1))
}

// The limits that are words k and k + 1 of the line.
pub(crate) fn limit(numbers: &[u64], k: usize) -> Limit
    requires { k < 64 }
{
    Limit(at(numbers, k), at(numbers, k + 1))
}

// Whether the call of this name on an axis answers as the line has it.
pub(crate) fn plain(call: &[u8], numbers: &[u64]) -> bool {
    let whole = whole_axis(numbers);
    let real = real_axis(numbers);
    match call {
        b"wmap" => same(
            after(numbers, 5),
            whole.map(at(numbers, 2), limit(numbers, 3)),
        ),
        b"rmap" => same(
            after(numbers, 5),
            real.map(at(numbers, 2), limit(numbers, 3)),
        ),
        b"size" => same(after(numbers, 2), whole.size()),
        b"index_of" => same_found(after(numbers, 3), whole.index_of(at(numbers, 2))),
        b"from_index" => same_found(after(numbers, 3), whole.from_index(at(numbers, 2))),
        b"unmap" => same_found(
            after(numbers, 5),
            whole.unmap(at(numbers, 2), limit(numbers, 3)),
        ),
        b"runmap" => same_found(
            after(numbers, 5),
            real.unmap(at(numbers, 2), limit(numbers, 3)),
        ),
        _ => false,
    }
}
