// Lines on segments: the axis, the method where a value is found by a search, what the call takes besides, and what is returned. A value
// is its kind and the number that it carries.
// Kept: a function for each axis, which names the axis's type and its method alone.
ghost use Rattle.std.specs.Prelude.{◌<◌};

use crate::bits::{Word, after, at};
use crate::calls::{limit, same, same_found, same_nothing, same_refusal, same_two, whole_axis};
use crate::lists::{counted, marked, same_lent};
use crate::searches::method;
use crate::steps::{real_steps, whole_steps};
use ranged1d::Refusal;
use search::RoundingMethod;
use segmented::{Axis, SegmentValue, Segmented};

// Words k and k + 1 of the line: 0 Exact, 1 CenterOf, 2 Last, as any other number is read too. None where the line has no such word.
// Kept: its own numbers beside those of culvraod, so that a line is read without what it is to judge.
fn value<T: Word>(numbers: &[u64], k: usize) -> Option<SegmentValue<T>>
    requires { k < 64 }
{
    let carried = at(numbers, k + 1);
    match numbers.get(k)? {
        0 => Some(SegmentValue::Exact(carried)),
        1 => Some(SegmentValue::CenterOf(carried)),
        _ => Some(SegmentValue::Last),
    }
}

// The method and the value that are words 3, 4 and 5.
fn sought<T: Word>(numbers: &[u64]) -> Option<(RoundingMethod, SegmentValue<T>)> {
    Some((method(numbers, 3)?, value(numbers, 4)?))
}

fn same_value<T: Word>(words: &[u64], value: SegmentValue<T>) -> bool {
    match value {
        SegmentValue::Exact(v) => same_two(words, 0, v.word()),
        SegmentValue::CenterOf(v) => same_two(words, 1, v.word()),
        SegmentValue::Last => same_two(words, 2, 0),
    }
}

fn same_segment<T: Word>(words: &[u64], x: Result<Option<SegmentValue<T>>, Refusal>) -> bool {
    match x {
        Ok(Some(value)) => same_value(words, value),
        Ok(None) => same_nothing(words),
        Err(r) => same_refusal(words, r),
    }
}

// Whether the call of this name on segments of a whole axis answers as the line has it.
// Kept: beside `stepped`, which has the same six calls: plotters' whole segments take no method, and their marks tell a step.
pub(crate) fn plain(call: &[u8], numbers: &[u64]) -> bool {
    let segments = Segmented(whole_axis(numbers));
    let list = &mut [i32::UNSET; 64];
    match call {
        b"size" => same(after(numbers, 2), segments.size()),
        b"at" => same_segment(after(numbers, 3), segments.from_index(at(numbers, 2))),
        b"idx" => value(numbers, 2).is_some_and(|v| same_found(
            after(numbers, 4),
            segments.index_of(v),
        )),
        b"map" => value(numbers, 2).is_some_and(|v| same(
            after(numbers, 6),
            segments.map(v, limit(numbers, 4)),
        )),
        b"read" => same_segment(
            after(numbers, 5),
            segments.unmap(at(numbers, 2), limit(numbers, 3)),
        ),
        b"marks" => same_lent(
            after(numbers, 3),
            list,
            |out| marked(segments.key_points(at(numbers, 2), out)),
        ),
        _ => false,
    }
}

// The same over an axis by a step.
pub(crate) fn stepped<T: Word, A: Axis<Value = T, Way = RoundingMethod, Told = usize>>(
    call: &[u8],
    numbers: &[u64],
    axis: A,
    list: &mut [T],
) -> bool {
    let segments = Segmented(axis);
    match call {
        b"size" => same(after(numbers, 3), segments.size()),
        b"at" => same_segment(after(numbers, 4), segments.from_index(at(numbers, 3))),
        b"idx" => sought(numbers).is_some_and(|(by, v)| same_found(
            after(numbers, 6),
            segments.index_of(by, v),
        )),
        b"map" => sought(numbers).is_some_and(|(by, v)| same(
            after(numbers, 8),
            segments.map(by, v, limit(numbers, 6)),
        )),
        b"read" => same_segment(
            after(numbers, 6),
            segments.unmap(at(numbers, 3), limit(numbers, 4)),
        ),
        b"marks" => same_lent(
            after(numbers, 4),
            list,
            |out| counted(segments.key_points(at(numbers, 3), out)),
        ),
        _ => false,
    }
}

pub(crate) fn whole(call: &[u8], numbers: &[u64]) -> bool {
    stepped(call, numbers, whole_steps(numbers), &mut [i32::UNSET; 64])
}

pub(crate) fn real(call: &[u8], numbers: &[u64]) -> bool {
    stepped(call, numbers, real_steps(numbers), &mut [f64::UNSET; 64])
}
