// Lines on key points: A B M 0 STEP COUNT MARK .., or A B M R where the call is refused with R. On a real axis M is followed by the length of
// the lent list, and no step is told.
use crate::bits::{Word, after, at};
use crate::calls::{real_axis, whole_axis};
use crate::lists::{counted, marked, same_lent, same_list};
use numeric::RangedCoordusize;

pub(crate) fn whole(numbers: &[u64]) -> bool {
    let mut list = [i32::UNSET; 64];
    let told = whole_axis(numbers).key_points(at(numbers, 2), &mut list);
    same_list(after(numbers, 3), marked(told), &list)
}

pub(crate) fn index(numbers: &[u64]) -> bool {
    let axis = RangedCoordusize(at(numbers, 0), at(numbers, 1));
    let mut list = [usize::UNSET; 64];
    let told = axis.key_points(at(numbers, 2), &mut list);
    same_list(after(numbers, 3), marked(told), &list)
}

pub(crate) fn real(numbers: &[u64]) -> bool {
    let axis = real_axis(numbers);
    let list = &mut [f64::UNSET; 64];
    same_lent(
        after(numbers, 3),
        list,
        |out| counted(axis.key_points(at(numbers, 2), out)),
    )
}
