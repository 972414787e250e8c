// The C calls on segments: every call under its C name. include/culvraod.h documents them.
// Kept: a call for each kind of axis, and numbers one by one: the head of lib.rt says why.
ghost use Rattle.std.specs.Prelude.{◌≡◌, pos, length};
ghost use Rattle.ranged1d.specs.Answer.{and_then};
ghost use Rattle.ranged1d.specs.Told.{tell, tell_found};
ghost use Rattle.ranged1d.specs.Admitted.{limit_of};
ghost use Rattle.numeric.specs.Marks.{marks, step_of};
ghost use Rattle.linspace.specs.List.{whole, real};
ghost use Rattle.linspace.specs.Calls.{step_marks};
ghost use Rattle.segmented.specs.Segments.{segment_size, segment_place, segment_index_of, segment_from_index, segment_reading, segment_key_points};
ghost use Rattle.segmented.specs.Axes.{whole_axis, whole_finder, stepped_axis, stepped_finder};
ghost use Rattle.culvraod.specs.Boundary.{single};
ghost use Rattle.culvraod.specs.Numeric.{key_points_c};
ghost use Rattle.culvraod.specs.Search.{method_of, by_method};
ghost use Rattle.culvraod.specs.Segments.{case_of, nil, kind_of, carried, segment_c};
ghost use Rattle.culvraod.specs.Steps.{list_c};

use crate::{give, give_found, give_two, method_of, refused, steps_by};
use numeric::{RangedCoordf64, RangedCoordi32};
use ranged1d::{Limit, Refusal};
use search::RoundingMethod;
use segmented::{Axis, SegmentValue, Segmented};

// A value of segments as C writes it.
// Kept: tables both ways, as method_of; TryFrom would take the pair and could not stand here either, and a case that carries a value has no number.
fn case_of<T: Copy>(kind: u32, v: T) -> Result<SegmentValue<T>, Refusal>
    ensures { tell result ≡ case_of kind v }
{
    match kind {
        0 => Ok(SegmentValue::Exact(v)),
        1 => Ok(SegmentValue::CenterOf(v)),
        2 => Ok(SegmentValue::Last),
        _ => Err(Refusal::WholeNotAdmitted),
    }
}

// The two numbers of a value; Last comes with `nil`.
fn numbers<T: Copy>(s: SegmentValue<T>, nil: T) -> (u32, T)
    ensures { result ≡ (kind_of s, carried nil s) }
{
    match s {
        SegmentValue::Exact(v) => (0, v),
        SegmentValue::CenterOf(v) => (1, v),
        SegmentValue::Last => (2, nil),
    }
}

fn give_segment<T: Copy>(
    x: Result<Option<SegmentValue<T>>, Refusal>,
    nil: T,
    kind: &mut u32,
    v: &mut T,
) -> i32
    ensures { (result, kind.new, v.new) ≡ segment_c nil (tell_found x) kind.old v.old }
{
    match x {
        Ok(Some(s)) => {
            let (case, carried) = numbers(s, nil);
            *kind = case;
            *v = carried;
            0
        }
        Ok(None) => -1,
        Err(r) => refused(r),
    }
}

// The calls on segments of a stepped axis whose value C writes as its two numbers.
fn give_place<A: Axis<Way = RoundingMethod>>(
    axis: A,
    method: u32,
    kind: u32,
    v: A::Value,
    limit: Limit,
    pixel: &mut i32,
) -> i32
    ensures { (result, pixel.new) ≡ single (by_method (method_of method) (λ m. and_then (case_of kind v) (λ s. segment_place (A.axis axis) (A.finder axis m) s limit))) pixel.old }
{
    match (method_of(method), case_of(kind, v)) {
        (Ok(m), Ok(s)) => give(Segmented(axis).map(m, s, limit), pixel),
        (Err(r), _) | (_, Err(r)) => refused(r),
    }
}

fn give_index<A: Axis<Way = RoundingMethod>>(
    axis: A,
    method: u32,
    kind: u32,
    v: A::Value,
    k: &mut u64,
) -> i32
    ensures { (result, k.new) ≡ single (by_method (method_of method) (λ m. and_then (case_of kind v) (segment_index_of (A.axis axis) (A.finder axis m)))) k.old }
{
    match (method_of(method), case_of(kind, v)) {
        (Ok(m), Ok(s)) => give_found(Segmented(axis).index_of(m, s), k),
        (Err(r), _) | (_, Err(r)) => refused(r),
    }
}

// The calls that answer with a value of segments, over an axis of any kind.
fn give_value<A: Axis>(axis: A, k: u64, nil: A::Value, kind: &mut u32, v: &mut A::Value) -> i32
    ensures { (result, kind.new, v.new) ≡ segment_c nil (segment_from_index (A.axis axis) k) kind.old v.old }
{
    give_segment(Segmented(axis).from_index(k), nil, kind, v)
}

fn give_reading<A: Axis>(
    axis: A,
    x: i32,
    limit: Limit,
    nil: A::Value,
    kind: &mut u32,
    v: &mut A::Value,
) -> i32
    ensures { (result, kind.new, v.new) ≡ segment_c nil (segment_reading (A.axis axis) x limit) kind.old v.old }
{
    give_segment(Segmented(axis).unmap(x, limit), nil, kind, v)
}

#[unsafe(no_mangle)]
pub extern "C" fn culv_seg_whole_size(a: i32, b: i32, n: &mut u64) -> i32
    ensures { (result, n.new) ≡ single (segment_size (whole_axis a b)) n.old }
{
    let wholes = Segmented(RangedCoordi32(a, b));
    give(wholes.size(), n)
}

#[unsafe(no_mangle)]
pub extern "C" fn culv_seg_whole_map(
    a: i32,
    b: i32,
    kind: u32,
    v: i32,
    p: i32,
    q: i32,
    pixel: &mut i32,
) -> i32
    ensures { (result, pixel.new) ≡ single (and_then (case_of kind v) (λ s. segment_place (whole_axis a b) (whole_finder a) s (limit_of p q))) pixel.old }
{
    let wholes = Segmented(RangedCoordi32(a, b));
    match case_of(kind, v) {
        Ok(s) => give(wholes.map(s, Limit(p, q)), pixel),
        Err(r) => refused(r),
    }
}

#[unsafe(no_mangle)]
pub extern "C" fn culv_seg_whole_index_of(a: i32, b: i32, kind: u32, v: i32, k: &mut u64) -> i32
    ensures { (result, k.new) ≡ single (and_then (case_of kind v) (segment_index_of (whole_axis a b) (whole_finder a))) k.old }
{
    let wholes = Segmented(RangedCoordi32(a, b));
    match case_of(kind, v) {
        Ok(s) => give_found(wholes.index_of(s), k),
        Err(r) => refused(r),
    }
}

#[unsafe(no_mangle)]
pub extern "C" fn culv_seg_whole_from_index(
    a: i32,
    b: i32,
    k: u64,
    kind: &mut u32,
    v: &mut i32,
) -> i32
    ensures { (result, kind.new, v.new) ≡ segment_c (pos 0) (segment_from_index (whole_axis a b) k) kind.old v.old }
{
    let wholes = RangedCoordi32(a, b);
    give_value(wholes, k, 0, kind, v)
}

#[unsafe(no_mangle)]
pub extern "C" fn culv_seg_whole_unmap(
    a: i32,
    b: i32,
    x: i32,
    p: i32,
    q: i32,
    kind: &mut u32,
    v: &mut i32,
) -> i32
    ensures { (result, kind.new, v.new) ≡ segment_c (pos 0) (segment_reading (whole_axis a b) x (limit_of p q)) kind.old v.old }
{
    let wholes = RangedCoordi32(a, b);
    give_reading(wholes, x, Limit(p, q), 0, kind, v)
}

#[unsafe(no_mangle)]
pub extern "C" fn culv_seg_whole_key_points(
    a: i32,
    b: i32,
    m: u32,
    out: &mut [i32],
    step: &mut i32,
    count: &mut usize,
) -> i32
    ensures { (result, out.new, step.new, count.new) ≡ key_points_c (segment_key_points (whole_axis a b) (pos (step_of a b m), length (marks a b m)) m out.old) step.old count.old }
{
    let wholes = Segmented(RangedCoordi32(a, b));
    give_two(wholes.key_points(m, out), step, count)
}

#[unsafe(no_mangle)]
pub extern "C" fn culv_seg_step_whole_size(a: i32, b: i32, d: i32, n: &mut u64) -> i32
    ensures { (result, n.new) ≡ single (segment_size (stepped_axis whole a b d)) n.old }
{
    let steps = Segmented(steps_by(RangedCoordi32(a, b), d));
    give(steps.size(), n)
}

#[unsafe(no_mangle)]
pub extern "C" fn culv_seg_step_whole_map(
    a: i32,
    b: i32,
    d: i32,
    method: u32,
    kind: u32,
    v: i32,
    p: i32,
    q: i32,
    pixel: &mut i32,
) -> i32
    ensures { (result, pixel.new) ≡ single (by_method (method_of method) (λ m. and_then (case_of kind v) (λ s. segment_place (stepped_axis whole a b d) (stepped_finder whole a b d m) s (limit_of p q)))) pixel.old }
{
    let steps = steps_by(RangedCoordi32(a, b), d);
    give_place(steps, method, kind, v, Limit(p, q), pixel)
}

#[unsafe(no_mangle)]
pub extern "C" fn culv_seg_step_whole_index_of(
    a: i32,
    b: i32,
    d: i32,
    method: u32,
    kind: u32,
    v: i32,
    k: &mut u64,
) -> i32
    ensures { (result, k.new) ≡ single (by_method (method_of method) (λ m. and_then (case_of kind v) (segment_index_of (stepped_axis whole a b d) (stepped_finder whole a b d m)))) k.old }
{
    let steps = steps_by(RangedCoordi32(a, b), d);
    give_index(steps, method, kind, v, k)
}

#[unsafe(no_mangle)]
pub extern "C" fn culv_seg_step_whole_from_index(
    a: i32,
    b: i32,
    d: i32,
    k: u64,
    kind: &mut u32,
    v: &mut i32,
) -> i32
    ensures { (result, kind.new, v.new) ≡ segment_c (pos 0) (segment_from_index (stepped_axis whole a b d) k) kind.old v.old }
{
    let steps = steps_by(RangedCoordi32(a, b), d);
    give_value(steps, k, 0, kind, v)
}

#[unsafe(no_mangle)]
pub extern "C" fn culv_seg_step_whole_unmap(
    a: i32,
    b: i32,
    d: i32,
    x: i32,
    p: i32,
    q: i32,
    kind: &mut u32,
    v: &mut i32,
) -> i32
    ensures { (result, kind.new, v.new) ≡ segment_c (pos 0) (segment_reading (stepped_axis whole a b d) x (limit_of p q)) kind.old v.old }
{
    let steps = steps_by(RangedCoordi32(a, b), d);
    give_reading(steps, x, Limit(p, q), 0, kind, v)
}

#[unsafe(no_mangle)]
pub extern "C" fn culv_seg_step_whole_key_points(
    a: i32,
    b: i32,
    d: i32,
    m: u32,
    out: &mut [i32],
    count: &mut usize,
) -> i32
    ensures { (result, out.new, count.new) ≡ list_c (segment_key_points (stepped_axis whole a b d) (length (step_marks whole a b d m)) m out.old) count.old }
{
    let steps = Segmented(steps_by(RangedCoordi32(a, b), d));
    give(steps.key_points(m, out), count)
}

#[unsafe(no_mangle)]
pub extern "C" fn culv_seg_step_real_size(a: f64, b: f64, d: f64, n: &mut u64) -> i32
    ensures { (result, n.new) ≡ single (segment_size (stepped_axis real a b d)) n.old }
{
    let reals = Segmented(steps_by(RangedCoordf64(a, b), d));
    give(reals.size(), n)
}

#[unsafe(no_mangle)]
pub extern "C" fn culv_seg_step_real_map(
    a: f64,
    b: f64,
    d: f64,
    method: u32,
    kind: u32,
    v: f64,
    p: i32,
    q: i32,
    pixel: &mut i32,
) -> i32
    ensures { (result, pixel.new) ≡ single (by_method (method_of method) (λ m. and_then (case_of kind v) (λ s. segment_place (stepped_axis real a b d) (stepped_finder real a b d m) s (limit_of p q)))) pixel.old }
{
    let reals = steps_by(RangedCoordf64(a, b), d);
    give_place(reals, method, kind, v, Limit(p, q), pixel)
}

#[unsafe(no_mangle)]
pub extern "C" fn culv_seg_step_real_index_of(
    a: f64,
    b: f64,
    d: f64,
    method: u32,
    kind: u32,
    v: f64,
    k: &mut u64,
) -> i32
    ensures { (result, k.new) ≡ single (by_method (method_of method) (λ m. and_then (case_of kind v) (segment_index_of (stepped_axis real a b d) (stepped_finder real a b d m)))) k.old }
{
    let reals = steps_by(RangedCoordf64(a, b), d);
    give_index(reals, method, kind, v, k)
}

#[unsafe(no_mangle)]
pub extern "C" fn culv_seg_step_real_from_index(
    a: f64,
    b: f64,
    d: f64,
    k: u64,
    kind: &mut u32,
    v: &mut f64,
) -> i32
    ensures { (result, kind.new, v.new) ≡ segment_c nil (segment_from_index (stepped_axis real a b d) k) kind.old v.old }
{
    let reals = steps_by(RangedCoordf64(a, b), d);
    give_value(reals, k, 0.0, kind, v)
}

#[unsafe(no_mangle)]
pub extern "C" fn culv_seg_step_real_unmap(
    a: f64,
    b: f64,
    d: f64,
    x: i32,
    p: i32,
    q: i32,
    kind: &mut u32,
    v: &mut f64,
) -> i32
    ensures { (result, kind.new, v.new) ≡ segment_c nil (segment_reading (stepped_axis real a b d) x (limit_of p q)) kind.old v.old }
{
    let reals = steps_by(RangedCoordf64(a, b), d);
    give_reading(reals, x, Limit(p, q), 0.0, kind, v)
}

#[unsafe(no_mangle)]
pub extern "C" fn culv_seg_step_real_key_points(
    a: f64,
    b: f64,
    d: f64,
    m: u32,
    out: &mut [f64],
    count: &mut usize,
) -> i32
    ensures { (result, out.new, count.new) ≡ list_c (segment_key_points (stepped_axis real a b d) (length (step_marks real a b d m)) m out.old) count.old }
{
    let reals = Segmented(steps_by(RangedCoordf64(a, b), d));
    give(reals.key_points(m, out), count)
}
