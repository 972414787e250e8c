// The C interface: every call under its C name. include/culvraod.h documents them.
// Kept: a call for wholes beside one for reals, ends, steps and limits as numbers one by one, a length beside a list, and numbers for kinds and
// methods, as C has them.
#![tactic(auto)]

pub mod segments;

ghost use Rattle.std.specs.Prelude.{◌≡◌, ◌≤◌, pos};
ghost use Rattle.std.specs.Result.{result_ok};
ghost use Rattle.ranged1d.specs.Refusals.{number_of};
ghost use Rattle.ranged1d.specs.Answer.{given};
ghost use Rattle.ranged1d.specs.Told.{tell, tell_found};
ghost use Rattle.ranged1d.specs.Admitted.{limit_of};
ghost use Rattle.numeric.specs.Calls.{whole_key_points, index_key_points};
ghost use Rattle.numeric.specs.Directed.{whole_directed};
ghost use Rattle.numeric.specs.Whole.{whole_size, whole_index_of, whole_from_index, whole_reading};
ghost use Rattle.real.specs.Place.{whole_place, real_place};
ghost use Rattle.real.specs.Exact.{whole_exact};
ghost use Rattle.real.specs.Reading.{real_reading};
ghost use Rattle.keypoints.specs.Marks.{real_key_points};
ghost use Rattle.linspace.specs.List.{whole, real};
ghost use Rattle.linspace.specs.Calls.{step_values, step_size, step_from_index, step_index_of, step_place, step_reading, step_key_points};
ghost use Rattle.chart.specs.Chart.{chart_clear, chart_set, chart_pull};
ghost use Rattle.culvraod.specs.Steps.{list_c};
ghost use Rattle.float.specs.Calls.{label_print, label_scientific};
ghost use Rattle.search.specs.Lists.{whole_search, real_search};
ghost use Rattle.culvraod.specs.Search.{method_of, by_method};
ghost use Rattle.fixed.specs.Fixed.{fixed_print, fixed_read};
ghost use Rattle.week.specs.Week.{running_minute, clock_minute};
ghost use Rattle.ruler.specs.Rule.{ruler_write, ruler_write_inside, twisted_write, ruler_upgrade, ruler_downgrade, ruler_of, ruler_read, record_in, label_in, side_of};
ghost use Rattle.film.specs.Film.{film_write};
ghost use Rattle.ruler.specs.Shifting.{ruler_shift};
ghost use Rattle.culvraod.specs.Ruler.{read_c, read_kind_c, part_c, pair_c};
ghost use Rattle.culvraod.specs.Boundary.{code, single, double, held_c};
ghost use Rattle.culvraod.specs.Numeric.{key_points_c};

use float::FloatPrettyPrinter;
use linspace::Linspace;
use numeric::{Choice, RangedCoordf64, RangedCoordi32, RangedCoordusize};
use ranged1d::{Limit, Refusal};
use ruler::{Draft, Part};
use search::RoundingMethod;

// A search as C chooses it.
// Kept: a table. search shall know no numbers of C, and TryFrom cannot stand here: neither the trait nor the type is this crate's. Eight places match
// Ok and Err of it or of case_of by hand: tried otherwise, each call needs an answer of its own in proofs/.
fn method_of(method: u32) -> Result<RoundingMethod, Refusal>
    ensures value { result_ok result ≡ method_of method }
    ensures refusal { tell result ≡ by_method (method_of method) given }
{
    match method {
        0 => Ok(RoundingMethod::Exact),
        1 => Ok(RoundingMethod::Ceil),
        2 => Ok(RoundingMethod::Floor),
        3 => Ok(RoundingMethod::Round),
        _ => Err(Refusal::WholeNotAdmitted),
    }
}

// The number of a refusal, as every call returns it.
pub(crate) fn refused(r: Refusal) -> i32
    ensures { result ≡ pos (number_of r) }
{
    r.number() as i32
}

// What is handed out behind a pointer, and what is returned: of a call that always has something to give, of one that may have nothing, of one
// that has two things, and of one that has its answer in the lent memory alone.
pub(crate) fn give<T: Copy>(x: Result<T, Refusal>, out: &mut T) -> i32
    ensures { (result, out.new) ≡ single (tell x) out.old }
{
    match x {
        Ok(given) => {
            *out = given;
            0
        }
        Err(r) => refused(r),
    }
}

pub(crate) fn give_found<T: Copy>(x: Result<Option<T>, Refusal>, out: &mut T) -> i32
    ensures { (result, out.new) ≡ single (tell_found x) out.old }
{
    match x {
        Ok(Some(given)) => {
            *out = given;
            0
        }
        Ok(None) => -1,
        Err(r) => refused(r),
    }
}

pub(crate) fn give_two<A: Copy, B: Copy>(
    x: Result<(A, B), Refusal>,
    first: &mut A,
    second: &mut B,
) -> i32
    ensures { (result, first.new, second.new) ≡ double (tell x) first.old second.old }
{
    match x {
        Ok((given, beside)) => {
            *first = given;
            *second = beside;
            0
        }
        Err(r) => refused(r),
    }
}

fn give_done(x: Result<(), Refusal>) -> i32
    ensures { result ≡ code (tell x) }
{
    match x {
        Ok(()) => 0,
        Err(r) => refused(r),
    }
}

// Where a part of a ruler begins, and how long it is.
fn give_part(part: Part, start: &mut usize, size: &mut usize) -> i32
    requires { part.start ≤ part.end }
    ensures { (result, start.new, size.new) ≡ part_c part }
{
    *start = part.start;
    *size = part.end - part.start;
    0
}

// The axis that C names by its ends and a step.
pub(crate) fn steps_by<A: Copy, T: Copy>(inner: A, step: T) -> Linspace<A, T>
    ensures { (result.inner ≡ inner) × (result.step ≡ step) }
{
    Linspace { inner, step }
}

#[unsafe(no_mangle)]
pub extern "C" fn culv_whole_key_points(
    a: i32,
    b: i32,
    m: u32,
    out: &mut [i32],
    step: &mut i32,
    count: &mut usize,
) -> i32
    ensures { (result, out.new, step.new, count.new) ≡ key_points_c (whole_key_points a b m out.old) step.old count.old }
{
    give_two(RangedCoordi32(a, b).key_points(m, out), step, count)
}

#[unsafe(no_mangle)]
pub extern "C" fn culv_index_key_points(
    a: usize,
    b: usize,
    m: u32,
    out: &mut [usize],
    step: &mut usize,
    count: &mut usize,
) -> i32
    ensures { (result, out.new, step.new, count.new) ≡ key_points_c (index_key_points a b m out.old) step.old count.old }
{
    give_two(RangedCoordusize(a, b).key_points(m, out), step, count)
}

#[unsafe(no_mangle)]
pub extern "C" fn culv_whole_size(a: i32, b: i32, n: &mut u64) -> i32
    ensures { (result, n.new) ≡ single (whole_size a b) n.old }
{
    give(RangedCoordi32(a, b).size(), n)
}

#[unsafe(no_mangle)]
pub extern "C" fn culv_whole_index_of(a: i32, b: i32, v: i32, k: &mut u64) -> i32
    ensures { (result, k.new) ≡ single (whole_index_of a b v) k.old }
{
    give_found(RangedCoordi32(a, b).index_of(v), k)
}

#[unsafe(no_mangle)]
pub extern "C" fn culv_whole_from_index(a: i32, b: i32, k: u64, v: &mut i32) -> i32
    ensures { (result, v.new) ≡ single (whole_from_index a b k) v.old }
{
    give_found(RangedCoordi32(a, b).from_index(k), v)
}

#[unsafe(no_mangle)]
pub extern "C" fn culv_whole_unmap(a: i32, b: i32, x: i32, p: i32, q: i32, v: &mut i32) -> i32
    ensures { (result, v.new) ≡ single (whole_reading a b x (limit_of p q)) v.old }
{
    give_found(RangedCoordi32(a, b).unmap(x, Limit(p, q)), v)
}

#[unsafe(no_mangle)]
pub extern "C" fn culv_whole_unmap_directed(
    a: i32,
    b: i32,
    x: i32,
    p: i32,
    q: i32,
    v: &mut i32,
) -> i32
    ensures { (result, v.new) ≡ single (whole_directed a b x (limit_of p q)) v.old }
{
    give_found(RangedCoordi32(a, b).unmap_directed(x, Limit(p, q)), v)
}

#[unsafe(no_mangle)]
pub extern "C" fn culv_whole_map(a: i32, b: i32, v: i32, p: i32, q: i32, pixel: &mut i32) -> i32
    ensures { (result, pixel.new) ≡ single (whole_place a b v (limit_of p q)) pixel.old }
{
    give(RangedCoordi32(a, b).map(v, Limit(p, q)), pixel)
}

#[unsafe(no_mangle)]
pub extern "C" fn culv_whole_map_exact(
    a: i32,
    b: i32,
    v: i32,
    p: i32,
    q: i32,
    quotient: &mut u32,
    remainder: &mut u32,
) -> i32
    ensures { (result, quotient.new, remainder.new) ≡ double (whole_exact a b v (limit_of p q)) quotient.old remainder.old }
{
    give_two(
        RangedCoordi32(a, b).map_exact(v, Limit(p, q)),
        quotient,
        remainder,
    )
}

#[unsafe(no_mangle)]
pub extern "C" fn culv_real_map(a: f64, b: f64, v: f64, p: i32, q: i32, pixel: &mut i32) -> i32
    ensures { (result, pixel.new) ≡ single (real_place a b v (limit_of p q)) pixel.old }
{
    give(RangedCoordf64(a, b).map(v, Limit(p, q)), pixel)
}

#[unsafe(no_mangle)]
pub extern "C" fn culv_real_unmap(a: f64, b: f64, x: i32, p: i32, q: i32, v: &mut f64) -> i32
    ensures { (result, v.new) ≡ single (real_reading a b x (limit_of p q)) v.old }
{
    give_found(RangedCoordf64(a, b).unmap(x, Limit(p, q)), v)
}

#[unsafe(no_mangle)]
pub extern "C" fn culv_real_key_points(
    a: f64,
    b: f64,
    m: u32,
    out: &mut [f64],
    count: &mut usize,
) -> i32
    ensures { (result, out.new, count.new) ≡ list_c (real_key_points a b m out.old) count.old }
{
    give(RangedCoordf64(a, b).key_points(m, out), count)
}

// What a ruler is drawn for, as C names it.
fn draft(a: i32, b: i32, p: i32, q: i32, m: u32, choice: Choice) -> Draft
    ensures { result ≡ record { a = a; b = b; limit = limit_of p q; m = m; choice = choice } }
{
    Draft {
        a,
        b,
        limit: Limit(p, q),
        m,
        choice,
    }
}

#[unsafe(no_mangle)]
pub extern "C" fn culv_ruler_write(
    a: i32,
    b: i32,
    p: i32,
    q: i32,
    m: u32,
    out: &mut [u8],
    bytes: &mut usize,
    marks: &mut usize,
) -> i32
    ensures { (result, out.new, bytes.new, marks.new) ≡ key_points_c (ruler_write a b (limit_of p q) m out.old) bytes.old marks.old }
{
    let whole = draft(a, b, p, q, m, Choice::Cut);
    give_two(whole.write(out), bytes, marks)
}

#[unsafe(no_mangle)]
pub extern "C" fn culv_ruler_write_inside(
    a: i32,
    b: i32,
    p: i32,
    q: i32,
    m: u32,
    out: &mut [u8],
    bytes: &mut usize,
    marks: &mut usize,
) -> i32
    ensures { (result, out.new, bytes.new, marks.new) ≡ key_points_c (ruler_write_inside a b (limit_of p q) m out.old) bytes.old marks.old }
{
    let inside = draft(a, b, p, q, m, Choice::Inside);
    give_two(inside.write(out), bytes, marks)
}

#[unsafe(no_mangle)]
pub extern "C" fn culv_ruler_write_twisted(
    a: i32,
    b: i32,
    p: i32,
    q: i32,
    m: u32,
    twist: u32,
    out: &mut [u8],
    bytes: &mut usize,
    marks: &mut usize,
) -> i32
    ensures { (result, out.new, bytes.new, marks.new) ≡ key_points_c (twisted_write Choice.Cut twist a b (limit_of p q) m out.old) bytes.old marks.old }
{
    let whole = draft(a, b, p, q, m, Choice::Cut);
    give_two(whole.write_twisted(twist, out), bytes, marks)
}

#[unsafe(no_mangle)]
pub extern "C" fn culv_ruler_write_inside_twisted(
    a: i32,
    b: i32,
    p: i32,
    q: i32,
    m: u32,
    twist: u32,
    out: &mut [u8],
    bytes: &mut usize,
    marks: &mut usize,
) -> i32
    ensures { (result, out.new, bytes.new, marks.new) ≡ key_points_c (twisted_write Choice.Inside twist a b (limit_of p q) m out.old) bytes.old marks.old }
{
    let inside = draft(a, b, p, q, m, Choice::Inside);
    give_two(inside.write_twisted(twist, out), bytes, marks)
}

#[unsafe(no_mangle)]
pub extern "C" fn culv_film_write(
    borders: &[i32],
    m: u32,
    out: &mut [u8],
    bytes: &mut usize,
    marks: &mut usize,
) -> i32
    ensures { (result, out.new, bytes.new, marks.new) ≡ key_points_c (film_write borders.now m out.old) bytes.old marks.old }
{
    give_two(film::write(borders, m, out), bytes, marks)
}

#[unsafe(no_mangle)]
pub extern "C" fn culv_ruler_upgrade(bytes: &[u8], out: &mut [u8], written: &mut usize) -> i32
    ensures { (result, out.new, written.new) ≡ list_c (ruler_upgrade bytes.now out.old) written.old }
{
    give(ruler::upgrade(bytes, out), written)
}

#[unsafe(no_mangle)]
pub extern "C" fn culv_ruler_downgrade(bytes: &[u8], out: &mut [u8], written: &mut usize) -> i32
    ensures { (result, out.new, written.new) ≡ list_c (ruler_downgrade bytes.now out.old) written.old }
{
    give(ruler::downgrade(bytes, out), written)
}

// Moves the film limits of the ruler in the bytes by c, where it lies.
#[unsafe(no_mangle)]
pub extern "C" fn culv_ruler_shift(bytes: &mut [u8], c: i32) -> i32
    ensures { (result, bytes.new) ≡ held_c (ruler_shift c bytes.old) }
{
    give_done(ruler::shift(bytes, c))
}

// The numbers of the ruler in the bytes, its kind, and its twist: 0 where the kind has none.
#[unsafe(no_mangle)]
pub extern "C" fn culv_ruler_read_kind(
    bytes: &[u8],
    a: &mut i32,
    b: &mut i32,
    p: &mut i32,
    q: &mut i32,
    m: &mut u32,
    step: &mut i32,
    marks: &mut usize,
    kind: &mut u32,
    twist: &mut u32,
) -> i32
    ensures { (result, a.new, b.new, p.new, q.new, m.new, step.new, marks.new, kind.new, twist.new) ≡ read_kind_c (ruler_read bytes.now) (ruler_of a.old b.old (limit_of p.old q.old) m.old step.old marks.old) kind.old twist.old }
{
    match ruler::read(bytes) {
        Ok(r) => {
            *a = r.a;
            *b = r.b;
            *p = r.limit.0;
            *q = r.limit.1;
            *m = r.m;
            *step = r.step;
            *marks = r.marks;
            *kind = u32::from(r.form.kind());
            *twist = u32::from(r.form.twist.number());
            0
        }
        Err(why) => refused(why),
    }
}

// The same without kind and twist.
#[unsafe(no_mangle)]
pub extern "C" fn culv_ruler_read(
    bytes: &[u8],
    a: &mut i32,
    b: &mut i32,
    p: &mut i32,
    q: &mut i32,
    m: &mut u32,
    step: &mut i32,
    marks: &mut usize,
) -> i32
    ensures { (result, a.new, b.new, p.new, q.new, m.new, step.new, marks.new) ≡ read_c (ruler_read bytes.now) (ruler_of a.old b.old (limit_of p.old q.old) m.old step.old marks.old) }
{
    let mut kind: u32 = 0;
    let mut twist: u32 = 0;
    culv_ruler_read_kind(bytes, a, b, p, q, m, step, marks, &mut kind, &mut twist)
}

#[unsafe(no_mangle)]
pub extern "C" fn culv_ruler_label(
    bytes: &[u8],
    value: i32,
    start: &mut usize,
    size: &mut usize,
) -> i32
    ensures { (result, start.new, size.new) ≡ part_c (label_in bytes.now value) }
{
    give_part(ruler::find_label(bytes, value), start, size)
}

#[unsafe(no_mangle)]
pub extern "C" fn culv_ruler_pair(
    left: &[u8],
    right: &[u8],
    value: i32,
    which: &mut u32,
    start: &mut usize,
    size: &mut usize,
) -> i32
    ensures { (result, which.new, start.new, size.new) ≡ pair_c value (record_in (side_of value left.now right.now) value) }
{
    let (side, bytes) = if value < 0 { (0, left) } else { (1, right) };
    *which = side;
    give_part(ruler::find_record(bytes, value), start, size)
}

#[unsafe(no_mangle)]
pub extern "C" fn culv_search_whole(list: &[i32], target: i32, method: u32, k: &mut u64) -> i32
    ensures { (result, k.new) ≡ single (by_method (method_of method) (whole_search list.now target)) k.old }
{
    match method_of(method) {
        Ok(m) => give_found(search::search_whole(list, target, m), k),
        Err(r) => refused(r),
    }
}

#[unsafe(no_mangle)]
pub extern "C" fn culv_search_real(list: &[f64], target: f64, method: u32, k: &mut u64) -> i32
    ensures { (result, k.new) ≡ single (by_method (method_of method) (real_search list.now target)) k.old }
{
    match method_of(method) {
        Ok(m) => give_found(search::search_real(list, target, m), k),
        Err(r) => refused(r),
    }
}

#[unsafe(no_mangle)]
pub extern "C" fn culv_step_whole_values(
    a: i32,
    b: i32,
    d: i32,
    out: &mut [i32],
    count: &mut usize,
) -> i32
    ensures { (result, out.new, count.new) ≡ list_c (step_values whole a b d out.old) count.old }
{
    let wholes = steps_by(RangedCoordi32(a, b), d);
    give(wholes.values(out), count)
}

#[unsafe(no_mangle)]
pub extern "C" fn culv_step_whole_size(a: i32, b: i32, d: i32, n: &mut u64) -> i32
    ensures { (result, n.new) ≡ single (step_size whole a b d) n.old }
{
    let wholes = steps_by(RangedCoordi32(a, b), d);
    give(wholes.size(), n)
}

#[unsafe(no_mangle)]
pub extern "C" fn culv_step_whole_from_index(a: i32, b: i32, d: i32, k: u64, v: &mut i32) -> i32
    ensures { (result, v.new) ≡ single (step_from_index whole a b d k) v.old }
{
    let wholes = steps_by(RangedCoordi32(a, b), d);
    give_found(wholes.from_index(k), v)
}

#[unsafe(no_mangle)]
pub extern "C" fn culv_step_whole_index_of(
    a: i32,
    b: i32,
    d: i32,
    v: i32,
    method: u32,
    k: &mut u64,
) -> i32
    ensures { (result, k.new) ≡ single (by_method (method_of method) (step_index_of whole a b d v)) k.old }
{
    let wholes = steps_by(RangedCoordi32(a, b), d);
    match method_of(method) {
        Ok(m) => give_found(wholes.index_of(v, m), k),
        Err(r) => refused(r),
    }
}

#[unsafe(no_mangle)]
pub extern "C" fn culv_step_whole_map(
    a: i32,
    b: i32,
    d: i32,
    v: i32,
    p: i32,
    q: i32,
    pixel: &mut i32,
) -> i32
    ensures { (result, pixel.new) ≡ single (step_place whole a b d v (limit_of p q)) pixel.old }
{
    let wholes = steps_by(RangedCoordi32(a, b), d);
    give(wholes.map(v, Limit(p, q)), pixel)
}

#[unsafe(no_mangle)]
pub extern "C" fn culv_step_whole_unmap(
    a: i32,
    b: i32,
    d: i32,
    x: i32,
    p: i32,
    q: i32,
    v: &mut i32,
) -> i32
    ensures { (result, v.new) ≡ single (step_reading whole a b d x (limit_of p q)) v.old }
{
    let wholes = steps_by(RangedCoordi32(a, b), d);
    give_found(wholes.unmap(x, Limit(p, q)), v)
}

#[unsafe(no_mangle)]
pub extern "C" fn culv_step_whole_key_points(
    a: i32,
    b: i32,
    d: i32,
    m: u32,
    out: &mut [i32],
    count: &mut usize,
) -> i32
    ensures { (result, out.new, count.new) ≡ list_c (step_key_points whole a b d m out.old) count.old }
{
    let wholes = steps_by(RangedCoordi32(a, b), d);
    give(wholes.key_points(m, out), count)
}

#[unsafe(no_mangle)]
pub extern "C" fn culv_step_real_values(
    a: f64,
    b: f64,
    d: f64,
    out: &mut [f64],
    count: &mut usize,
) -> i32
    ensures { (result, out.new, count.new) ≡ list_c (step_values real a b d out.old) count.old }
{
    let reals = steps_by(RangedCoordf64(a, b), d);
    give(reals.values(out), count)
}

#[unsafe(no_mangle)]
pub extern "C" fn culv_step_real_size(a: f64, b: f64, d: f64, n: &mut u64) -> i32
    ensures { (result, n.new) ≡ single (step_size real a b d) n.old }
{
    let reals = steps_by(RangedCoordf64(a, b), d);
    give(reals.size(), n)
}

#[unsafe(no_mangle)]
pub extern "C" fn culv_step_real_from_index(a: f64, b: f64, d: f64, k: u64, v: &mut f64) -> i32
    ensures { (result, v.new) ≡ single (step_from_index real a b d k) v.old }
{
    let reals = steps_by(RangedCoordf64(a, b), d);
    give_found(reals.from_index(k), v)
}

#[unsafe(no_mangle)]
pub extern "C" fn culv_step_real_index_of(
    a: f64,
    b: f64,
    d: f64,
    v: f64,
    method: u32,
    k: &mut u64,
) -> i32
    ensures { (result, k.new) ≡ single (by_method (method_of method) (step_index_of real a b d v)) k.old }
{
    let reals = steps_by(RangedCoordf64(a, b), d);
    match method_of(method) {
        Ok(m) => give_found(reals.index_of(v, m), k),
        Err(r) => refused(r),
    }
}

#[unsafe(no_mangle)]
pub extern "C" fn culv_step_real_map(
    a: f64,
    b: f64,
    d: f64,
    v: f64,
    p: i32,
    q: i32,
    pixel: &mut i32,
) -> i32
    ensures { (result, pixel.new) ≡ single (step_place real a b d v (limit_of p q)) pixel.old }
{
    let reals = steps_by(RangedCoordf64(a, b), d);
    give(reals.map(v, Limit(p, q)), pixel)
}

#[unsafe(no_mangle)]
pub extern "C" fn culv_step_real_unmap(
    a: f64,
    b: f64,
    d: f64,
    x: i32,
    p: i32,
    q: i32,
    v: &mut f64,
) -> i32
    ensures { (result, v.new) ≡ single (step_reading real a b d x (limit_of p q)) v.old }
{
    let reals = steps_by(RangedCoordf64(a, b), d);
    give_found(reals.unmap(x, Limit(p, q)), v)
}

#[unsafe(no_mangle)]
pub extern "C" fn culv_step_real_key_points(
    a: f64,
    b: f64,
    d: f64,
    m: u32,
    out: &mut [f64],
    count: &mut usize,
) -> i32
    ensures { (result, out.new, count.new) ≡ list_c (step_key_points real a b d m out.old) count.old }
{
    let reals = steps_by(RangedCoordf64(a, b), d);
    give(reals.key_points(m, out), count)
}

#[unsafe(no_mangle)]
pub extern "C" fn culv_chart_clear(a: i32, b: i32, d: i32, counts: &mut [u16]) -> i32
    ensures { (result, counts.new) ≡ held_c (chart_clear a b d counts.old) }
{
    let wholes = steps_by(RangedCoordi32(a, b), d);
    give_done(chart::clear(wholes, counts))
}

#[unsafe(no_mangle)]
pub extern "C" fn culv_chart_set(a: i32, b: i32, d: i32, pin: i32, counts: &mut [u16]) -> i32
    ensures { (result, counts.new) ≡ held_c (chart_set a b d pin counts.old) }
{
    let wholes = steps_by(RangedCoordi32(a, b), d);
    give_done(chart::set(wholes, pin, counts))
}

#[unsafe(no_mangle)]
pub extern "C" fn culv_chart_pull(a: i32, b: i32, d: i32, pin: i32, counts: &mut [u16]) -> i32
    ensures { (result, counts.new) ≡ held_c (chart_pull a b d pin counts.old) }
{
    let wholes = steps_by(RangedCoordi32(a, b), d);
    give_done(chart::pull(wholes, pin, counts))
}

// The printer of labels that C names by its decimals.
fn printer(max_decimal: u32, min_decimal: u32) -> FloatPrettyPrinter
    ensures { (result.max_decimal ≡ max_decimal) × (result.min_decimal ≡ min_decimal) }
{
    FloatPrettyPrinter {
        min_decimal,
        max_decimal,
    }
}

#[unsafe(no_mangle)]
pub extern "C" fn culv_label(
    n: f64,
    max_decimal: u32,
    min_decimal: u32,
    out: &mut [u8],
    written: &mut usize,
) -> i32
    ensures { (result, out.new, written.new) ≡ list_c (label_print n max_decimal min_decimal out.old) written.old }
{
    give(printer(max_decimal, min_decimal).print(n, out), written)
}

#[unsafe(no_mangle)]
pub extern "C" fn culv_label_scientific(
    n: f64,
    max_decimal: u32,
    min_decimal: u32,
    out: &mut [u8],
    written: &mut usize,
) -> i32
    ensures { (result, out.new, written.new) ≡ list_c (label_scientific n max_decimal min_decimal out.old) written.old }
{
    give(
        printer(max_decimal, min_decimal).print_scientific(n, out),
        written,
    )
}

#[unsafe(no_mangle)]
pub extern "C" fn culv_decimal_print(x: i32, f: u32, out: &mut [u8], written: &mut usize) -> i32
    ensures { (result, out.new, written.new) ≡ list_c (fixed_print x f out.old) written.old }
{
    give(fixed::print(x, f, out), written)
}

#[unsafe(no_mangle)]
pub extern "C" fn culv_decimal_read(text: &[u8], f: u32, x: &mut i32) -> i32
    ensures { (result, x.new) ≡ single (fixed_read text.now f) x.old }
{
    give(fixed::read(text, f), x)
}

#[unsafe(no_mangle)]
pub extern "C" fn culv_week_running(windows: &[u32], clock: u32, running: &mut u32) -> i32
    ensures { (result, running.new) ≡ single (running_minute windows.now clock) running.old }
{
    give_found(week::running(windows, clock), running)
}

#[unsafe(no_mangle)]
pub extern "C" fn culv_week_clock(windows: &[u32], running: u32, clock: &mut u32) -> i32
    ensures { (result, clock.new) ≡ single (clock_minute windows.now running) clock.old }
{
    give_found(week::clock(windows, running), clock)
}
