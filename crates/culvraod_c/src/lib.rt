// The static library that C links: each call of crates/culvraod under its C name, with the promise that it has there.
// Kept: each call again, since a static library exports its own functions alone.
#![tactic(auto)]

mod segments;

ghost use Rattle.std.specs.Prelude.{◌≡◌};
ghost use Rattle.ranged1d.specs.Admitted.{limit_of};
ghost use Rattle.numeric.specs.Calls.{whole_key_points, index_key_points};
ghost use Rattle.numeric.specs.Directed.{whole_directed};
ghost use Rattle.numeric.specs.Whole.{whole_size, whole_index_of, whole_from_index, whole_reading};
ghost use Rattle.real.specs.Place.{whole_place, real_place};
ghost use Rattle.real.specs.Exact.{whole_exact};
ghost use Rattle.real.specs.Reading.{real_reading};
ghost use Rattle.keypoints.specs.Marks.{real_key_points};
ghost use Rattle.linspace.specs.List.{whole, real};
ghost use Rattle.linspace.specs.Calls.{step_values, step_size, step_from_index, step_index_of, step_place, step_reading, step_key_points};
ghost use Rattle.chart.specs.Chart.{chart_clear, chart_set, chart_pull};
ghost use Rattle.culvraod.specs.Steps.{list_c};
ghost use Rattle.float.specs.Calls.{label_print, label_scientific};
ghost use Rattle.search.specs.Lists.{whole_search, real_search};
ghost use Rattle.culvraod.specs.Search.{method_of, by_method};
ghost use Rattle.fixed.specs.Fixed.{fixed_print, fixed_read};
ghost use Rattle.week.specs.Week.{running_minute, clock_minute};
ghost use Rattle.ruler.specs.Rule.{ruler_write, ruler_write_inside, twisted_write, ruler_upgrade, ruler_downgrade, ruler_of, ruler_read, record_in, label_in, side_of};
ghost use Rattle.film.specs.Film.{film_write};
ghost use Rattle.ruler.specs.Shifting.{ruler_shift};
ghost use Rattle.culvraod.specs.Ruler.{read_c, read_kind_c, part_c, pair_c};
ghost use Rattle.culvraod.specs.Boundary.{single, double, held_c};
ghost use Rattle.culvraod.specs.Numeric.{key_points_c};

use numeric::Choice;

#[unsafe(no_mangle)]
pub extern "C" fn culv_whole_key_points(
    a: i32,
    b: i32,
    m: u32,
    out: &mut [i32],
    step: &mut i32,
    count: &mut usize,
) -> i32
    ensures { (result, out.new, step.new, count.new) ≡ key_points_c (whole_key_points a b m out.old) step.old count.old }
{
    culvraod::culv_whole_key_points(a, b, m, out, step, count)
}

#[unsafe(no_mangle)]
pub extern "C" fn culv_index_key_points(
    a: usize,
    b: usize,
    m: u32,
    out: &mut [usize],
    step: &mut usize,
    count: &mut usize,
) -> i32
    ensures { (result, out.new, step.new, count.new) ≡ key_points_c (index_key_points a b m out.old) step.old count.old }
{
    culvraod::culv_index_key_points(a, b, m, out, step, count)
}

#[unsafe(no_mangle)]
pub extern "C" fn culv_whole_size(a: i32, b: i32, n: &mut u64) -> i32
    ensures { (result, n.new) ≡ single (whole_size a b) n.old }
{
    culvraod::culv_whole_size(a, b, n)
}

#[unsafe(no_mangle)]
pub extern "C" fn culv_whole_index_of(a: i32, b: i32, v: i32, k: &mut u64) -> i32
    ensures { (result, k.new) ≡ single (whole_index_of a b v) k.old }
{
    culvraod::culv_whole_index_of(a, b, v, k)
}

#[unsafe(no_mangle)]
pub extern "C" fn culv_whole_from_index(a: i32, b: i32, k: u64, v: &mut i32) -> i32
    ensures { (result, v.new) ≡ single (whole_from_index a b k) v.old }
{
    culvraod::culv_whole_from_index(a, b, k, v)
}

#[unsafe(no_mangle)]
pub extern "C" fn culv_whole_unmap(a: i32, b: i32, x: i32, p: i32, q: i32, v: &mut i32) -> i32
    ensures { (result, v.new) ≡ single (whole_reading a b x (limit_of p q)) v.old }
{
    culvraod::culv_whole_unmap(a, b, x, p, q, v)
}

#[unsafe(no_mangle)]
pub extern "C" fn culv_whole_unmap_directed(
    a: i32,
    b: i32,
    x: i32,
    p: i32,
    q: i32,
    v: &mut i32,
) -> i32
    ensures { (result, v.new) ≡ single (whole_directed a b x (limit_of p q)) v.old }
{
    culvraod::culv_whole_unmap_directed(a, b, x, p, q, v)
}

#[unsafe(no_mangle)]
pub extern "C" fn culv_whole_map(a: i32, b: i32, v: i32, p: i32, q: i32, pixel: &mut i32) -> i32
    ensures { (result, pixel.new) ≡ single (whole_place a b v (limit_of p q)) pixel.old }
{
    culvraod::culv_whole_map(a, b, v, p, q, pixel)
}

#[unsafe(no_mangle)]
pub extern "C" fn culv_whole_map_exact(
    a: i32,
    b: i32,
    v: i32,
    p: i32,
    q: i32,
    quotient: &mut u32,
    remainder: &mut u32,
) -> i32
    ensures { (result, quotient.new, remainder.new) ≡ double (whole_exact a b v (limit_of p q)) quotient.old remainder.old }
{
    culvraod::culv_whole_map_exact(a, b, v, p, q, quotient, remainder)
}

#[unsafe(no_mangle)]
pub extern "C" fn culv_real_map(a: f64, b: f64, v: f64, p: i32, q: i32, pixel: &mut i32) -> i32
    ensures { (result, pixel.new) ≡ single (real_place a b v (limit_of p q)) pixel.old }
{
    culvraod::culv_real_map(a, b, v, p, q, pixel)
}

#[unsafe(no_mangle)]
pub extern "C" fn culv_real_unmap(a: f64, b: f64, x: i32, p: i32, q: i32, v: &mut f64) -> i32
    ensures { (result, v.new) ≡ single (real_reading a b x (limit_of p q)) v.old }
{
    culvraod::culv_real_unmap(a, b, x, p, q, v)
}

#[unsafe(no_mangle)]
pub extern "C" fn culv_real_key_points(
    a: f64,
    b: f64,
    m: u32,
    out: &mut [f64],
    count: &mut usize,
) -> i32
    ensures { (result, out.new, count.new) ≡ list_c (real_key_points a b m out.old) count.old }
{
    culvraod::culv_real_key_points(a, b, m, out, count)
}

#[unsafe(no_mangle)]
pub extern "C" fn culv_ruler_write(
    a: i32,
    b: i32,
    p: i32,
    q: i32,
    m: u32,
    out: &mut [u8],
    bytes: &mut usize,
    marks: &mut usize,
) -> i32
    ensures { (result, out.new, bytes.new, marks.new) ≡ key_points_c (ruler_write a b (limit_of p q) m out.old) bytes.old marks.old }
{
    culvraod::culv_ruler_write(a, b, p, q, m, out, bytes, marks)
}

#[unsafe(no_mangle)]
pub extern "C" fn culv_ruler_write_inside(
    a: i32,
    b: i32,
    p: i32,
    q: i32,
    m: u32,
    out: &mut [u8],
    bytes: &mut usize,
    marks: &mut usize,
) -> i32
    ensures { (result, out.new, bytes.new, marks.new) ≡ key_points_c (ruler_write_inside a b (limit_of p q) m out.old) bytes.old marks.old }
{
    culvraod::culv_ruler_write_inside(a, b, p, q, m, out, bytes, marks)
}

#[unsafe(no_mangle)]
pub extern "C" fn culv_ruler_write_twisted(
    a: i32,
    b: i32,
    p: i32,
    q: i32,
    m: u32,
    twist: u32,
    out: &mut [u8],
    bytes: &mut usize,
    marks: &mut usize,
) -> i32
    ensures { (result, out.new, bytes.new, marks.new) ≡ key_points_c (twisted_write Choice.Cut twist a b (limit_of p q) m out.old) bytes.old marks.old }
{
    culvraod::culv_ruler_write_twisted(a, b, p, q, m, twist, out, bytes, marks)
}

#[unsafe(no_mangle)]
pub extern "C" fn culv_ruler_write_inside_twisted(
    a: i32,
    b: i32,
    p: i32,
    q: i32,
    m: u32,
    twist: u32,
    out: &mut [u8],
    bytes: &mut usize,
    marks: &mut usize,
) -> i32
    ensures { (result, out.new, bytes.new, marks.new) ≡ key_points_c (twisted_write Choice.Inside twist a b (limit_of p q) m out.old) bytes.old marks.old }
{
    culvraod::culv_ruler_write_inside_twisted(a, b, p, q, m, twist, out, bytes, marks)
}

#[unsafe(no_mangle)]
pub extern "C" fn culv_film_write(
    borders: &[i32],
    m: u32,
    out: &mut [u8],
    bytes: &mut usize,
    marks: &mut usize,
) -> i32
    ensures { (result, out.new, bytes.new, marks.new) ≡ key_points_c (film_write borders.now m out.old) bytes.old marks.old }
{
    culvraod::culv_film_write(borders, m, out, bytes, marks)
}

#[unsafe(no_mangle)]
pub extern "C" fn culv_ruler_upgrade(bytes: &[u8], out: &mut [u8], written: &mut usize) -> i32
    ensures { (result, out.new, written.new) ≡ list_c (ruler_upgrade bytes.now out.old) written.old }
{
    culvraod::culv_ruler_upgrade(bytes, out, written)
}

#[unsafe(no_mangle)]
pub extern "C" fn culv_ruler_downgrade(bytes: &[u8], out: &mut [u8], written: &mut usize) -> i32
    ensures { (result, out.new, written.new) ≡ list_c (ruler_downgrade bytes.now out.old) written.old }
{
    culvraod::culv_ruler_downgrade(bytes, out, written)
}

#[unsafe(no_mangle)]
pub extern "C" fn culv_ruler_shift(bytes: &mut [u8], c: i32) -> i32
    ensures { (result, bytes.new) ≡ held_c (ruler_shift c bytes.old) }
{
    culvraod::culv_ruler_shift(bytes, c)
}

#[unsafe(no_mangle)]
pub extern "C" fn culv_ruler_read_kind(
    bytes: &[u8],
    a: &mut i32,
    b: &mut i32,
    p: &mut i32,
    q: &mut i32,
    m: &mut u32,
    step: &mut i32,
    marks: &mut usize,
    kind: &mut u32,
    twist: &mut u32,
) -> i32
    ensures { (result, a.new, b.new, p.new, q.new, m.new, step.new, marks.new, kind.new, twist.new) ≡ read_kind_c (ruler_read bytes.now) (ruler_of a.old b.old (limit_of p.old q.old) m.old step.old marks.old) kind.old twist.old }
{
    culvraod::culv_ruler_read_kind(bytes, a, b, p, q, m, step, marks, kind, twist)
}

#[unsafe(no_mangle)]
pub extern "C" fn culv_ruler_read(
    bytes: &[u8],
    a: &mut i32,
    b: &mut i32,
    p: &mut i32,
    q: &mut i32,
    m: &mut u32,
    step: &mut i32,
    marks: &mut usize,
) -> i32
    ensures { (result, a.new, b.new, p.new, q.new, m.new, step.new, marks.new) ≡ read_c (ruler_read bytes.now) (ruler_of a.old b.old (limit_of p.old q.old) m.old step.old marks.old) }
{
    culvraod::culv_ruler_read(bytes, a, b, p, q, m, step, marks)
}

#[unsafe(no_mangle)]
pub extern "C" fn culv_ruler_label(
    bytes: &[u8],
    value: i32,
    start: &mut usize,
    size: &mut usize,
) -> i32
    ensures { (result, start.new, size.new) ≡ part_c (label_in bytes.now value) }
{
    culvraod::culv_ruler_label(bytes, value, start, size)
}

#[unsafe(no_mangle)]
pub extern "C" fn culv_ruler_pair(
    left: &[u8],
    right: &[u8],
    value: i32,
    which: &mut u32,
    start: &mut usize,
    size: &mut usize,
) -> i32
    ensures { (result, which.new, start.new, size.new) ≡ pair_c value (record_in (side_of value left.now right.now) value) }
{
    culvraod::culv_ruler_pair(left, right, value, which, start, size)
}

#[unsafe(no_mangle)]
pub extern "C" fn culv_search_whole(list: &[i32], target: i32, method: u32, k: &mut u64) -> i32
    ensures { (result, k.new) ≡ single (by_method (method_of method) (whole_search list.now target)) k.old }
{
    culvraod::culv_search_whole(list, target, method, k)
}

#[unsafe(no_mangle)]
pub extern "C" fn culv_search_real(list: &[f64], target: f64, method: u32, k: &mut u64) -> i32
    ensures { (result, k.new) ≡ single (by_method (method_of method) (real_search list.now target)) k.old }
{
    culvraod::culv_search_real(list, target, method, k)
}

#[unsafe(no_mangle)]
pub extern "C" fn culv_step_whole_values(
    a: i32,
    b: i32,
    d: i32,
    out: &mut [i32],
    count: &mut usize,
) -> i32
    ensures { (result, out.new, count.new) ≡ list_c (step_values whole a b d out.old) count.old }
{
    culvraod::culv_step_whole_values(a, b, d, out, count)
}

#[unsafe(no_mangle)]
pub extern "C" fn culv_step_whole_size(a: i32, b: i32, d: i32, n: &mut u64) -> i32
    ensures { (result, n.new) ≡ single (step_size whole a b d) n.old }
{
    culvraod::culv_step_whole_size(a, b, d, n)
}

#[unsafe(no_mangle)]
pub extern "C" fn culv_step_whole_from_index(a: i32, b: i32, d: i32, k: u64, v: &mut i32) -> i32
    ensures { (result, v.new) ≡ single (step_from_index whole a b d k) v.old }
{
    culvraod::culv_step_whole_from_index(a, b, d, k, v)
}

#[unsafe(no_mangle)]
pub extern "C" fn culv_step_whole_index_of(
    a: i32,
    b: i32,
    d: i32,
    v: i32,
    method: u32,
    k: &mut u64,
) -> i32
    ensures { (result, k.new) ≡ single (by_method (method_of method) (step_index_of whole a b d v)) k.old }
{
    culvraod::culv_step_whole_index_of(a, b, d, v, method, k)
}

#[unsafe(no_mangle)]
pub extern "C" fn culv_step_whole_map(
    a: i32,
    b: i32,
    d: i32,
    v: i32,
    p: i32,
    q: i32,
    pixel: &mut i32,
) -> i32
    ensures { (result, pixel.new) ≡ single (step_place whole a b d v (limit_of p q)) pixel.old }
{
    culvraod::culv_step_whole_map(a, b, d, v, p, q, pixel)
}

#[unsafe(no_mangle)]
pub extern "C" fn culv_step_whole_unmap(
    a: i32,
    b: i32,
    d: i32,
    x: i32,
    p: i32,
    q: i32,
    v: &mut i32,
) -> i32
    ensures { (result, v.new) ≡ single (step_reading whole a b d x (limit_of p q)) v.old }
{
    culvraod::culv_step_whole_unmap(a, b, d, x, p, q, v)
}

#[unsafe(no_mangle)]
pub extern "C" fn culv_step_whole_key_points(
    a: i32,
    b: i32,
    d: i32,
    m: u32,
    out: &mut [i32],
    count: &mut usize,
) -> i32
    ensures { (result, out.new, count.new) ≡ list_c (step_key_points whole a b d m out.old) count.old }
{
    culvraod::culv_step_whole_key_points(a, b, d, m, out, count)
}

#[unsafe(no_mangle)]
pub extern "C" fn culv_step_real_values(
    a: f64,
    b: f64,
    d: f64,
    out: &mut [f64],
    count: &mut usize,
) -> i32
    ensures { (result, out.new, count.new) ≡ list_c (step_values real a b d out.old) count.old }
{
    culvraod::culv_step_real_values(a, b, d, out, count)
}

#[unsafe(no_mangle)]
pub extern "C" fn culv_step_real_size(a: f64, b: f64, d: f64, n: &mut u64) -> i32
    ensures { (result, n.new) ≡ single (step_size real a b d) n.old }
{
    culvraod::culv_step_real_size(a, b, d, n)
}

#[unsafe(no_mangle)]
pub extern "C" fn culv_step_real_from_index(a: f64, b: f64, d: f64, k: u64, v: &mut f64) -> i32
    ensures { (result, v.new) ≡ single (step_from_index real a b d k) v.old }
{
    culvraod::culv_step_real_from_index(a, b, d, k, v)
}

#[unsafe(no_mangle)]
pub extern "C" fn culv_step_real_index_of(
    a: f64,
    b: f64,
    d: f64,
    v: f64,
    method: u32,
    k: &mut u64,
) -> i32
    ensures { (result, k.new) ≡ single (by_method (method_of method) (step_index_of real a b d v)) k.old }
{
    culvraod::culv_step_real_index_of(a, b, d, v, method, k)
}

#[unsafe(no_mangle)]
pub extern "C" fn culv_step_real_map(
    a: f64,
    b: f64,
    d: f64,
    v: f64,
    p: i32,
    q: i32,
    pixel: &mut i32,
) -> i32
    ensures { (result, pixel.new) ≡ single (step_place real a b d v (limit_of p q)) pixel.old }
{
    culvraod::culv_step_real_map(a, b, d, v, p, q, pixel)
}

#[unsafe(no_mangle)]
pub extern "C" fn culv_step_real_unmap(
    a: f64,
    b: f64,
    d: f64,
    x: i32,
    p: i32,
    q: i32,
    v: &mut f64,
) -> i32
    ensures { (result, v.new) ≡ single (step_reading real a b d x (limit_of p q)) v.old }
{
    culvraod::culv_step_real_unmap(a, b, d, x, p, q, v)
}

#[unsafe(no_mangle)]
pub extern "C" fn culv_step_real_key_points(
    a: f64,
    b: f64,
    d: f64,
    m: u32,
    out: &mut [f64],
    count: &mut usize,
) -> i32
    ensures { (result, out.new, count.new) ≡ list_c (step_key_points real a b d m out.old) count.old }
{
    culvraod::culv_step_real_key_points(a, b, d, m, out, count)
}

#[unsafe(no_mangle)]
pub extern "C" fn culv_chart_clear(a: i32, b: i32, d: i32, counts: &mut [u16]) -> i32
    ensures { (result, counts.new) ≡ held_c (chart_clear a b d counts.old) }
{
    culvraod::culv_chart_clear(a, b, d, counts)
}

#[unsafe(no_mangle)]
pub extern "C" fn culv_chart_set(a: i32, b: i32, d: i32, pin: i32, counts: &mut [u16]) -> i32
    ensures { (result, counts.new) ≡ held_c (chart_set a b d pin counts.old) }
{
    culvraod::culv_chart_set(a, b, d, pin, counts)
}

#[unsafe(no_mangle)]
pub extern "C" fn culv_chart_pull(a: i32, b: i32, d: i32, pin: i32, counts: &mut [u16]) -> i32
    ensures { (result, counts.new) ≡ held_c (chart_pull a b d pin counts.old) }
{
    culvraod::culv_chart_pull(a, b, d, pin, counts)
}

#[unsafe(no_mangle)]
pub extern "C" fn culv_label(
    n: f64,
    max_decimal: u32,
    min_decimal: u32,
    out: &mut [u8],
    written: &mut usize,
) -> i32
    ensures { (result, out.new, written.new) ≡ list_c (label_print n max_decimal min_decimal out.old) written.old }
{
    culvraod::culv_label(n, max_decimal, min_decimal, out, written)
}

#[unsafe(no_mangle)]
pub extern "C" fn culv_label_scientific(
    n: f64,
    max_decimal: u32,
    min_decimal: u32,
    out: &mut [u8],
    written: &mut usize,
) -> i32
    ensures { (result, out.new, written.new) ≡ list_c (label_scientific n max_decimal min_decimal out.old) written.old }
{
    culvraod::culv_label_scientific(n, max_decimal, min_decimal, out, written)
}

#[unsafe(no_mangle)]
pub extern "C" fn culv_decimal_print(x: i32, f: u32, out: &mut [u8], written: &mut usize) -> i32
    ensures { (result, out.new, written.new) ≡ list_c (fixed_print x f out.old) written.old }
{
    culvraod::culv_decimal_print(x, f, out, written)
}

#[unsafe(no_mangle)]
pub extern "C" fn culv_decimal_read(text: &[u8], f: u32, x: &mut i32) -> i32
    ensures { (result, x.new) ≡ single (fixed_read text.now f) x.old }
{
    culvraod::culv_decimal_read(text, f, x)
}

#[unsafe(no_mangle)]
pub extern "C" fn culv_week_running(windows: &[u32], clock: u32, running: &mut u32) -> i32
    ensures { (result, running.new) ≡ single (running_minute windows.now clock) running.old }
{
    culvraod::culv_week_running(windows, clock, running)
}

#[unsafe(no_mangle)]
pub extern "C" fn culv_week_clock(windows: &[u32], running: u32, clock: &mut u32) -> i32
    ensures { (result, clock.new) ≡ single (clock_minute windows.now running) clock.old }
{
    culvraod::culv_week_clock(windows, running, clock)
}
