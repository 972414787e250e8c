// The calls on segments.

ghost use Rattle.std.specs.Prelude.{◌≡◌, pos, length};
ghost use Rattle.ranged1d.specs.Answer.{and_then};
ghost use Rattle.ranged1d.specs.Admitted.{limit_of};
ghost use Rattle.numeric.specs.Marks.{marks, step_of};
ghost use Rattle.linspace.specs.List.{whole, real};
ghost use Rattle.linspace.specs.Calls.{step_marks};
ghost use Rattle.segmented.specs.Segments.{segment_size, segment_place, segment_index_of, segment_from_index, segment_reading, segment_key_points};
ghost use Rattle.segmented.specs.Axes.{whole_axis, whole_finder, stepped_axis, stepped_finder};
ghost use Rattle.culvraod.specs.Boundary.{single};
ghost use Rattle.culvraod.specs.Numeric.{key_points_c};
ghost use Rattle.culvraod.specs.Search.{method_of, by_method};
ghost use Rattle.culvraod.specs.Segments.{case_of, nil, segment_c};
ghost use Rattle.culvraod.specs.Steps.{list_c};

#[unsafe(no_mangle)]
pub extern "C" fn culv_seg_whole_size(a: i32, b: i32, n: &mut u64) -> i32
    ensures { (result, n.new) ≡ single (segment_size (whole_axis a b)) n.old }
{
    culvraod::segments::culv_seg_whole_size(a, b, n)
}

#[unsafe(no_mangle)]
pub extern "C" fn culv_seg_whole_map(
    a: i32,
    b: i32,
    kind: u32,
    v: i32,
    p: i32,
    q: i32,
    pixel: &mut i32,
) -> i32
    ensures { (result, pixel.new) ≡ single (and_then (case_of kind v) (λ s. segment_place (whole_axis a b) (whole_finder a) s (limit_of p q))) pixel.old }
{
    culvraod::segments::culv_seg_whole_map(a, b, kind, v, p, q, pixel)
}

#[unsafe(no_mangle)]
pub extern "C" fn culv_seg_whole_index_of(a: i32, b: i32, kind: u32, v: i32, k: &mut u64) -> i32
    ensures { (result, k.new) ≡ single (and_then (case_of kind v) (segment_index_of (whole_axis a b) (whole_finder a))) k.old }
{
    culvraod::segments::culv_seg_whole_index_of(a, b, kind, v, k)
}

#[unsafe(no_mangle)]
pub extern "C" fn culv_seg_whole_from_index(
    a: i32,
    b: i32,
    k: u64,
    kind: &mut u32,
    v: &mut i32,
) -> i32
    ensures { (result, kind.new, v.new) ≡ segment_c (pos 0) (segment_from_index (whole_axis a b) k) kind.old v.old }
{
    culvraod::segments::culv_seg_whole_from_index(a, b, k, kind, v)
}

#[unsafe(no_mangle)]
pub extern "C" fn culv_seg_whole_unmap(
    a: i32,
    b: i32,
    x: i32,
    p: i32,
    q: i32,
    kind: &mut u32,
    v: &mut i32,
) -> i32
    ensures { (result, kind.new, v.new) ≡ segment_c (pos 0) (segment_reading (whole_axis a b) x (limit_of p q)) kind.old v.old }
{
    culvraod::segments::culv_seg_whole_unmap(a, b, x, p, q, kind, v)
}

#[unsafe(no_mangle)]
pub extern "C" fn culv_seg_whole_key_points(
    a: i32,
    b: i32,
    m: u32,
    out: &mut [i32],
    step: &mut i32,
    count: &mut usize,
) -> i32
    ensures { (result, out.new, step.new, count.new) ≡ key_points_c (segment_key_points (whole_axis a b) (pos (step_of a b m), length (marks a b m)) m out.old) step.old count.old }
{
    culvraod::segments::culv_seg_whole_key_points(a, b, m, out, step, count)
}

#[unsafe(no_mangle)]
pub extern "C" fn culv_seg_step_whole_size(a: i32, b: i32, d: i32, n: &mut u64) -> i32
    ensures { (result, n.new) ≡ single (segment_size (stepped_axis whole a b d)) n.old }
{
    culvraod::segments::culv_seg_step_whole_size(a, b, d, n)
}

#[unsafe(no_mangle)]
pub extern "C" fn culv_seg_step_whole_map(
    a: i32,
    b: i32,
    d: i32,
    method: u32,
    kind: u32,
    v: i32,
    p: i32,
    q: i32,
    pixel: &mut i32,
) -> i32
    ensures { (result, pixel.new) ≡ single (by_method (method_of method) (λ m. and_then (case_of kind v) (λ s. segment_place (stepped_axis whole a b d) (stepped_finder whole a b d m) s (limit_of p q)))) pixel.old }
{
    culvraod::segments::culv_seg_step_whole_map(a, b, d, method, kind, v, p, q, pixel)
}

#[unsafe(no_mangle)]
pub extern "C" fn culv_seg_step_whole_index_of(
    a: i32,
    b: i32,
    d: i32,
    method: u32,
    kind: u32,
    v: i32,
    k: &mut u64,
) -> i32
    ensures { (result, k.new) ≡ single (by_method (method_of method) (λ m. and_then (case_of kind v) (segment_index_of (stepped_axis whole a b d) (stepped_finder whole a b d m)))) k.old }
{
    culvraod::segments::culv_seg_step_whole_index_of(a, b, d, method, kind, v, k)
}

#[unsafe(no_mangle)]
pub extern "C" fn culv_seg_step_whole_from_index(
    a: i32,
    b: i32,
    d: i32,
    k: u64,
    kind: &mut u32,
    v: &mut i32,
) -> i32
    ensures { (result, kind.new, v.new) ≡ segment_c (pos 0) (segment_from_index (stepped_axis whole a b d) k) kind.old v.old }
{
    culvraod::segments::culv_seg_step_whole_from_index(a, b, d, k, kind, v)
}

#[unsafe(no_mangle)]
pub extern "C" fn culv_seg_step_whole_unmap(
    a: i32,
    b: i32,
    d: i32,
    x: i32,
    p: i32,
    q: i32,
    kind: &mut u32,
    v: &mut i32,
) -> i32
    ensures { (result, kind.new, v.new) ≡ segment_c (pos 0) (segment_reading (stepped_axis whole a b d) x (limit_of p q)) kind.old v.old }
{
    culvraod::segments::culv_seg_step_whole_unmap(a, b, d, x, p, q, kind, v)
}

#[unsafe(no_mangle)]
pub extern "C" fn culv_seg_step_whole_key_points(
    a: i32,
    b: i32,
    d: i32,
    m: u32,
    out: &mut [i32],
    count: &mut usize,
) -> i32
    ensures { (result, out.new, count.new) ≡ list_c (segment_key_points (stepped_axis whole a b d) (length (step_marks whole a b d m)) m out.old) count.old }
{
    culvraod::segments::culv_seg_step_whole_key_points(a, b, d, m, out, count)
}

#[unsafe(no_mangle)]
pub extern "C" fn culv_seg_step_real_size(a: f64, b: f64, d: f64, n: &mut u64) -> i32
    ensures { (result, n.new) ≡ single (segment_size (stepped_axis real a b d)) n.old }
{
    culvraod::segments::culv_seg_step_real_size(a, b, d, n)
}

#[unsafe(no_mangle)]
pub extern "C" fn culv_seg_step_real_map(
    a: f64,
    b: f64,
    d: f64,
    method: u32,
    kind: u32,
    v: f64,
    p: i32,
    q: i32,
    pixel: &mut i32,
) -> i32
    ensures { (result, pixel.new) ≡ single (by_method (method_of method) (λ m. and_then (case_of kind v) (λ s. segment_place (stepped_axis real a b d) (stepped_finder real a b d m) s (limit_of p q)))) pixel.old }
{
    culvraod::segments::culv_seg_step_real_map(a, b, d, method, kind, v, p, q, pixel)
}

#[unsafe(no_mangle)]
pub extern "C" fn culv_seg_step_real_index_of(
    a: f64,
    b: f64,
    d: f64,
    method: u32,
    kind: u32,
    v: f64,
    k: &mut u64,
) -> i32
    ensures { (result, k.new) ≡ single (by_method (method_of method) (λ m. and_then (case_of kind v) (segment_index_of (stepped_axis real a b d) (stepped_finder real a b d m)))) k.old }
{
    culvraod::segments::culv_seg_step_real_index_of(a, b, d, method, kind, v, k)
}

#[unsafe(no_mangle)]
pub extern "C" fn culv_seg_step_real_from_index(
    a: f64,
    b: f64,
    d: f64,
    k: u64,
    kind: &mut u32,
    v: &mut f64,
) -> i32
    ensures { (result, kind.new, v.new) ≡ segment_c nil (segment_from_index (stepped_axis real a b d) k) kind.old v.old }
{
    culvraod::segments::culv_seg_step_real_from_index(a, b, d, k, kind, v)
}

#[unsafe(no_mangle)]
pub extern "C" fn culv_seg_step_real_unmap(
    a: f64,
    b: f64,
    d: f64,
    x: i32,
    p: i32,
    q: i32,
    kind: &mut u32,
    v: &mut f64,
) -> i32
    ensures { (result, kind.new, v.new) ≡ segment_c nil (segment_reading (stepped_axis real a b d) x (limit_of p q)) kind.old v.old }
{
    culvraod::segments::culv_seg_step_real_unmap(a, b, d, x, p, q, kind, v)
}

#[unsafe(no_mangle)]
pub extern "C" fn culv_seg_step_real_key_points(
    a: f64,
    b: f64,
    d: f64,
    m: u32,
    out: &mut [f64],
    count: &mut usize,
) -> i32
    ensures { (result, out.new, count.new) ≡ list_c (segment_key_points (stepped_axis real a b d) (length (step_marks real a b d m)) m out.old) count.old }
{
    culvraod::segments::culv_seg_step_real_key_points(a, b, d, m, out, count)
}
