// Rulers as bytes: a record for the axis, then one for each mark; the reader, and the look-ups in what it takes.
#![tactic(auto)]

ghost use Rattle.std.specs.Prelude.{◌≡◌, ◌+◌, ◌-◌, ◌*◌, ◌<◌, ◌≤◌, true, ◌∷◌, ◌++◌, length, take, drop, ◌+ℤ◌, MatchResult};
ghost use Rattle.std.specs.Option.{option_map};
ghost use Rattle.ranged1d.specs.Answer.{given, refused, list_written};
ghost use Rattle.ranged1d.specs.Refusals.{number_of};
ghost use Rattle.ranged1d.specs.Told.{tell};
ghost use Rattle.ranged1d.specs.Admitted.{pixel_admitted, limit_admitted};
ghost use Rattle.real.specs.Shifting.{shifted_limit};
ghost use Rattle.numeric.specs.Marks.{list_of};
ghost use Rattle.numeric.specs.Calls.{element};
ghost use Rattle.decimal.specs.Read.{same_bytes};
ghost use Rattle.ruler.specs.Place.{place_of};
ghost use Rattle.ruler.specs.Bytes.{word, word_at, kind_byte, twist_number, twist_bytes, head_long, form_for, laid, joined};
ghost use Rattle.ruler.specs.Rule.{plain_form, twisted_write, ruler_upgrade, ruler_downgrade, ruler_plan_by, write_by, ruler_read, index_of, record_in, label_in, record_text, label_text, part, further, side_of};
ghost use Rattle.ruler.specs.Shifting.{ruler_shift};
ghost use Rattle.ruler.specs.Steps.{four, Inside, plan_for, form_of, mark_of, axis_of, marks_laid, first_of, no_twist, drawing, drawing_in, index_within, record_found, seen_by, seen_of, put_word, added_at, added_to_places, added_to_film};

use numeric::{Choice, KeyPoints, RangedCoordi32};
use ranged1d::{Limit, Refusal};

// What a ruler is drawn for: the axis, its limits on the film, the mark limit, and which marks it has.
#[derive(Clone, Copy)]
pub struct Draft {
    pub a: i32,
    pub b: i32,
    pub limit: Limit,
    pub m: u32,
    pub choice: Choice,
}

// A ruler that was read.
// Kept: these fields are what the public `read` and `ruler_read` of the C interface hand out. A `Draft` in their place would tell the choice twice,
// as the form has it.
#[derive(Clone, Copy)]
pub struct Ruler {
    pub a: i32,
    pub b: i32,
    pub limit: Limit,
    pub m: u32,
    pub step: i32,
    pub marks: usize,
    pub form: Form,
}

// A part of lent bytes: where it starts and ends.
#[derive(Clone, Copy)]
pub struct Part {
    pub start: usize,
    pub end: usize,
}

// Where what is not found lies.
const NOWHERE: Part = Part { start: 0, end: 0 };

// The thread's twist, which kinds 1 and 3 do not tell.
#[derive(Clone, Copy)]
pub enum Twist {
    Plain,
    S,
    Z,
}

// Which marks a ruler has, and its twist.
#[derive(Clone, Copy)]
pub struct Form {
    pub choice: Choice,
    pub twist: Twist,
}

// A draft and its twist.
#[derive(Clone, Copy)]
struct Drawing {
    draft: Draft,
    twist: Twist,
}

// A drawing with its marks, as they are planned.
#[derive(Clone, Copy)]
struct Layout {
    drawing: Drawing,
    points: KeyPoints,
    ghost planned: { plan_for drawing ≡ given points },
}

// The kinds of records: what the body behind the kind is.
// Kept: numbers, since a ruler's first byte is matched against them. An enum would take a match more, from the byte to the kind, for the same arms.
const AXIS: u8 = 1;

const MARK: u8 = 2;

const INSIDE: u8 = 3;

const TWISTED: u8 = 5;

const INSIDE_TWISTED: u8 = 6;

impl Twist {
    // The twist as its number, 0 where there is none.
    pub fn number(self) -> u8
        ensures { result ≡ twist_number self }
    {
        match self {
            Twist::Plain | Twist::S => 0,
            Twist::Z => 1,
        }
    }

    // The bytes of the twist, behind the numbers of the axis's record.
    fn bytes(self) -> &'static [u8]
        ensures { (result.now ≡ twist_bytes self) × (length result.now ≤ 1) }
    {
        match self {
            Twist::Plain => &[],
            Twist::S => &[0],
            Twist::Z => &[1],
        }
    }
}

impl Form {
    // The kind byte of a ruler of this form.
    pub fn kind(self) -> u8
        ensures { result ≡ kind_byte self }
    {
        match (self.choice, self.twist) {
            (Choice::Cut, Twist::Plain) => AXIS,
            (Choice::Cut, _) => TWISTED,
            (Choice::Inside, Twist::Plain) => INSIDE,
            (Choice::Inside, _) => INSIDE_TWISTED,
        }
    }
}

// The form of a ruler with this kind and this twist byte.
// Kept: total, as the rule's `form_for` is: that bytes of no form are no ruler is told by the comparison of the axis's record, of which these two
// bytes are a part. With an `Option` the same would be shown once more, of the bytes that it leaves out.
fn form_of(kind: u8, t: u8) -> Form
    ensures { result ≡ form_for kind t }
{
    let twist = if t == 1 { Twist::Z } else { Twist::S };
    match kind {
        INSIDE => Form {
            choice: Choice::Inside,
            twist: Twist::Plain,
        },
        TWISTED => Form {
            choice: Choice::Cut,
            twist,
        },
        INSIDE_TWISTED => Form {
            choice: Choice::Inside,
            twist,
        },
        _ => Form {
            choice: Choice::Cut,
            twist: Twist::Plain,
        },
    }
}

// The number in four bytes at a place, the lowest first.
// Kept: a place in a slice, since the axis's record has 25 or 26 bytes, and the places of marks lie behind either. For a `&[u8; 4]` each caller would
// cut out the four bytes itself, and show `at + 4 ≤ length` there; here, in `put_word` and in `add_at` it is asked for by one line each.
fn word_at(l: &[u8], at: usize) -> u32
    requires { at + 4 ≤ length l.now }
    ensures { result ≡ word_at l.now at }
{
    u32::from_le_bytes([l[at], l[at + 1], l[at + 2], l[at + 3]])
}

// Whether the four bytes at a place are those of x. So many at a time are compared as fast as one.
// Kept: a record is compared by its words, since writing it anew to compare it whole takes longer: of a million marks, labels and all, 39.6 ns each
// where words take 32.4, in a loop written for that.
fn has_word(l: &[u8; 20], at: usize, x: u32) -> bool
    requires { at ≤ 16 }
    ensures { result ≡ same_bytes (four at l.now) (word x) }
{
    word_at(l, at) == x
}

// The four bytes of x at a place, the lowest first.
fn put_word(x: u32, at: usize, l: &mut [u8])
    requires { at + 4 ≤ length l.old }
    ensures { l.new ≡ put_word at x l.old }
{
    l[at..at + 4].copy_from_slice(&x.to_le_bytes());
}

// The number at a place, n further on. By their 32 bits whole numbers of either sign are added as others are.
fn add_at(n: u32, at: usize, l: &mut [u8])
    requires { at + 4 ≤ length l.old }
    ensures { l.new ≡ added_at n at l.old }
{
    put_word(word_at(l, at).wrapping_add(n), at, l);
}

// Whether a mark's record ends with this label. Its last four bytes begin with one that was compared before.
fn is_label(t: [u8; 11], l: &[u8; 20]) -> bool
    ensures { result ≡ same_bytes (drop 9 l.now) t }
{
    has_word(l, 9, word_at(&t, 0))
        && has_word(l, 13, word_at(&t, 4))
        && has_word(l, 16, word_at(&t, 7))
}

// Whether n times w is k times d, or more by less than 0.998 of d.
fn is_multiple(n: u32, w: u32, k: u32, d: u32) -> bool
    ensures { result ≡ true → (k * d ≤ n * w) × (1000 * (n * w - k * d) < 998 * d) }
{
    let all = (n as u64) * (w as u64);
    let most = d as u64;
    let whole = (k as u64) * most;
    whole <= all && all - whole < most && 1000 * (all - whole) < 998 * most
}

impl Drawing {
    // Which marks it has, and its twist.
    fn form(self) -> Form
        ensures { result ≡ form_of self }
    {
        Form {
            choice: self.draft.choice,
            twist: self.twist,
        }
    }

    // How long the axis's record is.
    fn head(self) -> usize
        ensures { (result ≡ head_long (form_of self)) × (25 ≤ result) × (result ≤ 26) }
    {
        25 + self.twist.bytes().len()
    }

    fn layout(self) -> Result<Layout, Refusal>
        ensures { MatchResult result (λ x. x.drawing ≡ self) (λ r. plan_for self ≡ refused (number_of r)) }
    {
        let points = self.draft.plan()?;
        Ok(Layout {
            drawing: self,
            points,
        })
    }

    // The axis's record at the start of out.
    fn put_head(self, step: i32, out: &mut [u8])
        requires { head_long (form_of self) ≤ length out.old }
        ensures { out.new ≡ laid (axis_of self step) ++ drop (head_long (form_of self)) out.old }
    {
        let d = self.draft;
        let twist = self.twist.bytes();
        out[0] = self.form().kind();
        put_word(d.a.cast_unsigned(), 1, out);
        put_word(d.b.cast_unsigned(), 5, out);
        put_word(d.limit.0.cast_unsigned(), 9, out);
        put_word(d.limit.1.cast_unsigned(), 13, out);
        put_word(d.m, 17, out);
        put_word(step.cast_unsigned(), 21, out);
        out[25..25 + twist.len()].copy_from_slice(twist);
    }

    // Whether l is the axis's record.
    fn is_head(self, step: i32, l: &[u8]) -> bool
        ensures { result ≡ same_bytes l.now (laid (axis_of self step)) }
    {
        let mut own = [0; 26];
        self.put_head(step, &mut own);
        l == &own[0..self.head()]
    }

    // A ruler, written to the start of out.
    // Kept: plan and room are tested here and in `unknown_twist`. One `fits(room)` for both would promise of its refusal that it is the first of two
    // rules, `write_by` and `no_twist`, and each caller would show it again; what it would save is one `if`.
    fn write(self, out: &mut [u8]) -> Result<(usize, usize), Refusal>
        ensures { (tell result, out.new) ≡ write_by (form_of self) self.draft.a self.draft.b self.draft.limit self.draft.m out.old }
    {
        let layout = self.layout()?;
        let n = layout.points.count as usize;
        let size = layout.size();
        if out.len() < size {
            return Err(Refusal::OutTooShort);
        }
        let records = n + 1;
        layout.put_records(records, out);
        Ok((size, n))
    }

    // Why a ruler with an unknown twist is not written to so many bytes.
    fn unknown_twist(self, room: usize) -> Refusal
        ensures { refused (number_of result) ≡ no_twist (form_of self) self.draft.a self.draft.b self.draft.limit self.draft.m room }
    {
        match self.layout() {
            Err(r) => r,
            Ok(layout) => {
                let size = layout.size();
                if room < size {
                    return Refusal::OutTooShort;
                }
                Refusal::UnknownTwist
            }
        }
    }

    // The layout of the drawing, if the bytes are its ruler.
    fn seen_in(self, l: &[u8]) -> Option<Layout>
        ensures { option_map (λ x. (x.drawing, x.points)) result ≡ seen_by l.now self }
    {
        let layout = self.layout().ok()?;
        if l.len() != layout.size() {
            return None;
        }
        let head = self.head();
        if !self.is_head(layout.points.step, &l[0..head]) {
            return None;
        }
        if !layout.has_marks(&l[head..]) {
            return None;
        }
        Some(layout)
    }
}

impl Layout {
    // How many bytes the ruler has.
    fn size(self) -> usize
        ensures { result ≡ head_long (form_of self.drawing) + 20 * self.points.count }
    {
        self.drawing.head() + 20 * (self.points.count as usize)
    }

    // Mark k, counted from 0.
    // Kept: first + k · step in place. A public function that asks that it fits would be called by a line as long.
    fn mark(self, k: usize) -> i32
        requires { k < self.points.count }
        ensures { result ≡ element self.points.first self.points.step k }
    {
        self.points.first + (k as i32) * self.points.step
    }

    // The records of the first n marks, one behind another.
    // Kept: by index, since nothing is known of bytes that were written through `as_chunks_mut` or `chunks_exact_mut` once they are lent no more.
    // With the rest cut off anew in each pass (`split_first_chunk_mut`) the invariant would speak of the records and of a rest that is still lent; so
    // it speaks of one list.
    fn put_marks(self, n: usize, out: &mut [u8])
        requires marks { n ≤ self.points.count }
        requires in_bounds { 20 * n ≤ length out.old }
        ensures { out.new ≡ marks_laid self.drawing.draft self.points n ++ drop (20 * n) out.old }
    {
        for k in 0..n {
            self.drawing
                .draft
                .put_mark(self.mark(k), &mut out[20 * k..]);
        }
    }

    // The first n records of a ruler: the axis's, then those of marks, of 20 bytes each.
    fn put_records(self, n: usize, out: &mut [u8])
        requires marks { n ≤ self.points.count + 1 }
        requires in_bounds { head_long (form_of self.drawing) + 20 * n ≤ length out.old + 20 }
        ensures { out.new ≡ joined (first_of self.drawing self.points n) ++ drop (length (joined (first_of self.drawing self.points n))) out.old }
    {
        if n == 0 {
            return;
        }
        let head = self.drawing.head();
        self.drawing.put_head(self.points.step, out);
        self.put_marks(n - 1, &mut out[head..]);
    }

    // Whether x is the place of v, as far as whole numbers tell: so many pixels from p that the exact place leaves too little for one more (02 (e)).
    // No is no answer: a place by floats may be x all the same.
    fn is_counted(self, v: i32, x: i32) -> bool
        ensures { result ≡ true → x ≡ place_of self.drawing.draft.a self.drawing.draft.b self.drawing.draft.limit v }
    {
        let first = self.drawing.draft.a;
        let second = self.drawing.draft.b;
        let Limit(p, q) = self.drawing.draft.limit;
        if real::outside_limit(v, first, second) || real::outside_limit(x, p, q) {
            return false;
        }
        is_multiple(
            q.abs_diff(p),
            v.abs_diff(first),
            x.abs_diff(p),
            second.abs_diff(first),
        )
    }

    // The place of the mark v, which is worked out only where x cannot be told to be it.
    fn place_at(self, v: i32, x: i32) -> i32
        ensures { result ≡ place_of self.drawing.draft.a self.drawing.draft.b self.drawing.draft.limit v }
    {
        if self.is_counted(v, x) {
            return x;
        }
        self.drawing.draft.place_of(v)
    }

    // Whether l is the record of the mark v.
    fn is_mark(self, v: i32, l: &[u8; 20]) -> bool
        ensures { result ≡ same_bytes l.now (laid (mark_of self.drawing.draft v)) }
    {
        let x = word_at(l, 5).cast_signed();
        l[0] == MARK
            && has_word(l, 1, v.cast_unsigned())
            && has_word(l, 5, self.place_at(v, x).cast_unsigned())
            && is_label(decimal::label(v).bytes, l)
    }

    // Whether l is the records of the marks, one behind another.
    // Kept: a loop. By `.enumerate().all(..)` the closure would have to be told that k is below the count, which `mark` asks for; the loop knows it.
    fn has_marks(self, l: &[u8]) -> bool
        requires { length l.now ≡ 20 * self.points.count }
        ensures { result ≡ same_bytes l.now (marks_laid self.drawing.draft self.points self.points.count) }
    {
        let (records, _) = l.as_chunks::<20>();
        for (k, record) in records.iter().enumerate() {
            if !self.is_mark(self.mark(k), record) {
                return false;
            }
        }
        true
    }

    // Which of the marks v is.
    fn index_of(self, v: i32) -> Option<usize>
        ensures { result ≡ index_within self.points.count (index_of v (list_of (element self.points.first self.points.step) self.points.count)) }
    {
        let n = self.points.count as usize;
        (0..n).position(|k| self.mark(k) == v)
    }
}

impl Draft {
    // The marks of the ruler, unwritten, for callers who stream: `ruler_plan` of the cut ones, `ruler_plan_inside` of those on the axis.
    pub fn plan(self) -> Result<KeyPoints, Refusal>
        ensures { tell result ≡ ruler_plan_by (plain_form self.choice) self.a self.b self.limit self.m }
    {
        let axis = RangedCoordi32(self.a, self.b);
        if !axis.admitted() {
            return Err(Refusal::WholeNotAdmitted);
        }
        if !self.limit.admitted() {
            return Err(Refusal::LimitNotAdmitted);
        }
        axis.plan_by(self.choice, self.m)
    }

    // The place of the mark v. No mark is refused one.
    fn place_of(self, v: i32) -> i32
        ensures { result ≡ place_of self.a self.b self.limit v }
    {
        RangedCoordi32(self.a, self.b)
            .map(v, self.limit)
            .unwrap_or(0)
    }

    // The record of the mark v at the start of out.
    fn put_mark(self, v: i32, out: &mut [u8])
        requires { 20 ≤ length out.old }
        ensures { out.new ≡ laid (mark_of self v) ++ drop 20 out.old }
    {
        let x = self.place_of(v);
        let label = decimal::label(v).bytes;
        out[0] = MARK;
        put_word(v.cast_unsigned(), 1, out);
        put_word(x.cast_unsigned(), 5, out);
        out[9..20].copy_from_slice(&label);
    }

    // The drawing of this draft with this twist.
    fn drawing(self, twist: Twist) -> Drawing
        ensures { result ≡ drawing self twist }
    {
        Drawing { draft: self, twist }
    }

    // The ruler of kind 1 or 3, written to the start of out; the number of its bytes and of its marks. `ruler_write` of the cut ones, `ruler_write_inside`
    // of those on the axis.
    pub fn write(self, out: &mut [u8]) -> Result<(usize, usize), Refusal>
        ensures { (tell result, out.new) ≡ write_by (plain_form self.choice) self.a self.b self.limit self.m out.old }
    {
        self.drawing(Twist::Plain).write(out)
    }

    // The ruler of kind 5 or 6, which is kind 1 or 3 with a twist, by its number: 0 for S, 1 for Z.
    // Kept: a number, as the public signature has it: 15, the unknown twist, comes after 13, memory that is too short. An `Option<Twist>` would say
    // no more.
    pub fn write_twisted(self, twist: u32, out: &mut [u8]) -> Result<(usize, usize), Refusal>
        ensures { (tell result, out.new) ≡ twisted_write self.choice twist self.a self.b self.limit self.m out.old }
    {
        match twist {
            0 => self.drawing(Twist::S).write(out),
            1 => self.drawing(Twist::Z).write(out),
            _ => Err(self.drawing(Twist::Z).unknown_twist(out.len())),
        }
    }
}

// The form and the numbers that stand where a ruler has its own.
fn drawing_in(l: &[u8]) -> Drawing
    requires { 25 ≤ length l.now }
    ensures { result ≡ drawing_in l.now }
{
    let form = form_of(l[0], l.get(25).copied().unwrap_or(0));
    let draft = Draft {
        a: word_at(l, 1).cast_signed(),
        b: word_at(l, 5).cast_signed(),
        limit: Limit(word_at(l, 9).cast_signed(), word_at(l, 13).cast_signed()),
        m: word_at(l, 17),
        choice: form.choice,
    };
    draft.drawing(form.twist)
}

// The ruler that the bytes are: for the numbers in them the marks are planned anew, and the bytes compared with what would be written.
fn examine(l: &[u8]) -> Option<Layout>
    ensures { option_map (λ x. (x.drawing, x.points)) result ≡ seen_of l.now }
{
    if l.len() < 25 {
        return None;
    }
    drawing_in(l).seen_in(l)
}

// Reads a ruler.
pub fn read(bytes: &[u8]) -> Result<Ruler, Refusal>
    ensures { tell result ≡ ruler_read bytes.now }
{
    let layout = examine(bytes).ok_or(Refusal::NotARuler)?;
    let d = layout.drawing.draft;
    let p = layout.points;
    Ok(Ruler {
        a: d.a,
        b: d.b,
        limit: d.limit,
        m: d.m,
        step: p.step,
        marks: p.count as usize,
        form: layout.drawing.form(),
    })
}

// Where the record of v lies, if v is a mark.
fn record_place(bytes: &[u8], v: i32) -> Option<Part>
    ensures { result ≡ record_found bytes.now v }
{
    let layout = examine(bytes)?;
    let k = layout.index_of(v)?;
    let start = layout.drawing.head() + 20 * k;
    Some(Part {
        start,
        end: start + 20,
    })
}

// Where the record of v lies.
pub fn find_record(bytes: &[u8], v: i32) -> Part
    ensures { result ≡ record_in bytes.now v }
{
    record_place(bytes, v).unwrap_or(NOWHERE)
}

// Where the label of v lies, without its blanks.
pub fn find_label(bytes: &[u8], v: i32) -> Part
    ensures { result ≡ label_in bytes.now v }
{
    let Some(r) = record_place(bytes, v) else {
        return NOWHERE;
    };
    let t = decimal::label(v);
    let end = r.end;
    Part {
        start: end - t.as_slice().len(),
        end,
    }
}

// A part of the bytes.
fn cut<'a>(bytes: &'a [u8], p: Part) -> &'a [u8]
    requires { Inside bytes.now p }
    ensures { (result.now ≡ part p bytes.now) × (result.ref_ptr ≡ further p.start bytes.entry.ref_ptr) }
{
    let start = p.start;
    let end = p.end;
    &bytes[start..end]
}

// The label of v without its blanks, as the part of the bytes.
pub fn label_of<'a>(bytes: &'a [u8], v: i32) -> &'a [u8]
    ensures { (result.now ≡ label_text bytes.now v) × (result.ref_ptr ≡ further (label_in bytes.now v).start bytes.entry.ref_ptr) }
{
    cut(bytes, find_label(bytes, v))
}

// The record of v, as the part of the bytes.
fn record_of<'a>(bytes: &'a [u8], v: i32) -> &'a [u8]
    ensures { (result.now ≡ record_text bytes.now v) × (result.ref_ptr ≡ further (record_in bytes.now v).start bytes.entry.ref_ptr) }
{
    cut(bytes, find_record(bytes, v))
}

// The record of v in the left ruler where v is below zero, otherwise in the right.
pub fn pair_record<'a>(left: &'a [u8], right: &'a [u8], v: i32) -> &'a [u8]
    ensures { (result.now ≡ record_text (side_of v left.now right.now) v) × (result.ref_ptr ≡ further (record_in (side_of v left.now right.now) v).start (side_of v left.entry.ref_ptr right.entry.ref_ptr)) }
{
    if v < 0 {
        record_of(left, v)
    } else {
        record_of(right, v)
    }
}

// The bytes of a ruler with another kind and other twist bytes in place of those before `rest`.
fn put_moved(
    kind: u8,
    twist: &[u8],
    rest: usize,
    l: &[u8],
    out: &mut [u8],
) -> Result<usize, Refusal>
    requires one_twist { length twist.now ≤ 1 }
    requires in_bounds { (25 ≤ rest) × (rest ≤ length l.now) }
    ensures { (tell result, out.new) ≡ list_written ((kind ∷ take 24 (drop 1 l.now)) ++ (twist.now ++ drop rest l.now)) out.old }
{
    let marks = &l[rest..];
    let start = 25 + twist.len();
    let size = start + marks.len();
    if out.len() < size {
        return Err(Refusal::OutTooShort);
    }
    out[0] = kind;
    out[1..25].copy_from_slice(&l[1..25]);
    out[25..start].copy_from_slice(twist);
    out[start..size].copy_from_slice(marks);
    Ok(size)
}

// A ruler of kind 1 or 3, moved over to kind 5 or 6 as S.
pub fn upgrade(bytes: &[u8], out: &mut [u8]) -> Result<usize, Refusal>
    ensures { (tell result, out.new) ≡ ruler_upgrade bytes.now out.old }
{
    let drawing = examine(bytes).ok_or(Refusal::NotARuler)?.drawing;
    match drawing.twist {
        Twist::Plain => {
            let over = drawing.draft.drawing(Twist::S).form();
            put_moved(over.kind(), &[0], 25, bytes, out)
        }
        Twist::S | Twist::Z => Err(Refusal::NotARuler),
    }
}

// A ruler of kind 5 or 6, moved back to kind 1 or 3 if its twist is S.
// Kept: beside `upgrade`. Which twist each refuses, and why, differs; what they write is `put_moved`.
pub fn downgrade(bytes: &[u8], out: &mut [u8]) -> Result<usize, Refusal>
    ensures { (tell result, out.new) ≡ ruler_downgrade bytes.now out.old }
{
    let drawing = examine(bytes).ok_or(Refusal::NotARuler)?.drawing;
    match drawing.twist {
        Twist::Plain => Err(Refusal::NotARuler),
        Twist::S => {
            let back = drawing.draft.drawing(Twist::Plain).form();
            put_moved(back.kind(), &[], 26, bytes, out)
        }
        Twist::Z => {
            if out.len() < bytes.len() - 1 {
                return Err(Refusal::OutTooShort);
            }
            Err(Refusal::TwistLost)
        }
    }
}

// Whether x is admitted as a limit once it is c further on; in i64, since c may be any i32.
fn admitted_on(x: i32, c: i32) -> bool
    ensures { result ≡ pixel_admitted (x +ℤ c) }
{
    x.checked_add(c).is_some_and(ranged1d::pixel_admitted)
}

fn limits_admitted_on(limit: Limit, c: i32) -> bool
    ensures { result ≡ limit_admitted (shifted_limit c limit) }
{
    admitted_on(limit.0, c) && admitted_on(limit.1, c)
}

// The places in the records of so many marks, behind head bytes, n further on.
// Kept: by index, as `put_marks`, and behind head bytes: of `&mut l[head..]` each place would be one of two lists, where moved films are told of one.
fn add_to_places(n: u32, head: usize, count: usize, l: &mut [u8])
    requires { head + 20 * count ≤ length l.old }
    ensures { l.new ≡ added_to_places n head count l.old }
{
    for k in 0..count {
        add_at(n, head + 20 * k + 5, l);
    }
}

// The limits in the bytes of a ruler with so many marks, and its places, n further on; but equal ends have a place in which p has no part.
fn add_to_film(d: Drawing, count: usize, n: u32, l: &mut [u8])
    requires { head_long (form_of d) + 20 * count ≤ length l.old }
    ensures { l.new ≡ added_to_film d count n l.old }
{
    add_at(n, 9, l);
    add_at(n, 13, l);
    if d.draft.a == d.draft.b {
        return;
    }
    add_to_places(n, d.head(), count, l);
}

// Moves the limits of a ruler by c, and its places with them, where it lies: no place is worked out anew.
pub fn shift(bytes: &mut [u8], c: i32) -> Result<(), Refusal>
    ensures { (tell result, bytes.new) ≡ ruler_shift c bytes.old }
{
    let layout = examine(bytes).ok_or(Refusal::NotARuler)?;
    if !limits_admitted_on(layout.drawing.draft.limit, c) {
        return Err(Refusal::LimitNotAdmitted);
    }
    let count = layout.points.count as usize;
    add_to_film(layout.drawing, count, c.cast_unsigned(), bytes);
    Ok(())
}
