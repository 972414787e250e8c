// What segments ask of the axis below them, and every call on segments, written once over that.
ghost use Rattle.std.specs.Prelude.{◌≡◌, true, ◌&&◌, ℕ, ◌-ℤ◌, IfOk, IfSome};
ghost use Rattle.ranged1d.specs.Answer.{given, and_then};
ghost use Rattle.ranged1d.specs.Told.{tell, tell_found};
ghost use Rattle.real.specs.Place.{spot_answer};
ghost use Rattle.segmented.specs.Values.{exact};
ghost use Rattle.segmented.specs.Segments.{Axis, Finder, fit_in, segment_place, segment_size, segment_index_of, segment_at, segment_from_index, segment_reading, segment_key_points};
ghost use Rattle.segmented.specs.Steps.{count_answer, size_answer, entry_answer, index_answer, place_answer, Regular, Stands, next_answer, middle_answer, placed_answer};

use crate::shares::{Film, Narrowed, Shares, between};
use crate::{SegmentValue, Segmented, some_entries};
use ranged1d::{Limit, Refusal};
use search::RoundingMethod;

// An axis that segments can stand on.
pub trait Axis: Copy {
    type Value: Copy;

    // What a value is looked for by: the method of a search, or nothing where its index is worked out.
    type Way: Copy;

    // What is told of marks that were written.
    type Told: Copy;

    ghost axis: { Self → Axis Self.Value };

    ghost finder: { Self → Self.Way → Finder Self.Value };

    ghost told: { Self → ℕ → Self.Told };

    // Whether the ends, and the step if there is one, are admitted.
    fn admitted(self) -> bool
        ensures { result ≡ (axis self).admitted };

    // Whether a value is admitted.
    fn fits(self, v: Self::Value) -> bool
        ensures { result ≡ (axis self).fit v };

    // How many entries there are.
    fn count(self) -> Result<u64, Refusal>
        ensures { tell result ≡ size_answer (axis self) };

    // Entry k.
    fn entry(self, k: u64) -> Result<Option<Self::Value>, Refusal>
        ensures { tell_found result ≡ entry_answer (axis self) k };

    // The index of v.
    fn find(self, way: Self::Way, v: Self::Value) -> Result<Option<u64>, Refusal>
        ensures { tell_found result ≡ index_answer (axis self) (finder self way) v };

    // The place of v, by the ends.
    fn place(self, v: Self::Value, limit: Limit) -> Result<i32, Refusal>
        ensures { tell result ≡ place_answer (axis self) v limit };

    // The marks of the axis, each standing for the middle of its segment, written to the start of out: m bounds their number.
    fn marks(self, m: u32, out: &mut [Self::Value]) -> Result<Self::Told, Refusal>
        ensures { (tell result, out.new) ≡ segment_key_points (axis self) (told self m) m out.old };

    ghost regular: { (x : Self) → Regular (axis x) };
}

// An axis that segments stand on, with its count.
#[derive(Drop)]
struct Standing<A: Axis> {
    axis: A,
    n: u64,
    ghost stands: { Stands (A.axis axis) n },
}

fn stand<A: Axis>(axis: A) -> Result<Standing<A>, Refusal>
    ensures axis_is { IfOk result (λ s. s.axis ≡ axis) }
    ensures n_is { and_then (tell result) (λ s. given s.n) ≡ count_answer (A.axis axis) }
{
    let n = some_entries(axis.count()?)?;
    Ok(Standing { axis, n })
}

impl<A: Axis> Standing<A> {
    // The place of a value.
    fn place_of(
        self,
        way: A::Way,
        value: SegmentValue<A::Value>,
        film: Film,
    ) -> Result<i32, Refusal>
        requires { fit_in (A.axis self.axis) value ≡ true }
        ensures { tell result ≡ placed_answer (A.axis self.axis) (A.finder self.axis way) value film.limit }
    {
        let films = Shares { n: self.n as u32 }.narrow(film);
        match value {
            SegmentValue::Exact(v) => Segment { all: self, v }.start(&films),
            SegmentValue::CenterOf(v) => Segment { all: self, v }.middle(way, &films),
            SegmentValue::Last => Ok(film.limit.1),
        }
    }

    // The value at index k of n entries and one more.
    fn segment_at(&self, k: u64) -> Result<Option<SegmentValue<A::Value>>, Refusal>
        ensures { tell_found result ≡ segment_at (A.axis self.now.axis) k }
    {
        if k == self.n {
            return Ok(Some(SegmentValue::Last));
        }
        Ok(self.axis.entry(k)?.map(|v| SegmentValue::Exact(v)))
    }
}

// The segment that begins at an admitted value.
#[derive(Drop)]
struct Segment<A: Axis> {
    all: Standing<A>,
    v: A::Value,
    ghost fit: { (A.axis all.axis).fit v ≡ true },
}

impl<A: Axis> Segment<A> {
    // Where it begins.
    #[tactic(auto, using(crate::proofs::Rules::place_at))]
    fn start(&self, films: &Narrowed) -> Result<i32, Refusal>
        ensures { tell result ≡ spot_answer ((A.axis self.now.all.axis).spot self.now.v films.now.within.limit) }
    {
        self.all.axis.place(self.v, films.within.limit)
    }

    // The segment of the entry behind that at the index of the value.
    fn next(self, way: A::Way) -> Result<Option<Self>, Refusal>
        ensures axis_is { IfOk result (λ o. IfSome o (λ s. s.all.axis ≡ self.all.axis)) }
        ensures value_is { and_then (tell_found result) (λ s. given s.v) ≡ next_answer (A.axis self.all.axis) (A.finder self.all.axis way) self.v }
    {
        let Segment { all, v } = self;
        let Some(k) = all.axis.find(way, v)? else {
            return Ok(None);
        };
        if all.n <= k {
            return Ok(None);
        }
        let Some(v) = all.axis.entry(k + 1)? else {
            return Ok(None);
        };
        Ok(Some(Segment { all, v }))
    }

    // Its middle: half way to where the next one begins; where there is none, half the margin further.
    fn middle(self, way: A::Way, films: &Narrowed) -> Result<i32, Refusal>
        ensures { tell result ≡ middle_answer (A.axis self.all.axis) (A.finder self.all.axis way) self.v films.now.film.limit films.now.within.limit }
    {
        let left = self.start(films)?;
        let Some(next) = self.next(way)? else {
            return Ok(films.beside(left));
        };
        let right = next.start(films)?;
        Ok(between(left, right))
    }
}

// Whether the axis and the number that a value carries are admitted.
fn fits<A: Axis>(axis: A, value: SegmentValue<A::Value>) -> bool
    ensures { result ≡ ((A.axis axis).admitted && fit_in (A.axis axis) value) }
{
    axis.admitted()
        && match value {
            SegmentValue::Exact(v) | SegmentValue::CenterOf(v) => axis.fits(v),
            SegmentValue::Last => true,
        }
}

// The index of v on an axis with segments.
fn index_at<A: Axis>(axis: A, way: A::Way, v: A::Value) -> Result<Option<u64>, Refusal>
    ensures { tell_found result ≡ segment_index_of (A.axis axis) (A.finder axis way) (exact v) }
{
    if !axis.fits(v) {
        return Err(Refusal::WholeNotAdmitted);
    }
    stand(axis)?;
    axis.find(way, v)
}

// The place of a value. The middle of a segment lies half way to the entry behind that at the index of its number.
pub(crate) fn map_by<A: Axis>(
    axis: A,
    way: A::Way,
    value: SegmentValue<A::Value>,
    limit: Limit,
) -> Result<i32, Refusal>
    ensures { tell result ≡ segment_place (A.axis axis) (A.finder axis way) value limit }
{
    if !fits(axis, value) {
        return Err(Refusal::WholeNotAdmitted);
    }
    let film = Film::of(limit)?;
    stand(axis)?.place_of(way, value, film)
}

// The index of a value: that of its number, of a whole axis past the end too; `Last` stands behind all entries.
pub(crate) fn index_by<A: Axis>(
    axis: A,
    way: A::Way,
    value: SegmentValue<A::Value>,
) -> Result<Option<u64>, Refusal>
    ensures { tell_found result ≡ segment_index_of (A.axis axis) (A.finder axis way) value }
{
    match value {
        SegmentValue::Exact(v) | SegmentValue::CenterOf(v) => index_at(axis, way, v),
        SegmentValue::Last => Ok(Some(stand(axis)?.n)),
    }
}

impl<A: Axis> Segmented<A> {
    // A value for each entry, and `Last`.
    pub fn size(self) -> Result<u64, Refusal>
        ensures { tell result ≡ segment_size (A.axis self.0) }
    {
        Ok(stand(self.0)?.n + 1)
    }

    // The value at index k: `Exact` of entry k, then `Last`.
    pub fn from_index(self, k: u64) -> Result<Option<SegmentValue<A::Value>>, Refusal>
        ensures { tell_found result ≡ segment_from_index (A.axis self.0) k }
    {
        stand(self.0)?.segment_at(k)
    }

    // The value that pixel x is read as.
    pub fn unmap(self, x: i32, limit: Limit) -> Result<Option<SegmentValue<A::Value>>, Refusal>
        ensures { tell_found result ≡ segment_reading (A.axis self.0) x limit }
    {
        if !self.0.admitted() {
            return Err(Refusal::WholeNotAdmitted);
        }
        if !limit.admits(x) {
            return Err(Refusal::LimitNotAdmitted);
        }
        let all = stand(self.0)?;
        let Some(k) = discrete::pixel_index(x, limit, all.n as u32 + 1)? else {
            return Ok(None);
        };
        all.segment_at(k)
    }

    // The marks of the axis, each standing for the middle of its segment, written to the start of out: m bounds their number.
    pub fn key_points(self, m: u32, out: &mut [A::Value]) -> Result<A::Told, Refusal>
        ensures { (tell result, out.new) ≡ segment_key_points (A.axis self.0) (A.told self.0 m) m out.old }
    {
        self.0.marks(m, out)
    }
}

// Where a search finds a value.
impl<A: Axis<Way = RoundingMethod>> Segmented<A> {
    // The place of a value, whose number, for the middle of its segment, is found by the search.
    pub fn map(
        self,
        method: RoundingMethod,
        value: SegmentValue<A::Value>,
        limit: Limit,
    ) -> Result<i32, Refusal>
        ensures { tell result ≡ segment_place (A.axis self.0) (A.finder self.0 method) value limit }
    {
        map_by(self.0, method, value, limit)
    }

    // The index of a value: that which the search finds for its number; `Last` stands behind all entries.
    pub fn index_of(
        self,
        method: RoundingMethod,
        value: SegmentValue<A::Value>,
    ) -> Result<Option<u64>, Refusal>
        ensures { tell_found result ≡ segment_index_of (A.axis self.0) (A.finder self.0 method) value }
    {
        index_by(self.0, method, value)
    }
}
