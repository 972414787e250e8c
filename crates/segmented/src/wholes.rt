// Segments over a whole axis, whose values are not searched for.
ghost use Rattle.std.specs.Prelude.{◌≡◌, length, pos};
ghost use Rattle.numeric.specs.Marks.{marks, step_of};
ghost use Rattle.ranged1d.specs.Told.{tell, tell_found};
ghost use Rattle.segmented.specs.Segments.{segment_place, segment_index_of};
ghost use Rattle.segmented.specs.Axes.{whole_axis, whole_finder};
ghost use Rattle.segmented.specs.Regular.{whole-regular};

use crate::below::{index_by, map_by};
use crate::{Axis, SegmentValue, Segmented, some_entries};
use numeric::RangedCoordi32;
use ranged1d::{Limit, Refusal};

impl Axis for RangedCoordi32 {
    type Value = i32;

    type Way = ();

    type Told = (i32, usize);

    ghost axis = { λ x. whole_axis x.0 x.1 };

    ghost finder = { λ x way. whole_finder x.0 };

    ghost told = { λ x m. (pos (step_of x.0 x.1 m), length (marks x.0 x.1 m)) };

    fn admitted(self) -> bool {
        RangedCoordi32::admitted(self)
    }

    fn fits(self, v: i32) -> bool {
        ranged1d::whole_admitted(v)
    }

    #[tactic(auto, using(crate::proofs::WholeRules::size_by))]
    fn count(self) -> Result<u64, Refusal> {
        RangedCoordi32::size(self)
    }

    fn entry(self, k: u64) -> Result<Option<i32>, Refusal> {
        if k < self.size()? {
            return Ok(Some(self.0 + k as i32));
        }
        Ok(None)
    }

    #[tactic(auto, using(crate::proofs::WholeRules::index_by))]
    fn find(self, _: (), v: i32) -> Result<Option<u64>, Refusal> {
        self.index_of(v)
    }

    #[tactic(auto, using(crate::proofs::WholeRules::place_by))]
    fn place(self, v: i32, limit: Limit) -> Result<i32, Refusal> {
        self.map(v, limit)
    }

    fn marks(self, m: u32, out: &mut [i32]) -> Result<(i32, usize), Refusal> {
        self.plan(m)?;
        some_entries(self.size()?)?;
        self.key_points(m, out)
    }

    ghost regular = { λ x. whole-regular x.0 x.1 };
}

// Kept: beside those of below.rt, which are handed a method. The search of a whole axis takes none, and a caller of one impl for all would write ().
impl Segmented<RangedCoordi32> {
    // The place of a value.
    pub fn map(self, value: SegmentValue<i32>, limit: Limit) -> Result<i32, Refusal>
        ensures { tell result ≡ segment_place (whole_axis self.0.0 self.0.1) (whole_finder self.0.0) value limit }
    {
        map_by(self.0, (), value, limit)
    }

    // The index of a value: that of its number, which may lie past the end; `Last` stands behind all entries.
    pub fn index_of(self, value: SegmentValue<i32>) -> Result<Option<u64>, Refusal>
        ensures { tell_found result ≡ segment_index_of (whole_axis self.0.0 self.0.1) (whole_finder self.0.0) value }
    {
        index_by(self.0, (), value)
    }
}
