// Segments over a stepped axis of whole numbers.
ghost use Rattle.std.specs.Prelude.{length};
ghost use Rattle.linspace.specs.List.{whole};
ghost use Rattle.linspace.specs.Calls.{step_marks};
ghost use Rattle.segmented.specs.Axes.{stepped_axis, stepped_finder};
ghost use Rattle.segmented.specs.Regular.{step-regular};

use crate::{Axis, some_marks};
use linspace::Linspacei32;
use ranged1d::{Limit, Refusal};
use search::RoundingMethod;

impl Axis for Linspacei32 {
    type Value = i32;

    type Way = RoundingMethod;

    type Told = usize;

    ghost axis = { λ x. stepped_axis whole x.inner.0 x.inner.1 x.step };

    ghost finder = { λ x method. stepped_finder whole x.inner.0 x.inner.1 x.step method };

    ghost told = { λ x m. length (step_marks whole x.inner.0 x.inner.1 x.step m) };

    fn admitted(self) -> bool {
        Linspacei32::admitted(self)
    }

    fn fits(self, v: i32) -> bool {
        ranged1d::whole_admitted(v)
    }

    #[tactic(auto, using(crate::proofs::StepRules::size_by))]
    fn count(self) -> Result<u64, Refusal> {
        Linspacei32::size(self)
    }

    #[tactic(auto, using(crate::proofs::StepRules::entry_by))]
    fn entry(self, k: u64) -> Result<Option<i32>, Refusal> {
        self.from_index(k)
    }

    #[tactic(auto, using(crate::proofs::StepRules::index_by))]
    fn find(self, method: RoundingMethod, v: i32) -> Result<Option<u64>, Refusal> {
        self.index_of(v, method)
    }

    #[tactic(auto, using(crate::proofs::StepRules::whole_place_by, crate::proofs::StepRules::not_placed))]
    fn place(self, v: i32, limit: Limit) -> Result<i32, Refusal> {
        if !self.admitted() {
            return Err(Refusal::WholeNotAdmitted);
        }
        self.inner.map(v, limit)
    }

    // An axis has marks exactly if it has entries, so that its list need not be walked again to tell, and without entries nothing is written.
    fn marks(self, m: u32, out: &mut [i32]) -> Result<usize, Refusal> {
        some_marks(self.key_points(m, out)?)
    }

    ghost regular = { λ x. step-regular x.inner.0 x.inner.1 x.step };
}
