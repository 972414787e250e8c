// Segments over a stepped axis of real numbers, all of which are admitted.
// Kept: beside steps.rt. One impl for both would need a trait of linspace with what an axis is asked here, admitted, fits, size, from_index,
// index_of, map and key_points: seven functions and their rules, each written out for either axis there, in place of the seven here.
ghost use Rattle.std.specs.Prelude.{length};
ghost use Rattle.linspace.specs.List.{real};
ghost use Rattle.linspace.specs.Calls.{step_marks};
ghost use Rattle.segmented.specs.Axes.{stepped_axis, stepped_finder};
ghost use Rattle.segmented.specs.Regular.{real-regular};

use crate::{Axis, some_marks};
use linspace::Linspacef64;
use ranged1d::{Limit, Refusal};
use search::RoundingMethod;

impl Axis for Linspacef64 {
    type Value = f64;

    type Way = RoundingMethod;

    type Told = usize;

    ghost axis = { λ x. stepped_axis real x.inner.0 x.inner.1 x.step };

    ghost finder = { λ x method. stepped_finder real x.inner.0 x.inner.1 x.step method };

    ghost told = { λ x m. length (step_marks real x.inner.0 x.inner.1 x.step m) };

    fn admitted(self) -> bool {
        true
    }

    fn fits(self, _: f64) -> bool {
        true
    }

    #[tactic(auto, using(crate::proofs::StepRules::size_by))]
    fn count(self) -> Result<u64, Refusal> {
        Linspacef64::size(self)
    }

    #[tactic(auto, using(crate::proofs::StepRules::entry_by))]
    fn entry(self, k: u64) -> Result<Option<f64>, Refusal> {
        self.from_index(k)
    }

    #[tactic(auto, using(crate::proofs::StepRules::index_by))]
    fn find(self, method: RoundingMethod, v: f64) -> Result<Option<u64>, Refusal> {
        self.index_of(v, method)
    }

    #[tactic(auto, using(crate::proofs::StepRules::real_place_by))]
    fn place(self, v: f64, limit: Limit) -> Result<i32, Refusal> {
        self.inner.map(v, limit)
    }

    // An axis has marks exactly if it has entries, so that its list need not be walked again to tell, and without entries nothing is written.
    fn marks(self, m: u32, out: &mut [f64]) -> Result<usize, Refusal> {
        some_marks(self.key_points(m, out)?)
    }

    ghost regular = { λ x. real-regular x.inner.0 x.inner.1 x.step };
}
