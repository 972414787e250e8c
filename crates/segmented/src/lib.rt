// Segmented axes, after `SegmentedCoord` of discrete.rs: each entry of the axis below begins a segment, and one value more stands behind
// the last.
#![tactic(auto)]

mod below;
mod reals;
mod shares;
mod steps;
mod wholes;

ghost use Rattle.std.specs.Prelude.{◌≡◌};
ghost use Rattle.ranged1d.specs.Answer.{given};
ghost use Rattle.ranged1d.specs.Told.{tell};
ghost use Rattle.segmented.specs.Steps.{at_least_one, standing};

pub use below::Axis;
use linspace::{Linspacef64, Linspacei32};
use numeric::RangedCoordi32;
use ranged1d::Refusal;

// A value of a segmented axis: where an entry's segment begins, its middle, and what stands behind all.
#[derive(Clone, Copy)]
pub enum SegmentValue<T> {
    Exact(T),
    CenterOf(T),
    Last,
}

// That of whole and of real numbers.
pub type SegmentValuei32 = SegmentValue<i32>;

pub type SegmentValuef64 = SegmentValue<f64>;

// Segments over an axis.
#[derive(Clone, Copy)]
pub struct Segmented<A>(pub A);

// Segments over a whole axis, and over a stepped axis of whole or of real numbers.
pub type SegmentedCoordi32 = Segmented<RangedCoordi32>;

pub type SegmentedLinspacei32 = Segmented<Linspacei32>;

pub type SegmentedLinspacef64 = Segmented<Linspacef64>;

// A count of entries that segments can stand on, 1 to 16,777,216. Only a whole axis can have more.
fn some_entries(count: u64) -> Result<u64, Refusal>
    ensures { tell result ≡ standing (given count) }
{
    if !(1..=16777216).contains(&count) {
        return Err(Refusal::NoSegments);
    }
    Ok(count)
}

// A number of marks that were written, of which segments have at least 1.
fn some_marks(size: usize) -> Result<usize, Refusal>
    ensures { tell result ≡ at_least_one (given size) }
{
    if size == 0 {
        return Err(Refusal::NoSegments);
    }
    Ok(size)
}
