// The four searches, after the rounding methods of combinators/linspace.rs.
#![tactic(auto)]

ghost use Rattle.std.specs.Prelude.{◌≡◌};
ghost use Rattle.ranged1d.specs.Told.{tell_found};
ghost use Rattle.search.specs.Settled.{settled_nan};

mod entry;
mod place;
mod reals;
mod steps;
mod wholes;

pub use entry::Entry;
pub use place::Place;
use ranged1d::Refusal;
pub use reals::search_real;
pub use steps::precedes;
pub use wholes::search_whole;

// How a target is looked for: as an entry, or, where it is none, by the least above it, the greatest below it, the nearest.
#[derive(Clone, Copy)]
pub enum RoundingMethod {
    Exact,
    Ceil,
    Floor,
    Round,
}

// What a search of n entries answers for a NaN, which no entry comes before or equals.
pub fn settle_nan(method: RoundingMethod, n: usize) -> Result<Option<u64>, Refusal>
    ensures { tell_found result ≡ settled_nan method n }
{
    if n == 0 {
        return match method {
            RoundingMethod::Round => Ok(Some(0)),
            _ => Ok(None),
        };
    }
    match method {
        RoundingMethod::Exact => Ok(None),
        _ => Err(Refusal::NanTarget),
    }
}
