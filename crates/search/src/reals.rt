// Searches of a lent list of reals.
ghost use Rattle.std.specs.Prelude.{◌≡◌};
ghost use Rattle.ranged1d.specs.Told.{tell_found};
ghost use Rattle.search.specs.Lists.{real_search};

use crate::steps::{can_search, find, rising};
use crate::{RoundingMethod, settle_nan};
use ranged1d::Refusal;

// The index that the search finds for the target.
pub fn search_real(
    list: &[f64],
    target: f64,
    method: RoundingMethod,
) -> Result<Option<u64>, Refusal>
    ensures { tell_found result ≡ real_search list.now target method }
{
    let rises = rising(list);
    if !can_search(rises, list) {
        return Err(Refusal::NotMonotone);
    }
    if target.is_nan() {
        return settle_nan(method, list.len());
    }
    Ok(find(rises, list, target, method))
}
