// Searches of a lent list of whole numbers.
ghost use Rattle.std.specs.Prelude.{◌≡◌, true};
ghost use Rattle.ranged1d.specs.Admitted.{whole_admitted};
ghost use Rattle.ranged1d.specs.Numbers.{every};
ghost use Rattle.ranged1d.specs.Told.{tell_found};
ghost use Rattle.search.specs.Lists.{searchable, whole_search};
ghost use Rattle.search.specs.Search.{wholes};

use crate::RoundingMethod;
use crate::steps::{can_search, find, rising};
use ranged1d::Refusal;

// Whether every entry is admitted.
fn admitted(list: &[i32]) -> bool
    ensures { result ≡ every whole_admitted list.now }
{
    list.iter().all(|z| ranged1d::whole_admitted(*z))
}

// The same of a list that can be searched, whose entries all lie between the first and the last.
fn ends_admitted(list: &[i32]) -> bool
    requires { searchable wholes list.now ≡ true }
    ensures { result ≡ every whole_admitted list.now }
{
    let n = list.len();
    n == 0 || ranged1d::whole_admitted(list[0]) & ranged1d::whole_admitted(list[n - 1])
}

// The index that the search finds for the target.
pub fn search_whole(
    list: &[i32],
    target: i32,
    method: RoundingMethod,
) -> Result<Option<u64>, Refusal>
    ensures { tell_found result ≡ whole_search list.now target method }
{
    if !ranged1d::whole_admitted(target) {
        return Err(Refusal::WholeNotAdmitted);
    }
    let rises = rising(list);
    if !can_search(rises, list) {
        // 1 comes before 8
        if !admitted(list) {
            return Err(Refusal::WholeNotAdmitted);
        }
        return Err(Refusal::NotMonotone);
    }
    if !ends_admitted(list) {
        return Err(Refusal::WholeNotAdmitted);
    }
    Ok(find(rises, list, target, method))
}
