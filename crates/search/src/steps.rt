// Searches of a lent list, whatever its entries are.
ghost use Rattle.std.specs.Prelude.{◌≡◌, ℕ, suc, true, get_or};
ghost use Rattle.ranged1d.specs.Told.{tell_option};
ghost use Rattle.search.specs.Lists.{toward, ascends, searchable};
ghost use Rattle.search.specs.Search.{search};
ghost use Rattle.search.specs.Steps.{rises_first, PlaceOf};

use crate::{Entry, Place, RoundingMethod};

// Whether x comes before y in a list that rises or falls.
// Kept: told whether the list rises, which its first entries say. As a const each caller would be written
// `if rises { position::<true>(…) } else { position::<false>(…) }`, and stand twice in the program.
pub fn precedes<T: Entry>(rises: bool, x: T, y: T) -> bool
    ensures { result ≡ toward rises T.numbers.less x y }
{
    if rises { x.is_less(y) } else { y.is_less(x) }
}

// Whether the first two entries rise; a list without two counts as rising.
pub(crate) fn rising<T: Entry>(list: &[T]) -> bool
    ensures { result ≡ rises_first T.numbers.less list.now }
{
    match list {
        [x, y, ..] => x.is_less(*y),
        _ => true,
    }
}

// Whether each entry comes before the next. No pair is left out and none ends the loop, so that the compiler compares several at a time.
// Kept: pairs by their index. Over `windows(2)` the compiler carries an entry from pair to pair, and a long list may take a third longer.
fn in_line<T: Entry>(rises: bool, list: &[T]) -> bool
    ensures { result ≡ ascends (toward rises T.numbers.less) list.now }
{
    let mut ok = true;
    for k in 1..list.len() {
        ok &= precedes(rises, list[k - 1], list[k]);
    }
    ok
}

// The same by runs of 256 pairs, each from the last entry of the one before: a long list that is out of order near its start is left there.
// Kept: a while. The library's chunks do not overlap, and these share an entry.
fn ordered<T: Entry>(rises: bool, list: &[T]) -> bool
    ensures { result ≡ ascends (toward rises T.numbers.less) list.now }
{
    let mut rest = list;
    while 256 < rest.len() {
        if !in_line(rises, &rest[..257]) {
            return false;
        }
        rest = &rest[256..];
    }
    in_line(rises, rest)
}

// Whether the list can be searched; rises says whether its first two entries rise, which a caller asks once for this and for `find`.
pub(crate) fn can_search<T: Entry>(rises: bool, list: &[T]) -> bool
    requires { rises ≡ rises_first T.numbers.less list.now }
    ensures { result ≡ searchable T.numbers list.now }
{
    match list {
        [x] => x.is_equal(*x),
        _ => ordered(rises, list),
    }
}

// How many entries come before t; the list is ordered, so that half of what is left is settled by the entry in its middle.
fn position<T: Entry>(rises: bool, list: &[T], t: T) -> usize
    requires { ascends (toward rises T.numbers.less) list.now ≡ true }
    ensures { PlaceOf (toward rises T.numbers.less) list.now t t result }
{
    list.partition_point(|x| precedes(rises, *x, t))
}

// Entry i, or t where there is none.
fn entry_or<T: Entry>(list: &[T], i: usize, t: T) -> T
    ensures { result ≡ get_or list.now i t }
{
    list.get(i).copied().unwrap_or(t)
}

// The last entry before the target's place, or t where there is none.
fn entry_before<T: Entry>(list: &[T], i: usize, t: T) -> T
    ensures { (j : ℕ) → suc j ≡ i → result ≡ get_or list.now j t }
{
    if i == 0 {
        return t;
    }
    entry_or(list, i - 1, t)
}

// The index that the search finds in a list that can be searched.
pub(crate) fn find<T: Entry>(rises: bool, list: &[T], t: T, method: RoundingMethod) -> Option<u64>
    requires rises_value { rises ≡ rises_first T.numbers.less list.now }
    requires list_value { searchable T.numbers list.now ≡ true }
    requires t_value { T.numbers.equal t t ≡ true }
    ensures { tell_option result ≡ search T.numbers t method list.now }
{
    let i = position(rises, list, t);
    let x = entry_before(list, i, t);
    let y = entry_or(list, i, t);
    let place = Place {
        rises,
        n: list.len(),
        i,
    };
    place.settle(method, x, t, y)
}
