// Lines on calls that write to a lent list: the arguments, then 0, the step where the call tells one, the count and the entries, or the
// number of the refusal. What is not written has to be as it was.
use crate::bits::Word;
use crate::calls::same_refusal;
use ranged1d::Refusal;

// What a call gave: the step where it tells one, and the count; or why it was refused.
pub(crate) type Told = Result<(Option<u64>, usize), Refusal>;

pub(crate) fn counted(x: Result<usize, Refusal>) -> Told {
    let count = x?;
    Ok((None, count))
}

pub(crate) fn marked<S: Word>(x: Result<(S, usize), Refusal>) -> Told {
    let (step, count) = x?;
    Ok((Some(step.word()), count))
}

// The entries that end the words, where these begin with this step and this count.
fn entries(words: &[u64], step: Option<u64>, count: usize) -> Option<&[u64]> {
    let told = words.strip_prefix(&[0])?;
    let rest = match step {
        Some(s) => told.strip_prefix(&[s])?,
        None => told,
    };
    rest.strip_prefix(&[count as u64])
}

fn unset<T: Word>(list: &[T]) -> bool {
    list.iter().all(|x| x.word() == T::UNSET.word())
}

// Whether the list begins with these entries, and is as it was behind them.
fn holds<T: Word>(list: &[T], entries: &[u64]) -> bool {
    list.split_at_checked(entries.len()).is_some_and(|(written, rest)| {
        written
            .iter()
            .zip(entries)
            .all(|(x, word)| x.word() == *word)
            && unset(rest)
    })
}

// Whether the words are what was told and nothing more, and the list holds its entries and no others.
pub(crate) fn same_list<T: Word>(words: &[u64], told: Told, list: &[T]) -> bool {
    match told {
        Ok((step, count)) => {
            entries(words, step, count).is_some_and(|written| written.len() == count
                && holds(list, written))
        }
        Err(r) => same_refusal(words, r) && unset(list),
    }
}

// The same of a call that is lent as many places of the list as its last argument says; `rest` begins with it.
pub(crate) fn same_lent<T: Word, F: FnOnce(&mut [T]) -> Told>(
    rest: &[u64],
    list: &mut [T],
    call: F,
) -> bool
    requires { F.IsAlwaysCallable call }
{
    let Some((size, words)) = rest.split_first() else {
        return false;
    };
    let told = match list.get_mut(..usize::of_word(*size)) {
        Some(out) => call(out),
        None => return false,
    };
    same_list(words, told, list)
}
