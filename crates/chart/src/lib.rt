// Pins on a fault chart: 1,024 counts that the caller lends, one for each entry of a stepped whole axis. Setting or pulling a pin takes the
// axis's closed form and one store, however long the list is.
#![tactic(auto)]

ghost use Rattle.std.specs.Prelude.{◌≡◌, ◌<◌, false, ltb, length, IfOk, IfErr};
ghost use Rattle.ranged1d.specs.Answer.{given, refused};
ghost use Rattle.ranged1d.specs.Refusals.{number_of};
ghost use Rattle.ranged1d.specs.Told.{tell};
ghost use Rattle.chart.specs.Chart.{Deed, chart_size, no_chart, chart_clear, chart_pin, chart_set, chart_pull};
ghost use Rattle.chart.specs.Steps.{chart_entry};

use linspace::Linspacei32;
use ranged1d::Refusal;
use search::RoundingMethod;

// Every chart has so many counts, and its list at most as many entries.
const COUNTS: usize = 1024;

// Whether a list of n entries is too long for a chart.
fn too_many(n: u64) -> bool
    ensures { result ≡ ltb chart_size n }
{
    COUNTS < n as usize
}

// Whether so many lent counts are too few for a chart.
fn too_few(len: usize) -> bool
    ensures { result ≡ ltb len chart_size }
{
    len < COUNTS
}

// Makes the lent counts an empty chart of the axis.
pub fn clear(axis: Linspacei32, counts: &mut [u16]) -> Result<(), Refusal>
    ensures { (tell result, counts.new) ≡ chart_clear axis.inner.0 axis.inner.1 axis.step counts.old }
{
    if too_many(axis.size()?) {
        return Err(Refusal::NoChartEntry);
    }
    if too_few(counts.len()) {
        return Err(Refusal::OutTooShort);
    }
    counts[..COUNTS].fill(0);
    Ok(())
}

// The entry that a search down finds for the pin, in a list that is not too long for a chart.
fn entry_of(axis: Linspacei32, pin: i32) -> Result<usize, Refusal>
    ensures { tell result ≡ chart_entry axis.inner.0 axis.inner.1 axis.step pin }
{
    match axis.index_among(pin, RoundingMethod::Floor)? {
        Some((k, n)) if !too_many(n) => Ok(k as usize),
        _ => Err(Refusal::NoChartEntry),
    }
}

// The same in lent counts, if they are enough for a chart; else why the pin can be neither set nor pulled.
fn count_of(axis: Linspacei32, pin: i32, counts: &[u16]) -> Result<usize, Refusal>
    ensures found { IfOk result (λ k. (chart_entry axis.inner.0 axis.inner.1 axis.step pin ≡ given k) × (no_chart counts.now ≡ false)) }
    ensures inside { IfOk result (λ k. (k < chart_size) × (k < length counts.now)) }
    ensures refused { IfErr result (λ r. (deed : Deed) → chart_pin axis.inner.0 axis.inner.1 axis.step deed pin counts.now ≡ (refused (number_of r), counts.now)) }
{
    let k = entry_of(axis, pin)?;
    if too_few(counts.len()) {
        return Err(Refusal::OutTooShort);
    }
    Ok(k)
}

// A pin more at its entry.
pub fn set(axis: Linspacei32, pin: i32, counts: &mut [u16]) -> Result<(), Refusal>
    ensures { (tell result, counts.new) ≡ chart_set axis.inner.0 axis.inner.1 axis.step pin counts.old }
{
    let k = count_of(axis, pin, counts)?;
    counts[k] = counts[k].checked_add(1).ok_or(Refusal::CountFull)?;
    Ok(())
}

// A pin less at its entry.
// Kept: beside `set`. One function that is handed the sum as a closure was tried: that the count is below 65,536 is not known once the list is
// written, and its proof did not close. What is shared is `count_of`; to lend the count as `&mut u16` it would have to promise besides that the
// memory ends with that count changed alone.
pub fn pull(axis: Linspacei32, pin: i32, counts: &mut [u16]) -> Result<(), Refusal>
    ensures { (tell result, counts.new) ≡ chart_pull axis.inner.0 axis.inner.1 axis.step pin counts.old }
{
    let k = count_of(axis, pin, counts)?;
    counts[k] = counts[k].checked_sub(1).ok_or(Refusal::CountEmpty)?;
    Ok(())
}
