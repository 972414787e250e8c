// Replays plotters' answers: each line of standard input is a call, its arguments and what plotters gave (compare/vectors writes the
// list). Prints for each call how many lines matched, and then how many lines did not.
#![tactic(auto)]

ghost use Rattle.std.specs.Prelude.{◌≡◌, ◌≤◌, length, IfOk};

mod bits;
mod calls;
mod labels;
mod lists;
mod marks;
mod searches;
mod segments;
mod steps;
mod text;

use std::io;
use std::io::Read;

// The calls in the order of the report: the word that a line begins with, and the name.
// Kept: pairs, one on a line, where a struct with named fields is four lines each; the totals are apart, since these are static.
static CALLS: [(&str, &str); 46] = [
    ("whole", "whole_key_points"),
    ("index", "index_key_points"),
    ("wmap", "whole_map"),
    ("rmap", "real_map"),
    ("size", "whole_size"),
    ("index_of", "whole_index_of"),
    ("from_index", "whole_from_index"),
    ("unmap", "whole_unmap"),
    ("runmap", "real_unmap"),
    ("wsearch", "search_whole"),
    ("rsearch", "search_real"),
    ("wstepsize", "step_whole_size"),
    ("wstepat", "step_whole_from_index"),
    ("wstepidx", "step_whole_index_of"),
    ("wstepmap", "step_whole_map"),
    ("wstepread", "step_whole_unmap"),
    ("rstepsize", "step_real_size"),
    ("rstepat", "step_real_from_index"),
    ("rstepidx", "step_real_index_of"),
    ("rstepmap", "step_real_map"),
    ("rstepread", "step_real_unmap"),
    ("segsize", "seg_whole_size"),
    ("segat", "seg_whole_from_index"),
    ("segidx", "seg_whole_index_of"),
    ("segmap", "seg_whole_map"),
    ("segread", "seg_whole_unmap"),
    ("wsegsize", "seg_step_whole_size"),
    ("wsegat", "seg_step_whole_from_index"),
    ("wsegidx", "seg_step_whole_index_of"),
    ("wsegmap", "seg_step_whole_map"),
    ("wsegread", "seg_step_whole_unmap"),
    ("rsegsize", "seg_step_real_size"),
    ("rsegat", "seg_step_real_from_index"),
    ("rsegidx", "seg_step_real_index_of"),
    ("rsegmap", "seg_step_real_map"),
    ("rsegread", "seg_step_real_unmap"),
    ("wsteplist", "step_whole_values"),
    ("wstepmarks", "step_whole_key_points"),
    ("rsteplist", "step_real_values"),
    ("rstepmarks", "step_real_key_points"),
    ("segmarks", "seg_whole_key_points"),
    ("wsegmarks", "seg_step_whole_key_points"),
    ("rsegmarks", "seg_step_real_key_points"),
    ("rmarks", "real_key_points"),
    ("label", "label"),
    ("slabel", "label_scientific"),
];

// How many lines matched, for each of CALLS, and how many did not.
#[derive(Drop)]
struct Totals {
    matched: [u32; 46],
    differ: u32,
}

// Whether the call answers as the line has it.
fn matched(call: &[u8], line: &[u8], numbers: &[u64]) -> bool {
    match call {
        b"whole" => marks::whole(numbers),
        b"index" => marks::index(numbers),
        b"rmarks" => marks::real(numbers),
        b"wsearch" => searches::whole_search(numbers),
        b"rsearch" => searches::real_search(numbers),
        b"label" => labels::label(line, numbers),
        b"slabel" => labels::scientific(line, numbers),
        _ => calls::plain(call, numbers) || axis_matched(call, numbers),
    }
}

// The same of the calls on stepped axes and segments.
fn axis_matched(call: &[u8], numbers: &[u64]) -> bool {
    if let Some(rest) = call.strip_prefix(b"wstep") {
        return steps::whole(rest, numbers);
    }
    if let Some(rest) = call.strip_prefix(b"rstep") {
        return steps::real(rest, numbers);
    }
    if let Some(rest) = call.strip_prefix(b"seg") {
        return segments::plain(rest, numbers);
    }
    if let Some(rest) = call.strip_prefix(b"wseg") {
        return segments::whole(rest, numbers);
    }
    if let Some(rest) = call.strip_prefix(b"rseg") {
        return segments::real(rest, numbers);
    }
    false
}

// The place in CALLS of the call that answers as the line has it.
fn judge(line: &[u8]) -> Option<usize> {
    if line.is_empty() {
        return None;
    }
    let (word, rest) = text::split_word(line);
    let mut space = [0; 64];
    let n = text::numbers(rest, &mut space);
    if !matched(word, line, &space[..n]) {
        return None;
    }
    CALLS
        .iter()
        .position(|&(begins, _)| begins.as_bytes() == word)
}

// One more, up to the largest u32.
fn raise(total: &mut u32) {
    *total = total.saturating_add(1);
}

fn count(totals: &mut Totals, call: Option<usize>) {
    match call {
        Some(k) => {
            if let Some(total) = totals.matched.get_mut(k) {
                raise(total);
            }
        }
        None => raise(&mut totals.differ),
    }
}

// Every line of the text, each ended by a newline or by the end; a comment begins with #.
fn replay(text: &[u8], totals: &mut Totals) {
    for ended in text.split_inclusive(|b| *b == b'\n') {
        let line = ended.strip_suffix(b"\n").unwrap_or(ended);
        if !line.starts_with(b"#") {
            count(totals, judge(line));
        }
    }
}

fn report(rt: &impl Print, totals: &Totals) -> io::Result<()> {
    for (&(_, name), total) in CALLS.iter().zip(&totals.matched) {
        println!(rt; "{name} matched: {total}")?;
    }
    let differ = totals.differ;
    println!(rt; "lines that differ: {differ}")
}

// Reads until `space` is full or the input ends; how many bytes that were.
// Kept: a loop, since the library's read_to_end fills a Vec, and read_exact has to know the length.
fn read_full(stdin: &mut impl Read, space: &mut [u8]) -> io::Result<usize>
    ensures { IfOk result (λ n. n ≤ length space.new) }
{
    let mut done = 0;
    while done < space.len() {
        let n = stdin.read(&mut space[done..])?;
        if n == 0 {
            break;
        }
        done += n;
    }
    Ok(done)
}

// Room for the whole list.
fn room() -> [u8; 1048576]
    ensures { 1048576 ≡ length result }
{
    [0; 1048576]
}

fn main(rt: HostRuntime) -> io::Result<()> {
    let mut space = room();
    let n = read_full(&mut rt.stdin(), &mut space)?;
    let mut totals = Totals {
        matched: [0; 46],
        differ: 0,
    };
    replay(&space[..n], &mut totals);
    report(&rt, &totals)
}
