// Prints the marks of a few axes, each beside its mirror.
#![tactic(auto)]

use numeric::{KeyPoints, RangedCoordi32};
use std::io;

fn print_marks(rt: &impl Print, p: KeyPoints) -> io::Result<()> {
    let step = p.step;
    print!(rt; " step {step}, marks")?;
    // Kept: a chain over `get`. An iterator of a plan's marks was tried, and the proof of its `next` did not close.
    for v in (0..p.count).filter_map(|i| p.get(i)) {
        print!(rt; " {v}")?;
    }
    println!(rt; "")
}

fn show(rt: &impl Print, a: i32, b: i32, m: u32) -> io::Result<()> {
    print!(rt; "{a}..{b} m {m}:")?;
    match RangedCoordi32(a, b).plan(m) {
        Ok(p) => print_marks(rt, p),
        Err(r) => {
            let number = r.number();
            println!(rt; " refused {number}")
        }
    }
}

fn main(rt: HostRuntime) -> io::Result<()> {
    show(&rt, 3, 15, 4)?;
    show(&rt, -15, -3, 4)?;
    show(&rt, 10, 40, 4)?;
    show(&rt, -40, -10, 4)?;
    show(&rt, -7, 12, 6)?;
    show(&rt, 3, 5, 1)?;
    show(&rt, -5, -3, 1)?;
    show(&rt, 0, 1, 0)
}
