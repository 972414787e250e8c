// The ruler program: for every line of standard input that asks for a ruler it writes the step, the needle and place of each mark and
// the number of marks, or why there is no ruler. Marks are not kept, so that their number needs no memory.
#![tactic(auto)]

mod input;
mod output;

use input::Held;
use line::Request;
use numeric::{Choice, KeyPoints, RangedCoordi32};
use output::Failed;
use ruler::Draft;
use std::io::Read;

type Output = output::Output<65536>;

// All marks and their places. Each mark has a place.
fn put_marks(
    rt: &impl Print,
    r: Request,
    points: KeyPoints,
    out: &mut Output,
) -> Result<(), Failed> {
    // Kept: a chain over `get`, as in marks.
    for v in (0..points.count).filter_map(|i| points.get(i)) {
        if let Ok(x) = RangedCoordi32(r.a, r.b).map(v, r.limit) {
            out.mark(rt, v, x)?;
        }
    }
    Ok(())
}

// What a line is answered with.
fn answer(rt: &impl Print, line: &[u8], out: &mut Output) -> Result<(), Failed> {
    let Some(r) = line::read_line(line) else {
        return out.text(rt, b"bad line\n");
    };
    let draft = Draft {
        a: r.a,
        b: r.b,
        limit: r.limit,
        m: r.m,
        choice: Choice::Cut,
    };
    match draft.plan() {
        Err(why) => out.entry(rt, b"refused ", why.number() as u32),
        Ok(points) => {
            out.entry(rt, b"step ", points.step.unsigned_abs())?;
            put_marks(rt, r, points, out)?;
            out.entry(rt, b"marks ", points.count)
        }
    }
}

// A line's end was found: the line is what is held and this part.
fn end_line(rt: &impl Print, part: &[u8], held: &mut Held, out: &mut Output) -> Result<(), Failed> {
    if held.is_empty() {
        return answer(rt, part, out);
    }
    held.push(part);
    answer(rt, held.as_slice(), out)?;
    held.clear();
    Ok(())
}

// Everything that was read: the lines that ended are answered, and the rest is held.
// Kept: `while let`. A `for` over `split_inclusive` asks each byte: built by rustc 27 ns for a line of 23 bytes, and 13 so.
fn take(rt: &impl Print, read: &[u8], held: &mut Held, out: &mut Output) -> Result<(), Failed> {
    let mut rest = read;
    while let Some(n) = input::line_end(rest) {
        let (part, behind) = rest.split_at(n);
        end_line(rt, part, held, out)?;
        rest = &behind[1..];
    }
    held.push(rest);
    Ok(())
}

// What is written goes out before the next read, which may wait. Where a write fails there is no more to do.
fn run(rt: &impl Print, stdin: &mut impl Read) -> Result<(), Failed> {
    let mut space = [0u8; 65536];
    let mut held = Held::new();
    let mut out = Output::new();
    // A proved loop has to end, and nothing says that the input does: no run uses this number up.
    for _ in 0..u64::MAX {
        let got = stdin.read(&mut space).unwrap_or(0);
        take(rt, &space[..got], &mut held, &mut out)?;
        out.send(rt)?;
        if got == 0 {
            break;
        }
    }
    // A last line may lack its end.
    if held.is_empty() {
        return Ok(());
    }
    end_line(rt, b"", &mut held, &mut out)?;
    out.send(rt)
}

fn main(rt: HostRuntime) {
    let _written = run(&rt, &mut rt.stdin()).is_ok();
}
