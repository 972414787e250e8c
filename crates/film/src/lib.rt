// Several borders on one film: rulers of kind 6, one behind another, under one mark limit.
#![tactic(auto)]

ghost use Rattle.std.specs.Prelude.{◌≡◌, ◌++◌, ◌<◌, ◌≤◌, length, map, drop};
ghost use Rattle.ranged1d.specs.Told.{tell};
ghost use Rattle.film.specs.Film.{twist_handed, share, ruler_for, film_bytes, film_write};
ghost use Rattle.film.specs.Steps.{border_from, draft_of, settled, walked, Accepted};

use numeric::Choice;
use ranged1d::{Limit, Refusal};
use ruler::Draft;

// A border: its axis, its limits on the film, and the number of its twist.
#[derive(Clone, Copy)]
pub struct Border {
    pub a: i32,
    pub b: i32,
    pub limit: Limit,
    pub twist: u32,
}

// A twist as the writer of rulers is handed it. One below zero is unknown, as 2 is.
fn twist_handed(z: i32) -> u32
    ensures { result ≡ twist_handed z }
{
    u32::try_from(z).unwrap_or(2)
}

impl Border {
    // The border of five numbers.
    #[tactic(auto, unfolding(crate::specs::Steps::border_from))]
    fn of(numbers: &[i32; 5]) -> Border
        ensures { result ≡ border_from numbers.now }
    {
        Border {
            a: numbers[0],
            b: numbers[1],
            limit: Limit(numbers[2], numbers[3]),
            twist: twist_handed(numbers[4]),
        }
    }

    // What a ruler of the border is drawn for, under the mark limit m.
    fn draft(self, m: u32) -> Draft
        ensures { result ≡ draft_of self m }
    {
        Draft {
            a: self.a,
            b: self.b,
            limit: self.limit,
            m,
            choice: Choice::Inside,
        }
    }

    // What the writer would answer for the border under the mark limit m, were it lent `room` bytes.
    // Kept: 26 + 20 · count is worked out here as the writer of rulers does. A call of the ruler's crate for it would be public, and promise more.
    fn settle(self, m: u32, room: usize) -> Result<(usize, usize), Refusal>
        ensures { tell result ≡ settled self m room }
    {
        let count = self.draft(m).plan()?.count as usize;
        let size = 26 + 20 * count;
        if room < size {
            return Err(Refusal::OutTooShort);
        }
        // Kept: a twist stays a number up to here, as the public signature has it, and 15 comes behind 13: an `Option<Twist>` would say no more.
        if 1 < self.twist {
            return Err(Refusal::UnknownTwist);
        }
        Ok((size, count))
    }
}

// The borders of a film, as five numbers each, and the mark limit for all of them.
#[derive(Clone, Copy)]
struct Film<'a> {
    borders: &'a [[i32; 5]],
    m: u32,
    ghost few: { length borders.now ≤ 16 },
}

impl<'a> Film<'a> {
    // The marks that border i may use: the mark limit shared out, and what is left over to the first ones.
    fn share_of(self, i: usize) -> u32
        requires { i < length self.borders.now }
        ensures { result ≡ share self.entry.m (length self.entry.borders.now) i }
    {
        let n = self.borders.len() as u32;
        let each = self.m / n;
        let over = (self.m % n) as usize;
        if i < over {
            return each + 1;
        }
        each
    }

    // What is answered for the borders, each lent what the rulers before it leave of `room` bytes; nothing is written.
    fn measure(self, room: usize) -> Result<(usize, usize), Refusal>
        ensures { tell result ≡ walked self.entry.m (length self.entry.borders.now) 0 (map border_from self.entry.borders.now) room }
    {
        let mut at = 0;
        let mut marks = 0;
        for (i, numbers) in self.borders.iter().enumerate() {
            let share = self.share_of(i);
            let (size, count) = Border::of(numbers).settle(share, room - at)?;
            at += size;
            marks += count;
        }
        Ok((at, marks))
    }

    // The rulers of borders that are all taken, one behind another.
    fn put(self, out: &mut [u8])
        requires { Accepted (walked self.m (length self.borders.now) 0 (map border_from self.borders.now) (length out.old)) }
        ensures { out.new ≡ film_bytes self.entry.m (length self.entry.borders.now) 0 (map border_from self.entry.borders.now) ++ drop (length (film_bytes self.entry.m (length self.entry.borders.now) 0 (map border_from self.entry.borders.now))) out.old }
    {
        let mut at = 0;
        for (k, numbers) in self.borders.iter().enumerate() {
            let x = Border::of(numbers);
            let share = self.share_of(k);
            at += put_border(x, share, &mut out[at..]);
        }
    }
}

// The ruler of a border that the writer takes, at the start of out; its number of bytes.
fn put_border(x: Border, m: u32, out: &mut [u8]) -> usize
    requires { Accepted (settled x m (length out.old)) }
    ensures { (result ≡ length (ruler_for m x)) × (out.new ≡ ruler_for m x ++ drop (length (ruler_for m x)) out.old) }
{
    match x.draft(m).write_twisted(x.twist, out) {
        Ok((size, _)) => size,
        Err(_) => 0,
    }
}

// The rulers of the borders, given as five numbers each, a, b, p, q and twist, under the mark limit m for the film: written to the start of
// out once every border is accepted.
pub fn write(borders: &[i32], m: u32, out: &mut [u8]) -> Result<(usize, usize), Refusal>
    ensures { (tell result, out.new) ≡ film_write borders.now m out.old }
{
    let (fives, rest) = borders.as_chunks::<5>();
    if fives.is_empty() || 16 < fives.len() || !rest.is_empty() {
        return Err(Refusal::BorderCount);
    }
    let film = Film { borders: fives, m };
    let (size, marks) = film.measure(out.len())?;
    film.put(out);
    Ok((size, marks))
}
