// The film that segments share: how far one goes, and where between its limits the entries are placed.
ghost use Rattle.std.specs.Prelude.{◌≡◌, ◌≤◌, true, false, pos, ◌+ℤ◌, ◌-ℤ◌, unsigned_abs, IfOk, IfErr};
ghost use Rattle.ranged1d.specs.Admitted.{limit_admitted};
ghost use Rattle.ranged1d.specs.Refusals.{number_of};
ghost use Rattle.segmented.specs.Segments.{half, shared, margin, narrowed};

use ranged1d::{Limit, Refusal};

// Among how many a film is shared.
#[derive(Drop)]
pub(crate) struct Shares {
    pub(crate) n: u32,
    ghost some: { 1 ≤ n },
    ghost most: { n ≤ 16777216 },
}

// Admitted limits of a film.
#[derive(Clone, Copy)]
pub(crate) struct Film {
    pub(crate) limit: Limit,
    ghost admitted: { limit_admitted limit ≡ true },
}

// A film, and that between whose limits entries are placed.
#[derive(Drop)]
pub(crate) struct Narrowed {
    pub(crate) film: Film,
    pub(crate) within: Film,
}

impl Film {
    // A film of these limits, or 2.
    pub(crate) fn of(limit: Limit) -> Result<Film, Refusal>
        ensures limit_is { IfOk result (λ f. f.limit ≡ limit) }
        ensures refused { IfErr result (λ r. (number_of r ≡ 2) × (limit_admitted limit ≡ false)) }
    {
        if !limit.admitted() {
            return Err(Refusal::LimitNotAdmitted);
        }
        Ok(Film { limit })
    }
}

impl Shares {
    // A length l of a film, shared, l being no less than 0. Twice l and n are exact as f32, so that their quotient is rounded once, to twice
    // what l ÷ n is rounded to. Cut, it counts halves, and a half over goes up.
    fn share_up(self, l: u32) -> u32
        requires { l ≤ 2000000 }
        ensures { pos result ≡ shared self.n (pos l) }
    {
        let halves = std::num::truncating_f32_to_u64(((l + l) as f32) / (self.n as f32));
        ((halves + 1) / 2) as u32
    }

    // The same of any l: a half goes away from zero.
    fn share(self, l: i32) -> i32
        requires { unsigned_abs l ≤ 2000000 }
        ensures { result ≡ shared self.n l }
    {
        let size = self.share_up(l.unsigned_abs()) as i32;
        if l < 0 { -size } else { size }
    }

    // The margin of a segment.
    fn margin(self, film: Film) -> i32
        ensures { result ≡ margin self.n film.limit }
    {
        self.share(film.limit.1 - film.limit.0)
    }

    // Entries are placed between limits that lie between those of the film, so that they are admitted too.
    pub(crate) fn narrow(self, film: Film) -> Narrowed
        ensures film_is { result.film.limit ≡ film.limit }
        ensures within_is { result.within.limit ≡ narrowed self.n film.limit }
    {
        let limit = Limit(film.limit.0, film.limit.1 - self.margin(film));
        let within = Film { limit };
        Narrowed { film, within }
    }
}

impl Narrowed {
    // Half the margin behind a place: the margin is what the second limit was moved in by.
    pub(crate) fn beside(&self, left: i32) -> i32
        requires { unsigned_abs left ≤ 1001000000 }
        ensures { result ≡ left +ℤ half (self.now.film.limit.1 -ℤ self.now.within.limit.1) }
    {
        left + (self.film.limit.1 - self.within.limit.1) / 2
    }
}

// Half way between two places.
pub(crate) fn between(left: i32, right: i32) -> i32
    requires left_bound { unsigned_abs left ≤ 1001000000 }
    requires right_bound { unsigned_abs right ≤ 1001000000 }
    ensures { result ≡ half (left +ℤ right) }
{
    (left + right) / 2
}
