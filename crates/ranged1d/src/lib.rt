// What every axis shares, after ranged1d/mod.rs: the limits on the film, why a call is refused, and which numbers are admitted.
#![tactic(auto)]

ghost use Rattle.std.specs.Prelude.{◌≡◌, nat_abs};
ghost use Rattle.std.specs.Int.{w32};
ghost use Rattle.std.proofs.Common.{to_z};
ghost use Rattle.ranged1d.specs.Refusals.{number_of};
ghost use Rattle.ranged1d.specs.Admitted.{whole_admitted, index_admitted, pixel_admitted, limit_admitted, reading_admitted};

// The limits p and q of an axis on the film: where its first and its second end are placed.
#[derive(Clone, Copy)]
pub struct Limit(pub i32, pub i32);

// Why a call is refused, each case with its number. specs/Refusals has the numbers too, and specs/Answer the place of each in the order: a
// later refusal is a case here and a line in each of the two.
#[derive(Clone, Copy)]
pub enum Refusal {
    WholeNotAdmitted = 1,
    LimitNotAdmitted = 2,
    NoStep = 3,
    NoSegments = 4,
    TooFar = 5,
    StepAgainstAxis = 6,
    ListTooLong = 7,
    NotMonotone = 8,
    NanTarget = 9,
    AboveI32 = 10,
    NotPrintable = 11,
    TooManyDecimals = 12,
    OutTooShort = 13,
    NotARuler = 14,
    UnknownTwist = 15,
    TwistLost = 16,
    RealAxisNotMarked = 17,
    NotOnAxis = 18,
    BelowI32 = 19,
    TooManyDigits = 24,
    NotADecimal = 25,
    BadWeek = 26,
    BadMinute = 27,
    TooSmall = 28,
    NoChartEntry = 20,
    CountFull = 21,
    CountEmpty = 22,
    BorderCount = 23,
}

impl Refusal {
    pub fn number(self) -> u8
        ensures { result ≡ number_of self }
    {
        self as u8
    }
}

// How far z lies from zero.
// Kept: a public promise and its edit, though the library has the method, which the code calls itself.
pub fn unsigned_abs(z: i32) -> u32
    ensures { result ≡ nat_abs z }
{
    i32::unsigned_abs(z)
}

// The number that has the bits x in two's complement.
// Kept: likewise.
pub fn signed(x: u32) -> i32
    ensures { result ≡ to_z w32 x }
{
    x.cast_signed()
}

// Whether z is admitted as a whole end, value, step or list entry. Two comparisons, which compile to one; the size compared compiles to twice as much.
pub fn whole_admitted(z: i32) -> bool
    ensures { result ≡ whole_admitted z }
{
    -1000000000 <= z && z <= 1000000000
}

// Whether k is admitted as an end of an index axis.
pub fn index_admitted(k: usize) -> bool
    ensures { result ≡ index_admitted k }
{
    k <= 1000000000
}

// Whether x is admitted as a pixel or as one of two limits.
pub fn pixel_admitted(x: i32) -> bool
    ensures { result ≡ pixel_admitted x }
{
    -1000000 <= x && x <= 1000000
}

impl Limit {
    pub fn admitted(self) -> bool
        ensures { result ≡ limit_admitted self }
    {
        pixel_admitted(self.0) && pixel_admitted(self.1)
    }

    // Whether pixel x may be read by these limits: it is admitted, and they are.
    pub fn admits(self, x: i32) -> bool
        ensures { result ≡ reading_admitted x self }
    {
        pixel_admitted(x) && self.admitted()
    }
}
