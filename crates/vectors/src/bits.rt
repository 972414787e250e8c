// Numbers as the 64 bits in which a line has them.

use std::num::{f64_from_bits_with_nan, f64_to_bits_with_nan};

pub(crate) trait Word: Copy {
    // What stands in every place of a list before a call. No line has it as an entry.
    const UNSET: Self;

    fn of_word(word: u64) -> Self;

    fn word(self) -> u64;
}

// In two's complement; the low half of the word.
impl Word for i32 {
    const UNSET: i32 = 2000000001;

    fn of_word(word: u64) -> i32 {
        u32::of_word(word).cast_signed()
    }

    fn word(self) -> u64 {
        i64::from(self).cast_unsigned()
    }
}

impl Word for u32 {
    const UNSET: u32 = 2000000001;

    fn of_word(word: u64) -> u32 {
        (word & 0xffff_ffff) as u32
    }

    fn word(self) -> u64 {
        u64::from(self)
    }
}

impl Word for u64 {
    const UNSET: u64 = 2000000001;

    fn of_word(word: u64) -> u64 {
        word
    }

    fn word(self) -> u64 {
        self
    }
}

impl Word for usize {
    const UNSET: usize = 2000000001;

    fn of_word(word: u64) -> usize {
        word as usize
    }

    fn word(self) -> u64 {
        self as u64
    }
}

// By its pattern; the lines have one for all NaNs.
impl Word for f64 {
    const UNSET: f64 = 2000000001.0;

    fn of_word(word: u64) -> f64 {
        f64_from_bits_with_nan(word)
    }

    fn word(self) -> u64 {
        f64_to_bits_with_nan(self)
    }
}

// Word k of the line, or 0 where it has none.
pub(crate) fn at<T: Word>(numbers: &[u64], k: usize) -> T {
    T::of_word(numbers.get(k).copied().unwrap_or(0))
}

// What stands behind the first `args` words of the line.
pub(crate) fn after(numbers: &[u64], args: usize) -> &[u64] {
    numbers.get(args..).unwrap_or(&[])
}
