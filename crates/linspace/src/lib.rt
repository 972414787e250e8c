// Stepped axes, after combinators/linspace.rs: the list of an axis by a step, and what is found, placed, read and marked on it.
#![tactic(auto)]

mod lanes;
mod reals;
mod steps;
mod track;
mod wholes;

use numeric::{RangedCoordf64, RangedCoordi32};

// An axis by a step.
#[derive(Clone, Copy)]
pub struct Linspace<A, T> {
    pub inner: A,
    pub step: T,
}

// A whole axis by a step, whose list has a closed form, and a real one, whose list is walked.
pub type Linspacei32 = Linspace<RangedCoordi32, i32>;

pub type Linspacef64 = Linspace<RangedCoordf64, f64>;
