// Predictors whose residue is the exclusive or of the value and what was foreseen.
ghost use Rattle.std.specs.Prelude.{refl};
ghost use Rattle.words.specs.Numbers.{◌⊻◌};
ghost use Rattle.predict.specs.Predictor.{xor1, xor2};

use crate::{Before, Foresight, Way};

// The bits in which the two differ.
pub struct Mixing;

impl Way for Mixing {
    ghost apart = { ◌⊻◌ };

    ghost joined = { ◌⊻◌ };

    fn apart(value: i32, foreseen: i32) -> i32 {
        value ^ foreseen
    }

    fn joined(residue: i32, foreseen: i32) -> i32 {
        residue ^ foreseen
    }
}

// The entry before.
pub struct Xor1;

impl Foresight for Xor1 {
    type Way = Mixing;

    const NUMBER: u8 = 6;

    ghost NUMBER = { 6 };

    ghost means = { xor1 };

    ghost numbered = { refl };

    fn foresee(_i: u16, before: Before) -> i32 {
        before.v1
    }
}

// The entry two before.
pub struct Xor2;

impl Foresight for Xor2 {
    type Way = Mixing;

    const NUMBER: u8 = 7;

    ghost NUMBER = { 7 };

    ghost means = { xor2 };

    ghost numbered = { refl };

    fn foresee(_i: u16, before: Before) -> i32 {
        before.v2
    }
}
