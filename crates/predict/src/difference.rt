// Predictors whose residue is the value less what was foreseen.
ghost use Rattle.std.specs.Prelude.{◌≡◌, refl};
ghost use Rattle.words.specs.Numbers.{◌⊞◌, ◌⊟◌};
ghost use Rattle.predict.specs.Predictor.{onward, strip_step, lag1, lag2, stride1, stride2, strip, ramp, null};

use crate::{Before, Foresight, Way};

// Sum and difference go round at the ends of the 32-bit numbers, so that no value is out of reach.
pub struct Difference;

impl Way for Difference {
    ghost apart = { ◌⊟◌ };

    ghost joined = { ◌⊞◌ };

    #[tactic(auto, using(std::proofs::lemmas::Int::wraps))]
    fn apart(value: i32, foreseen: i32) -> i32 {
        value.wrapping_sub(foreseen)
    }

    #[tactic(auto, using(std::proofs::lemmas::Int::wraps))]
    fn joined(residue: i32, foreseen: i32) -> i32 {
        residue.wrapping_add(foreseen)
    }
}

// The entry before.
pub struct Lag1;

impl Foresight for Lag1 {
    type Way = Difference;

    const NUMBER: u8 = 0;

    ghost NUMBER = { 0 };

    ghost means = { lag1 };

    ghost numbered = { refl };

    fn foresee(_i: u16, before: Before) -> i32 {
        before.v1
    }
}

// The entry two before.
pub struct Lag2;

impl Foresight for Lag2 {
    type Way = Difference;

    const NUMBER: u8 = 1;

    ghost NUMBER = { 1 };

    ghost means = { lag2 };

    ghost numbered = { refl };

    fn foresee(_i: u16, before: Before) -> i32 {
        before.v2
    }
}

// The entry before, and its step from the one before that again.
pub struct Stride1;

impl Foresight for Stride1 {
    type Way = Difference;

    const NUMBER: u8 = 2;

    ghost NUMBER = { 2 };

    ghost means = { stride1 };

    ghost numbered = { refl };

    fn foresee(_i: u16, before: Before) -> i32 {
        next_stride(before.v1, before.v2)
    }
}

// The entry two before, and its step from the one four before again.
pub struct Stride2;

impl Foresight for Stride2 {
    type Way = Difference;

    const NUMBER: u8 = 3;

    ghost NUMBER = { 3 };

    ghost means = { stride2 };

    ghost numbered = { refl };

    fn foresee(_i: u16, before: Before) -> i32 {
        next_stride(before.v2, before.v4)
    }
}

// As `Stride2` where that step is small, else the entry two before plus 2.
pub struct StripIndex;

impl Foresight for StripIndex {
    type Way = Difference;

    const NUMBER: u8 = 4;

    ghost NUMBER = { 4 };

    ghost means = { strip };

    ghost numbered = { refl };

    fn foresee(_i: u16, before: Before) -> i32 {
        next_index(before.v2, before.v4)
    }
}

// The index of the entry.
pub struct Ramp;

impl Foresight for Ramp {
    type Way = Difference;

    const NUMBER: u8 = 5;

    ghost NUMBER = { 5 };

    ghost means = { ramp };

    ghost numbered = { refl };

    fn foresee(i: u16, _before: Before) -> i32 {
        i32::from(i)
    }
}

// Nothing: zero.
pub struct Null;

impl Foresight for Null {
    type Way = Difference;

    const NUMBER: u8 = 8;

    ghost NUMBER = { 8 };

    ghost means = { null };

    ghost numbered = { refl };

    fn foresee(_i: u16, _before: Before) -> i32 {
        0
    }
}

// As far again from `near` as `near` is from `far`.
fn next_stride(near: i32, far: i32) -> i32
    ensures { result ≡ onward near far }
{
    Difference::joined(near, Difference::apart(near, far))
}

// A small step is taken again; any other is taken for a jump, and the strip goes on by 2.
fn next_index(v2: i32, v4: i32) -> i32
    ensures { result ≡ strip_step v2 (v2 ⊟ v4) }
{
    let d = Difference::apart(v2, v4);
    if -8 < d && d < 8 {
        Difference::joined(v2, d)
    } else {
        Difference::joined(v2, 2)
    }
}
