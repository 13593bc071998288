// Predictors: each foresees an entry from the entries before it, and what is stored is how far it was wrong.
#![tactic(auto)]

ghost use Rattle.std.specs.Prelude.{◌≡◌, ℕ, ℤ};
ghost use Rattle.predict.specs.Predictor.{PredictorMeaning};
ghost use Rattle.predict.specs.Residues.{start, after, stored as Stored, restored as Restored};
ghost use Rattle.predict.specs.Laws.{ResiduesUndone, Figures};

mod difference;
mod mixing;

pub use difference::{Difference, Lag1, Lag2, Null, Ramp, Stride1, Stride2, StripIndex};
pub use mixing::{Mixing, Xor1, Xor2};

// The four entries before the one in hand, the nearest first.
#[derive(Clone, Copy, Debug, Default, PartialEq, Eq)]
pub struct Before {
    pub v1: i32,
    pub v2: i32,
    pub v3: i32,
    pub v4: i32,
}

impl Before {
    // Nothing stands before the first entry: zeros.
    pub fn none() -> Before
        ensures { result ≡ start }
    {
        Before::default()
    }

    // With one entry more, which is then the nearest.
    pub fn then(self, entry: i32) -> Before
        ensures { result ≡ after self entry }
    {
        Before {
            v1: entry,
            v2: self.v1,
            v3: self.v2,
            v4: self.v3,
        }
    }
}

// What sets a value apart from what was foreseen; joined to what was foreseen, it is the value again.
pub trait Way {
    ghost apart: { ℤ → ℤ → ℤ };

    ghost joined: { ℤ → ℤ → ℤ };

    fn apart(value: i32, foreseen: i32) -> i32
        ensures { result ≡ apart value foreseen };

    fn joined(residue: i32, foreseen: i32) -> i32
        ensures { result ≡ joined residue foreseen };
}

// A predictor: what is stored of entry `i` in its place, from the four before it, and the entry from what is stored.
pub trait Predictor {
    const NUMBER: u8;

    ghost NUMBER: { ℕ };

    ghost means: { PredictorMeaning };

    fn residue(i: u16, before: Before, value: i32) -> i32
        ensures { result ≡ means.residue i before value };

    fn value(i: u16, before: Before, residue: i32) -> i32
        ensures { result ≡ means.value i before residue };

    // The number that a file gives is the predictor's.
    ghost numbered: { NUMBER ≡ means.number };
}

// A way to foresee entry `i` from the four before it. The residue is what sets the value apart from what was foreseen.
pub trait Foresight {
    const NUMBER: u8;

    type Way: Way;

    ghost NUMBER: { ℕ };

    ghost means: { PredictorMeaning };

    fn foresee(i: u16, before: Before) -> i32
        ensures residue { (value : ℤ) →
            means.residue i before value ≡ Self.Way.apart value result }
        ensures value { (residue : ℤ) →
            means.value i before residue ≡ Self.Way.joined residue result };

    ghost numbered: { NUMBER ≡ means.number };
}

// Who foresees, predicts.
impl<F: Foresight> Predictor for F {
    const NUMBER: u8 = F::NUMBER;

    ghost NUMBER = { F.Foresight.NUMBER };

    ghost means = { F.Foresight.means };

    ghost numbered = { F.Foresight.numbered };

    fn residue(i: u16, before: Before, value: i32) -> i32 {
        F::Way::apart(value, F::foresee(i, before))
    }

    fn value(i: u16, before: Before, residue: i32) -> i32 {
        F::Way::joined(residue, F::foresee(i, before))
    }
}

// So many entries at the front are stored as they are.
const KEPT: u16 = 4;

// What is stored of entry `i`: one of the first four as it is, any other as its residue.
pub fn stored<P: Predictor>(i: u16, before: Before, value: i32) -> i32
    ensures { result ≡ Stored P.means i before value }
{
    if i < KEPT {
        value
    } else {
        P::residue(i, before, value)
    }
}

// Entry `i`, from what is stored of it.
pub fn restored<P: Predictor>(i: u16, before: Before, residue: i32) -> i32
    ensures { result ≡ Restored P.means i before residue }
{
    if i < KEPT {
        residue
    } else {
        P::value(i, before, residue)
    }
}

// Values stored and restored are the same values, and residues restored and stored the same residues.
pub fn residues_undone()
    ensures undone { ResiduesUndone }
    ensures figures { Figures }
{}
