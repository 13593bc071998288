// Predictors and packings by their names and numbers: one table for every task that is done under a pairing of the two.
#![tactic(auto)]

ghost use Rattle.std.specs.Prelude.{◌≡◌};
ghost use Rattle.predict.specs.Predictor.{PredictorMeaning};
ghost use Rattle.pack.specs.Packing.{PackingMeaning};
ghost use Rattle.pairing.specs.Pairings.{predictor_of, packing_of, pairing_named};

mod names;

pub use names::{PackingName, PredictorName};
use pack::{Fielded, Packing, Plain};
use predict::{Lag1, Lag2, Null, Predictor, Ramp, Stride1, Stride2, StripIndex, Xor1, Xor2};
use refusal::Why;

// What is to be done under a predictor and a packing.
pub trait Task {
    type Output;

    // What it may answer: the task before, the predictor, the packing, the task after, and the answer.
    ghost answers: { Self → PredictorMeaning → PackingMeaning → Self → Self.Output → Type 0 };

    fn run<P: Predictor, Q: Packing>(&mut self) -> Self::Output
        ensures { answers self.old P.means Q.means self.new result };
}

// A predictor and a packing.
#[derive(Clone, Copy, Debug, PartialEq, Eq)]
pub struct Pairing {
    pub predictor: PredictorName,
    pub packing: PackingName,
}

impl Pairing {
    // The pairing that two numbers name. One that names none is refused, the predictor's first.
    pub fn new(predictor: u8, packing: u8) -> Result<Pairing, Why>
        ensures { result ≡ pairing_named predictor packing }
    {
        Ok(Pairing {
            predictor: predictor.try_into()?,
            packing: packing.try_into()?,
        })
    }

    // Runs a task under the pairing.
    pub fn run<T: Task>(self, task: &mut T) -> T::Output
        ensures { T.answers task.old (predictor_of self.predictor) (packing_of self.packing)
            task.new result }
    {
        match self.predictor {
            PredictorName::Lag1 => self.packing.run::<T, Lag1>(task),
            PredictorName::Lag2 => self.packing.run::<T, Lag2>(task),
            PredictorName::Stride1 => self.packing.run::<T, Stride1>(task),
            PredictorName::Stride2 => self.packing.run::<T, Stride2>(task),
            PredictorName::StripIndex => self.packing.run::<T, StripIndex>(task),
            PredictorName::Ramp => self.packing.run::<T, Ramp>(task),
            PredictorName::Xor1 => self.packing.run::<T, Xor1>(task),
            PredictorName::Xor2 => self.packing.run::<T, Xor2>(task),
            PredictorName::Null => self.packing.run::<T, Null>(task),
        }
    }
}

impl PackingName {
    // Runs a task under a predictor and this packing. It stands apart, so that the frames of the pairings do not add up.
    #[inline(never)]
    fn run<T: Task, P: Predictor>(self, task: &mut T) -> T::Output
        ensures { T.answers task.old P.means (packing_of self) task.new result }
    {
        match self {
            PackingName::Plain => task.run::<P, Plain>(),
            PackingName::Fielded => task.run::<P, Fielded>(),
        }
    }
}
