// The predictors and packings by name, and the numbers that files and controllers have for them.
ghost use Rattle.std.specs.Prelude.{◌≡◌};
ghost use Rattle.pairing.specs.Pairings.{predictor_named, packing_named};

use refusal::Why;

#[derive(Clone, Copy, Debug, PartialEq, Eq)]
pub enum PredictorName {
    Lag1,
    Lag2,
    Stride1,
    Stride2,
    StripIndex,
    Ramp,
    Xor1,
    Xor2,
    Null,
}

impl TryFrom<u8> for PredictorName {
    type Error = Why;

    ghost try_from_gives = { λ number result. result ≡ predictor_named number };

    fn try_from(number: u8) -> Result<PredictorName, Why> {
        match number {
            0 => Ok(PredictorName::Lag1),
            1 => Ok(PredictorName::Lag2),
            2 => Ok(PredictorName::Stride1),
            3 => Ok(PredictorName::Stride2),
            4 => Ok(PredictorName::StripIndex),
            5 => Ok(PredictorName::Ramp),
            6 => Ok(PredictorName::Xor1),
            7 => Ok(PredictorName::Xor2),
            8 => Ok(PredictorName::Null),
            9.. => Err(Why::PredictorByte),
        }
    }
}

#[derive(Clone, Copy, Debug, PartialEq, Eq)]
pub enum PackingName {
    Plain,
    Fielded,
}

impl TryFrom<u8> for PackingName {
    type Error = Why;

    ghost try_from_gives = { λ number result. result ≡ packing_named number };

    fn try_from(number: u8) -> Result<PackingName, Why> {
        match number {
            0 => Ok(PackingName::Plain),
            1 => Ok(PackingName::Fielded),
            2.. => Err(Why::PackingByte),
        }
    }
}
