// The structs that cross to C: plain numbers.
ghost use Rattle.std.specs.Prelude.{◌≡◌};
ghost use Rattle.controller.specs.Answers.{refusal_answer, length_answer, split_answer};

use refusal::{Refusal, Why};

// What a call answers. Where `refusal` is 0 the call was accepted, and the counts and the length are its own; else it is
// the refusal's number, `place` is the refusal's place, and the rest is 0.
#[repr(C)]
#[derive(Clone, Copy, Debug, Default, PartialEq, Eq)]
pub struct Answer {
    pub refusal: u32,
    pub place: usize,
    pub count: usize,
    pub waiting: usize,
    pub length: usize,
}

impl From<Refusal> for Answer {
    ghost from_gives = { λ refusal answer. answer ≡ refusal_answer refusal.why refusal.place };

    fn from(refusal: Refusal) -> Answer {
        Answer {
            refusal: u32::from(refusal.why.number()),
            place: refusal.place,
            ..Answer::default()
        }
    }
}

// A refusal that has no place.
impl From<Why> for Answer {
    ghost from_gives = { λ why answer. answer ≡ refusal_answer why 0 };

    fn from(why: Why) -> Answer {
        Refusal::from(why).into()
    }
}

// A call that wrote so many bytes.
impl From<Result<usize, Refusal>> for Answer {
    ghost from_gives = { λ said answer. answer ≡ length_answer said };

    fn from(said: Result<usize, Refusal>) -> Answer {
        match said {
            Ok(length) => Answer {
                length,
                ..Answer::default()
            },
            Err(refusal) => refusal.into(),
        }
    }
}

// A split: the kept count and the waiting count.
impl From<Result<(usize, usize), Why>> for Answer {
    ghost from_gives = { λ said answer. answer ≡ split_answer said };

    fn from(said: Result<(usize, usize), Why>) -> Answer {
        match said {
            Ok((count, waiting)) => Answer {
                count,
                waiting,
                ..Answer::default()
            },
            Err(why) => why.into(),
        }
    }
}
