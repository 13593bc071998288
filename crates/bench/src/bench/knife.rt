// The knife, raised or lowered. Its state is a type parameter, and it is moved: a call takes the knife and
// gives it back in the next state, so none is used twice, and none is let go but by a call that says so.
ghost use Rattle.std.specs.Prelude.{◌≡◌, ◌+◌, ◌*◌, ◌<◌, ◌≤◌, [], ◌∷◌, length, nat_le};
ghost use Rattle.words.specs.Order.{low_first, spelled};
ghost use Rattle.law.specs.Program.{steps, travel as travel_bytes, lower as lower_bytes, stroke as stroke_bytes, raise as raise_bytes, finish as finish_bytes};
ghost use Rattle.bench.specs.Knife.{answer_for, program_for, answer_of, program_of};

use kinds::PointKind;
use refusal::Why;
use std::marker::{Model, PhantomData};
use words::{ByteOrder, LowFirst};

// The letters of the commands.
const TRAVEL: u8 = b'T';

const LOWER: u8 = b'D';

const STROKE: u8 = b'K';

const RAISE: u8 = b'U';

const FINISH: u8 = b'E';

// Up: the knife may travel, be lowered, or finish.
pub struct Raised;

// Down: it may stroke or be raised.
pub struct Lowered;

// A knife in a state, at a program length.
pub struct Knife<S> {
    at: usize,
    state: PhantomData<S>,
}

impl<S> Model for Knife<S> {
    ghost use Rattle.std.specs.Prelude.{ℕ};

    ghost Value = { ℕ };

    ghost view = { λ k. k.at };
}

impl Knife<Raised> {
    // A raised knife at a program length.
    pub(super) fn start(at: usize) -> Knife<Raised>
        ensures { result ≡ at }
    {
        Knife {
            at,
            state: PhantomData,
        }
    }

    // Lets the raised knife go, and tells the program length.
    pub(super) fn rest(self) -> usize
        ensures { result ≡ self }
    {
        let Knife { at, state: _ } = self;
        at
    }

    // T: to a point, without cutting.
    pub fn travel<K: PointKind>(
        self,
        program: &mut [u8],
        to: &K,
    ) -> Result<Knife<Raised>, (Why, Knife<Raised>)>
        ensures answer { result ≡ answer_of program.old self (travel_bytes (steps K.kind to.now)) }
        ensures program { let bytes = travel_bytes (steps K.kind to.now) in
            program.new ≡ program_of program.old self bytes }
    {
        self.write_move(program, TRAVEL, to)
    }

    // D
    pub fn lower(self, program: &mut [u8]) -> Result<Knife<Lowered>, (Why, Knife<Raised>)>
        ensures answer { result ≡ answer_of program.old self lower_bytes }
        ensures program { program.new ≡ program_of program.old self lower_bytes }
    {
        self.advance(program, LOWER, 1)
    }

    // E: the knife ends, and the program length alone is left.
    pub fn finish(self, program: &mut [u8]) -> Result<usize, (Why, Knife<Raised>)>
        ensures answer { result ≡ answer_of program.old self finish_bytes }
        ensures program { program.new ≡ program_of program.old self finish_bytes }
    {
        let knife: Knife<Raised> = self.advance(program, FINISH, 1)?;
        Ok(knife.rest())
    }
}

impl Knife<Lowered> {
    // K: to a point, cutting.
    pub fn stroke<K: PointKind>(
        self,
        program: &mut [u8],
        to: &K,
    ) -> Result<Knife<Lowered>, (Why, Knife<Lowered>)>
        ensures answer { result ≡ answer_of program.old self (stroke_bytes (steps K.kind to.now)) }
        ensures program { let bytes = stroke_bytes (steps K.kind to.now) in
            program.new ≡ program_of program.old self bytes }
    {
        self.write_move(program, STROKE, to)
    }

    // U
    pub fn raise(self, program: &mut [u8]) -> Result<Knife<Raised>, (Why, Knife<Lowered>)>
        ensures answer { result ≡ answer_of program.old self raise_bytes }
        ensures program { program.new ≡ program_of program.old self raise_bytes }
    {
        self.advance(program, RAISE, 1)
    }
}

// Writing is the same in each state.
impl<S> Knife<S> {
    // Where so many bytes have room, the letter is written, and the knife goes on behind the bytes, in the next
    // state; else nothing is written, and it comes back as it was.
    fn advance<T>(
        self,
        program: &mut [u8],
        letter: u8,
        need: usize,
    ) -> Result<Knife<T>, (Why, Knife<S>)>
        requires { 0 < need }
        ensures answer { result ≡ answer_for program.old self need }
        ensures program { program.new ≡ program_for program.old self need (letter ∷ []) }
    {
        let Knife { at, state } = self;
        if !has_room(program, at, need) {
            return Err((Why::NoSpace, Knife { at, state }));
        }
        program[at] = letter;
        Ok(Knife {
            at: at + need,
            state: PhantomData,
        })
    }

    // A letter, and the steps of a point: a signed number of four bytes for each axis, the lowest first.
    #[tactic(auto, using(law::proofs::Drawing::length_steps))]
    fn write_move<T, K: PointKind>(
        self,
        program: &mut [u8],
        letter: u8,
        to: &K,
    ) -> Result<Knife<T>, (Why, Knife<S>)>
        ensures answer { let bytes = letter ∷ spelled low_first (steps K.kind to.now) in
            result ≡ answer_of program.old self bytes }
        ensures program { let bytes = letter ∷ spelled low_first (steps K.kind to.now) in
            program.new ≡ program_of program.old self bytes }
    {
        let at = self.at;
        let knife: Knife<T> = self.advance(program, letter, move_size::<K>())?;
        for axis in 0..K::AXES {
            let word = LowFirst::write_signed(to.coordinate(axis));
            let place = at + 1 + 4 * axis;
            program[place..place + 4].copy_from_slice(&word);
        }
        Ok(knife)
    }
}

// The bytes of a travel or a stroke: its letter, and four for each axis.
pub(super) fn move_size<K: PointKind>() -> usize
    ensures value { result ≡ 1 + 4 * K.kind.axes }
    ensures bound { result ≤ 13 }
{
    1 + 4 * K::AXES
}

// Whether so many bytes have their place in the program.
pub(super) fn has_room(program: &[u8], at: usize, need: usize) -> bool
    ensures { result ≡ nat_le (at + need) (length program.now) }
{
    at <= program.len() && need <= program.len() - at
}
