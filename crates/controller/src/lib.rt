// The table's calls for a controller in C: plain numbers and lent lists in, plain numbers out. Nothing is kept between calls.
// The crate `controller_c` exports them for each kind.
#![tactic(auto)]

ghost use Rattle.std.specs.Prelude.{◌≡◌, ◌-◌, ◌^◌, length, IfOk};
ghost use Rattle.std.specs.List.{AllByRecursion};
ghost use Rattle.range.specs.Scale.{IsRange};
ghost use Rattle.seam.specs.Seam.{split_of};
ghost use Rattle.law.specs.Calls.{lists_of};
ghost use Rattle.controller.specs.Answers.{cut_answer, length_answer, split_answer};
ghost use Rattle.controller.specs.Calls.{cut_by_numbers, ranges_in, store_by_numbers, tolerance_given};

pub mod answer;
mod ranges;

use answer::Answer;
use kinds::PointKind;
use pairing::Pairing;
use range::words::Words;
use ranges::ranges_of;
use refusal::Refusal;
use tasks::{Cut, Store};

// The number that stands for no tolerance.
const NONE_GIVEN: u32 = u32::MAX;

// Cuts one panel file on a new bench: load, split, cut and close. A tolerance of 2^32 - 1 stands for none.
pub fn cut<K: PointKind + Copy>(
    file: &[u8],
    predictor: u8,
    packing: u8,
    tolerance: u32,
    points: &mut [K],
    marks: &mut [u8],
    program: &mut [u8],
) -> Answer
    ensures answer { let lists = lists_of points.old marks.old program.old in
        let cut = cut_by_numbers K.kind predictor packing tolerance file.now lists in
        result ≡ cut_answer cut.answer }
    ensures points { let lists = lists_of points.old marks.old program.old in
        let cut = cut_by_numbers K.kind predictor packing tolerance file.now lists in
        points.new ≡ cut.lists.points }
    ensures marks { let lists = lists_of points.old marks.old program.old in
        let cut = cut_by_numbers K.kind predictor packing tolerance file.now lists in
        marks.new ≡ cut.lists.marks }
    ensures program { let lists = lists_of points.old marks.old program.old in
        let cut = cut_by_numbers K.kind predictor packing tolerance file.now lists in
        program.new ≡ cut.lists.program }
{
    let mut cut = Cut {
        file,
        tolerance: given(tolerance),
        points,
        marks,
        program,
    };
    match Pairing::new(predictor, packing) {
        Ok(pairing) => pairing.run(&mut cut).into(),
        Err(why) => why.into(),
    }
}

// The tolerance that a number stands for: the greatest stands for none.
fn given(tolerance: u32) -> Option<u32>
    ensures { result ≡ tolerance_given tolerance }
{
    (tolerance != NONE_GIVEN).then_some(tolerance)
}

// Splits the first `count` points and writes their marks. Here no number stands for no tolerance.
pub fn split<K: PointKind>(points: &[K], count: usize, tolerance: u32, marks: &mut [u8]) -> Answer
    ensures answer { let split = split_of K.kind tolerance count points.now marks.old in
        result ≡ split_answer split.0 }
    ensures marks { let split = split_of K.kind tolerance count points.now marks.old in
        marks.new ≡ split.1 }
{
    seam::split(points, count, tolerance, marks).into()
}

// Stores design points at the front of `file`. All three words must be ranges; a kind of two axes uses the first two.
pub fn store<K: PointKind>(
    design: &[K],
    predictor: u8,
    packing: u8,
    words: [Words; 3],
    work: &mut [i32],
    file: &mut [u8],
) -> Answer
    ensures answer { let stored = store_by_numbers K.kind predictor packing words design.now
        (length work.old) file.old in
        result ≡ length_answer stored.0 }
    ensures file { let stored = store_by_numbers K.kind predictor packing words design.now
        (length work.old) file.old in
        file.new ≡ stored.1 }
    ensures ranges { IfOk (ranges_in words) (AllByRecursion IsRange) }
{
    stored::<K>(design, predictor, packing, words, work, file).into()
}

// The file's length. A number that names nothing is refused before a range.
#[tactic(auto, using(crate::proofs::Sound::ranges_sound))]
fn stored<K: PointKind>(
    design: &[K],
    predictor: u8,
    packing: u8,
    words: [Words; 3],
    work: &mut [i32],
    file: &mut [u8],
) -> Result<usize, Refusal>
    ensures answer { let stored = store_by_numbers K.kind predictor packing words design.now
        (length work.old) file.old in
        result ≡ stored.0 }
    ensures file { let stored = store_by_numbers K.kind predictor packing words design.now
        (length work.old) file.old in
        file.new ≡ stored.1 }
    ensures ranges { IfOk (ranges_in words) (AllByRecursion IsRange) }
{
    let pairing = Pairing::new(predictor, packing)?;
    let ranges = ranges_of(words)?;
    pairing.run(&mut Store {
        design,
        ranges: &ranges,
        work,
        file,
    })
}
