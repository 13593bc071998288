// The calls of `controller` for each kind, exported to C: a static library, for which controller.h is the header.
#![tactic(auto)]

ghost use Rattle.std.specs.Prelude.{◌≡◌, [], ◌∷◌, length, IfOk};
ghost use Rattle.std.specs.List.{AllByRecursion};
ghost use Rattle.kinds.specs.Kind.{flat, mould};
ghost use Rattle.range.specs.Scale.{IsRange};
ghost use Rattle.seam.specs.Seam.{split_of};
ghost use Rattle.law.specs.Calls.{lists_of};
ghost use Rattle.controller.specs.Answers.{cut_answer, length_answer, split_answer};
ghost use Rattle.controller.specs.Calls.{cut_by_numbers, ranges_in, store_by_numbers};

use controller::answer::Answer;
use kinds::{Flat, Mould};
use range::words::Words;

// Cuts one panel file on a new bench: load, split, cut and close. A tolerance of 2^32 - 1 stands for none.
#[unsafe(no_mangle)]
pub extern "C" fn loft_cut_flat(
    file: &[u8],
    predictor: u8,
    packing: u8,
    tolerance: u32,
    points: &mut [Flat],
    marks: &mut [u8],
    program: &mut [u8],
) -> Answer
    ensures answer { let lists = lists_of points.old marks.old program.old in
        let cut = cut_by_numbers flat predictor packing tolerance file.now lists in
        result ≡ cut_answer cut.answer }
    ensures points { let lists = lists_of points.old marks.old program.old in
        let cut = cut_by_numbers flat predictor packing tolerance file.now lists in
        points.new ≡ cut.lists.points }
    ensures marks { let lists = lists_of points.old marks.old program.old in
        let cut = cut_by_numbers flat predictor packing tolerance file.now lists in
        marks.new ≡ cut.lists.marks }
    ensures program { let lists = lists_of points.old marks.old program.old in
        let cut = cut_by_numbers flat predictor packing tolerance file.now lists in
        program.new ≡ cut.lists.program }
{
    controller::cut::<Flat>(file, predictor, packing, tolerance, points, marks, program)
}

// The same for moulds.
#[unsafe(no_mangle)]
pub extern "C" fn loft_cut_mould(
    file: &[u8],
    predictor: u8,
    packing: u8,
    tolerance: u32,
    points: &mut [Mould],
    marks: &mut [u8],
    program: &mut [u8],
) -> Answer
    ensures answer { let lists = lists_of points.old marks.old program.old in
        let cut = cut_by_numbers mould predictor packing tolerance file.now lists in
        result ≡ cut_answer cut.answer }
    ensures points { let lists = lists_of points.old marks.old program.old in
        let cut = cut_by_numbers mould predictor packing tolerance file.now lists in
        points.new ≡ cut.lists.points }
    ensures marks { let lists = lists_of points.old marks.old program.old in
        let cut = cut_by_numbers mould predictor packing tolerance file.now lists in
        marks.new ≡ cut.lists.marks }
    ensures program { let lists = lists_of points.old marks.old program.old in
        let cut = cut_by_numbers mould predictor packing tolerance file.now lists in
        program.new ≡ cut.lists.program }
{
    controller::cut::<Mould>(file, predictor, packing, tolerance, points, marks, program)
}

// Splits the first `count` points and writes their marks.
#[unsafe(no_mangle)]
pub extern "C" fn loft_split_flat(
    points: &[Flat],
    count: usize,
    tolerance: u32,
    marks: &mut [u8],
) -> Answer
    ensures answer { let split = split_of flat tolerance count points.now marks.old in
        result ≡ split_answer split.0 }
    ensures marks { let split = split_of flat tolerance count points.now marks.old in
        marks.new ≡ split.1 }
{
    controller::split::<Flat>(points, count, tolerance, marks)
}

// The same for moulds.
#[unsafe(no_mangle)]
pub extern "C" fn loft_split_mould(
    points: &[Mould],
    count: usize,
    tolerance: u32,
    marks: &mut [u8],
) -> Answer
    ensures answer { let split = split_of mould tolerance count points.now marks.old in
        result ≡ split_answer split.0 }
    ensures marks { let split = split_of mould tolerance count points.now marks.old in
        marks.new ≡ split.1 }
{
    controller::split::<Mould>(points, count, tolerance, marks)
}

// Stores design points at the front of `file`. The second range stands for the third too, which a flat store does not use.
#[unsafe(no_mangle)]
pub extern "C" fn loft_store_flat(
    design: &[Flat],
    predictor: u8,
    packing: u8,
    x: &Words,
    y: &Words,
    work: &mut [i32],
    file: &mut [u8],
) -> Answer
    ensures answer { let words = x.now ∷ y.now ∷ y.now ∷ [] in
        let stored = store_by_numbers flat predictor packing words design.now (length work.old)
        file.old in
        result ≡ length_answer stored.0 }
    ensures file { let words = x.now ∷ y.now ∷ y.now ∷ [] in
        let stored = store_by_numbers flat predictor packing words design.now (length work.old)
        file.old in
        file.new ≡ stored.1 }
    ensures ranges { let words = x.now ∷ y.now ∷ y.now ∷ [] in
        IfOk (ranges_in words) (AllByRecursion IsRange) }
{
    controller::store::<Flat>(design, predictor, packing, [*x, *y, *y], work, file)
}

// The same for moulds.
#[unsafe(no_mangle)]
pub extern "C" fn loft_store_mould(
    design: &[Mould],
    predictor: u8,
    packing: u8,
    x: &Words,
    y: &Words,
    z: &Words,
    work: &mut [i32],
    file: &mut [u8],
) -> Answer
    ensures answer { let words = x.now ∷ y.now ∷ z.now ∷ [] in
        let stored = store_by_numbers mould predictor packing words design.now (length work.old)
        file.old in
        result ≡ length_answer stored.0 }
    ensures file { let words = x.now ∷ y.now ∷ z.now ∷ [] in
        let stored = store_by_numbers mould predictor packing words design.now (length work.old)
        file.old in
        file.new ≡ stored.1 }
    ensures ranges { let words = x.now ∷ y.now ∷ z.now ∷ [] in
        IfOk (ranges_in words) (AllByRecursion IsRange) }
{
    controller::store::<Mould>(design, predictor, packing, [*x, *y, *z], work, file)
}
