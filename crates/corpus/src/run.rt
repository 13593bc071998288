// A panel file cut on a new bench, and design points stored, for any kind, predictor and packing.
use crate::arguments::{Arguments, none};
use crate::reader::Reader;
use anyhow::anyhow;
use kinds::{Flat, Mould, PointKind};
use pairing::Pairing;
use range::range::Range;
use refusal::{Refusal, Why};
use std::alloc::Global;
use tasks::{Cut, Store};

// A point kind of which lists are made and filled.
pub trait Kind: PointKind + Copy + Clone + Default + Drop {}

impl<K: PointKind + Copy + Clone + Default + Drop> Kind for K {}

// A sort of record whose points are of the kind that it names.
pub trait Record {
    // What the library gives for the rest of the record, under a pairing.
    fn answer<K: Kind>(pairing: Pairing, r: &mut Reader) -> anyhow::Result<Vec<u8>>;
}

// What the library gives for a record of a sort. Its head names the kind of its points, by their axes, and the pairing.
pub fn answer<R: Record>(r: &mut Reader) -> anyhow::Result<Vec<u8>> {
    let [axes, predictor, packing] = r.take::<3>()?;
    match axes {
        2 => R::answer::<Flat>(pairing(predictor, packing)?, r),
        3 => R::answer::<Mould>(pairing(predictor, packing)?, r),
        _ => Err(anyhow!("no kind has so many axes")),
    }
}

// A panel file cut on a new bench: the program, or the line of the refusal.
pub struct CutRecord;

impl Record for CutRecord {
    fn answer<K: Kind>(pairing: Pairing, r: &mut Reader) -> anyhow::Result<Vec<u8>> {
        let mut points = r.list(K::default())?;
        let mut marks = r.list(0u8)?;
        let mut program = r.list(0u8)?;
        let file = r.block()?;
        let given = Arguments::read(r)?;
        let answer = pairing.run(&mut Cut {
            file,
            tolerance: given.tolerance,
            points: points.as_mut_slice(),
            marks: marks.as_mut_slice(),
            program: program.as_mut_slice(),
        });
        written(r.heap, answer, program.as_slice())
    }
}

// Design points stored: the file, or the line of the refusal.
pub struct StoreRecord;

impl Record for StoreRecord {
    fn answer<K: Kind>(pairing: Pairing, r: &mut Reader) -> anyhow::Result<Vec<u8>> {
        let ranges = [sound_range(r)?, sound_range(r)?, sound_range(r)?];
        let mut work = r.list(0i32)?;
        let mut file = r.list(0u8)?;
        let design = design::<K>(r)?;
        none(r)?;
        let answer = pairing.run(&mut Store {
            design: design.as_slice(),
            ranges: &ranges,
            work: work.as_mut_slice(),
            file: file.as_mut_slice(),
        });
        written(r.heap, answer, file.as_slice())
    }
}

// The predictor and the packing of a record.
fn pairing(predictor: u8, packing: u8) -> anyhow::Result<Pairing> {
    Pairing::new(predictor, packing).map_err(|why| match why {
        Why::PredictorByte => anyhow!("there is no such predictor"),
        _ => anyhow!("there is no such packing"),
    })
}

// A range of a record, which is always sound.
fn sound_range(r: &mut Reader) -> anyhow::Result<Range> {
    let words = r.words()?;
    Range::try_from(words).map_err(|_| anyhow!("a range of the corpus is refused"))
}

// A count, and so many points.
fn design<K: PointKind + Drop>(r: &mut Reader) -> anyhow::Result<Vec<K>> {
    let count = r.number()?;
    let mut design = Vec::new(r.heap);
    for _ in 0..count {
        design.push(point::<K>(r)?)?;
    }
    Ok(design)
}

// A point of a record: a number for each axis.
pub fn point<K: PointKind>(r: &mut Reader) -> anyhow::Result<K> {
    let mut numbers = [0; 3];
    for number in numbers.iter_mut().take(K::AXES) {
        *number = r.signed()?;
    }
    let [x, y, z] = numbers;
    Ok(K::make(x, y, z))
}

// The front of a list, or a refusal's line.
fn written(heap: Global, answer: Result<usize, Refusal>, list: &[u8]) -> anyhow::Result<Vec<u8>> {
    match answer {
        Ok(n) => Ok(list[..n.min(list.len())].to_vec(heap)?),
        Err(e) => Ok(e.line().to_vec(heap)?),
    }
}
