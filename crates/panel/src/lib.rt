// Panel files: design points stored as codes, axis by axis.
#![tactic(auto)]

ghost use Rattle.std.specs.Prelude.{◌≡◌, length};
ghost use Rattle.panel.specs.Stored.{store_of, StoresTheFile, EveryFileReadBack};

use kinds::{FEWEST_VERTICES, MOST_VERTICES, PointKind};
use pack::Packing;

mod axis;
mod design;
pub mod pieces;

use design::{Design, are_inside};
use predict::Predictor;
use range::range::Range;
use refusal::{Refusal, Why};
use words::LowFirst;

// Stores design points: writes their file to the front of `file`, and answers its length. The ranges are those of the
// kind's axes, the first ones; the work list needs room for as many entries as there are points. A refusal leaves `file`
// as it is; it has no piece to point at. The work list is scratch: what it holds afterwards is not said.
pub fn store<K: PointKind, P: Predictor, Q: Packing>(
    design: &[K],
    ranges: &[Range; 3],
    work: &mut [i32],
    file: &mut [u8],
) -> Result<usize, Refusal>
    ensures answer { let stored = store_of K.kind P.means Q.means design.now ranges.now
        (length work.old) file.old in
        result ≡ stored.0 }
    ensures file { let stored = store_of K.kind P.means Q.means design.now ranges.now
        (length work.old) file.old in
        file.new ≡ stored.1 }
    ensures writes { StoresTheFile K.kind }
    ensures back { EveryFileReadBack K.kind }
{
    files_come_back::<K>();
    // compared one by one: the packings' loops are slower where the test is `VertexCount::new`
    if design.len() < FEWEST_VERTICES || design.len() > MOST_VERTICES {
        return Err(Why::VertexCount.into());
    }
    let work = work.get_mut(..design.len()).ok_or(Why::ShortList)?;
    let ranges = &ranges[..K::AXES];
    if !are_inside(design, ranges) {
        return Err(Why::OutOfRange.into());
    }
    let design = Design {
        points: design,
        ranges,
    };
    design.store::<LowFirst, P, Q>(work, file)
}

// A store that says yes wrote the file of its points, and every such file is read back.
#[tactic(auto, using(crate::proofs::Sound::every_file_read_back))]
pub fn files_come_back<K: PointKind>()
    ensures writes { StoresTheFile K.kind }
    ensures back { EveryFileReadBack K.kind }
{}
