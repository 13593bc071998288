// Loads a panel file into points: judges the whole file, then places its vertices.
#![tactic(auto)]

mod axis;
mod body;
mod judge;
mod piece;
mod place;

ghost use Rattle.std.specs.Prelude.{◌≡◌, length};
ghost use Rattle.words.specs.Order.{low_first};
ghost use Rattle.panel.specs.Stored.{load_of};
ghost use Rattle.load.specs.Reader.{JudgedByTheFirstFault};

use kinds::{PointKind, VertexCount};
use pack::Unpacking;
use predict::Predictor;
use refusal::Refusal;
use words::LowFirst;

// Loads a file into the front of the points and answers how many there are. A file that is refused
// changes no point, and its first fault is told.
pub fn load<K: PointKind + Copy, P: Predictor, Q: Unpacking>(
    file: &[u8],
    points: &mut [K],
) -> Result<VertexCount, Refusal>
    ensures answer { result ≡ (load_of K.kind P.means Q.reading file.now points.old).0 }
    ensures points { points.new ≡ (load_of K.kind P.means Q.reading file.now points.old).1 }
    ensures first { let room = length points.old in
        JudgedByTheFirstFault low_first P.means Q.reading K.kind.axes room file.now result }
{
    let n = judge::file::<LowFirst, K, P, Q>(file, points.len())?;
    place::place::<LowFirst, K, P, Q>(file, n, points);
    Ok(n)
}
