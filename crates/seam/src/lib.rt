// Which vertices of a line a cut must keep, so that each of the others lies near a chord between two kept ones.
#![tactic(auto)]

ghost use Rattle.std.specs.Prelude.{◌≡◌, take, IfOk};
ghost use Rattle.kinds.specs.Vertex.{told};
ghost use Rattle.seam.specs.Seam.{split_of};
ghost use Rattle.seam.specs.Laws.{Figures, Sound, HeaviestDivides, ToleranceMovesNoVertex, OwnAxesWeigh, NearLiesAlong, WeightsStaySmall};

mod chord;
mod gauge;
mod line;
mod place;

use kinds::{PointKind, VertexCount};
use line::{Line, Tolerance};
use refusal::Why;

// The mark of a kept vertex; that of any other is 0.
pub const KEPT: u8 = 1;

// Splits the line of the first `count` points: writes 1 for each vertex that is kept and 0 for each other, and answers how
// many are kept and how many chords waited at most. Refused, it writes nothing.
pub fn split<K: PointKind>(
    points: &[K],
    count: usize,
    tolerance: u32,
    marks: &mut [u8],
) -> Result<(usize, usize), Why>
    ensures answer { result ≡ (split_of K.kind tolerance count points.now marks.old).0 }
    ensures marks { marks.new ≡ (split_of K.kind tolerance count points.now marks.old).1 }
    ensures sound { let line = told K.kind (take count points.now) in
        IfOk result (λ counts. Sound line tolerance count marks.new counts.0 counts.1) }
{
    let tolerance = Tolerance::try_from(tolerance)?;
    let count = VertexCount::new(count).ok_or(Why::VertexCount)?.get();
    if points.len() < count || marks.len() < count {
        return Err(Why::ShortList);
    }
    let line = Line::new(&points[..count])?;
    Ok(line.split(tolerance, marks))
}

// The example figures hold.
pub fn figures_stand()
    ensures { Figures }
{}

// What every weight and every choice of a vertex obey, whatever the points are made of.
pub fn laws_stand<K: PointKind>()
    ensures heaviest { HeaviestDivides }
    ensures tolerance { ToleranceMovesNoVertex }
    ensures axes { OwnAxesWeigh K.kind }
    ensures near { NearLiesAlong }
    ensures small { WeightsStaySmall }
{}
