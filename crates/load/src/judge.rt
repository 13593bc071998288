// Judges a panel file, piece by piece: the first piece with a fault is told, and of its faults the
// smallest number.
ghost use Rattle.std.specs.Prelude.{◌≡◌, ◌≤◌, IfOk, length};
ghost use Rattle.panel.specs.Layout.{header_piece};
ghost use Rattle.panel.specs.Judging.{head_at, axes_at, end_at, panel_at, nothing_follows, judged};
ghost use Rattle.load.specs.Pieces.{told_by, left_of, count_of};

use crate::axis::Axis;
use crate::piece::{Due, Piece, Rest};
use kinds::{PointKind, VertexCount};
use pack::Unpacking;
use predict::Predictor;
use refusal::{Refusal, Why};
use words::ByteOrder;

// A whole file, for a point list of so much room: how many vertices it has.
#[tactic(auto, unfolding(panel::specs::Judging::judged))]
pub fn file<O: ByteOrder, K: PointKind, P: Predictor, Q: Unpacking>(
    file: &[u8],
    room: usize,
) -> Result<VertexCount, Refusal>
    ensures value { let axes = K.kind.axes in
        result ≡ count_of (judged O.order P.means Q.reading axes room file.now) }
    ensures room { IfOk result (λ n. n ≤ room) }
    ensures headed { IfOk result (λ n. (header_piece O.order).size ≤ length file.now) }
{
    let (n, rest) = panel::<O, K, P, Q>(Rest::of(file, 0), room)?;
    nothing_follows(rest)?;
    Ok(n)
}

// A panel, for a point list of so much room: how many vertices it has, and what follows it.
#[tactic(auto, unfolding(panel::specs::Judging::panel_at))]
pub fn panel<'a, O: ByteOrder, K: PointKind, P: Predictor, Q: Unpacking>(
    rest: Rest<'a>,
    room: usize,
) -> Result<(VertexCount, Rest<'a>), Refusal>
    ensures value { let axes = K.kind.axes in
        result ≡ told_by (λ p. p.count) (panel_at O.order P.means Q.reading axes room rest.entry) }
    ensures room { IfOk result (λ x. x.0 ≤ room) }
    ensures headed { IfOk result (λ x. (header_piece O.order).size ≤ length rest.entry.bytes) }
{
    let (n, rest) = head::<O, K, P, Q>(rest, room)?;
    let rest = axes::<O, P, Q>(rest, K::AXES, n)?;
    let rest = end::<O>(rest)?;
    Ok((n, rest))
}

// N: the vertex count of a panel, for a point list of so much room, and what follows.
fn head<'a, O: ByteOrder, K: PointKind, P: Predictor, Q: Unpacking>(
    rest: Rest<'a>,
    room: usize,
) -> Result<(VertexCount, Rest<'a>), Refusal>
    ensures value { result ≡ head_at O.order P.means Q.reading K.kind.axes room rest.entry }
    ensures room { IfOk result (λ x. x.0 ≤ room) }
    ensures headed { IfOk result (λ x. (header_piece O.order).size ≤ length rest.entry.bytes) }
{
    let at = rest.at();
    let (
        Piece::Header {
            axes,
            predictor,
            packing,
            count,
        },
        rest,
    ) = rest.take::<O>(Due::Header)?
    else {
        unreachable!()
    };
    if usize::from(axes) != K::AXES {
        return Err(Why::AxisCount.at(at));
    }
    if predictor != P::NUMBER {
        return Err(Why::PredictorByte.at(at));
    }
    if packing != Q::NUMBER {
        return Err(Why::PackingByte.at(at));
    }
    let count = count as usize;
    let n = VertexCount::new(count).ok_or(Why::VertexCount.at(at))?;
    if room < count {
        return Err(Why::ShortList.at(at));
    }
    Ok((n, rest))
}

// Q, V and a body for each axis, in which every code is one of its range: what follows them.
#[tactic(auto, using(crate::proofs::Axes::axes_refused, crate::proofs::Axes::no_axes))]
fn axes<'a, O: ByteOrder, P: Predictor, Q: Unpacking>(
    rest: Rest<'a>,
    count: usize,
    n: VertexCount,
) -> Result<Rest<'a>, Refusal>
    ensures { result ≡ left_of (axes_at O.order P.means Q.reading n count rest.entry) }
{
    let mut left = rest;
    'judged: {
        for _ in 0..count {
            let (axis, after) = Axis::<O, Q>::take(left, n)?;
            for code in axis.body.codes::<P>() {
                if !axis.range.is_code(code) {
                    break 'judged Err(Why::Code.at(axis.offset));
                }
            }
            left = after;
        }
        Ok(left)
    }
}

// E: what follows it.
fn end<'a, O: ByteOrder>(rest: Rest<'a>) -> Result<Rest<'a>, Refusal>
    ensures { result ≡ end_at rest.entry }
{
    let (Piece::End, rest) = rest.take::<O>(Due::End)? else {
        unreachable!()
    };
    Ok(rest)
}

// Nothing follows.
pub fn nothing_follows(rest: Rest<'_>) -> Result<(), Refusal>
    ensures { result ≡ nothing_follows rest.entry }
{
    if rest.is_empty() {
        Ok(())
    } else {
        Err(Why::Trailing.at(rest.at()))
    }
}
