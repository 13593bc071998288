// Design points, and the file that they are stored as.
ghost use Rattle.std.specs.Prelude.{◌≡◌, ◌≤◌, true, [], ◌∷◌, length, nat_lt, Ok};
ghost use Rattle.predict.specs.Residues.{residues};
ghost use Rattle.kinds.specs.Vertex.{IsVertexCount};
ghost use Rattle.words.specs.Bytes.{overwritten};
ghost use Rattle.panel.specs.Panel.{codes_on, inside_from, inside_on, panel_on};
ghost use Rattle.panel.specs.Judging.{fault, unless};
ghost use Rattle.refusal.specs.declared.Why.TheVariants.{NoSpace};
ghost use Rattle.panel.specs.Stored.{filed};
ghost use Rattle.panel.specs.Layout.{file_of};

use crate::axis::write_axis;
use crate::pieces::{END_LETTER, END_SIZE, HEAD_SIZE, LENGTH_SIZE, RANGE_SIZE, head_piece, put};
use kinds::PointKind;
use pack::Packing;
use predict::{Before, Predictor};
use range::range::Range;
use refusal::{Refusal, Why};
use words::ByteOrder;

// Design points with a range for each axis, in which they lie.
#[derive(Drop)]
pub(crate) struct Design<'a, K: PointKind> {
    pub(crate) points: &'a [K],
    pub(crate) ranges: &'a [Range],
    ghost counted: { IsVertexCount (length points.now) },
    ghost few: { length ranges.now ≤ 3 },
    ghost inside: { inside_from K.kind points.now 0 ranges.now ≡ true },
}

// Whether points lie in the range of an axis.
#[tactic(auto, unfolding(crate::specs::Panel::inside_on))]
fn are_on<K: PointKind>(points: &[K], axis: usize, range: &Range) -> bool
    ensures { result ≡ inside_on K.kind axis range.now points.now }
{
    points
        .iter()
        .all(|point| range.holds(point.coordinate(axis)))
}

// Whether points lie in the range of each axis.
#[tactic(auto, unfolding(crate::specs::Panel::inside_from))]
pub(crate) fn are_inside<K: PointKind>(points: &[K], ranges: &[Range]) -> bool
    ensures { result ≡ inside_from K.kind points.now 0 ranges.now }
{
    ranges
        .iter()
        .enumerate()
        .all(|(axis, range)| are_on(points, axis, range))
}

impl<'a, K: PointKind> Design<'a, K> {
    // Writes the file to the front of `file`, if it has room, and answers its length; what follows stays.
    pub(crate) fn store<O: ByteOrder, P: Predictor, Q: Packing>(
        &self,
        work: &mut [i32],
        file: &mut [u8],
    ) -> Result<usize, Refusal>
        requires { length work.old ≡ length self.now.points.now }
        ensures { let panel = panel_on K.kind self.now.ranges.now self.now.points.now in
            let bytes = file_of O.order P.means Q.means panel in
            let space = fault NoSpace 0 (nat_lt (length file.old) (length bytes)) in
            (result, file.new) ≡ filed (unless (space ∷ []) (Ok bytes)) file.old }
    {
        let size = self.file_length::<O, P, Q>(work);
        if file.len() < size {
            return Err(Why::NoSpace.into());
        }
        self.write::<O, P, Q>(work, file);
        Ok(size)
    }

    // How many bytes the file takes.
    #[tactic(auto, using(crate::proofs::Axes::inside_each, crate::proofs::Axes::length_file, crate::proofs::Axes::length_next, crate::proofs::Axes::rest_end))]
    fn file_length<O: ByteOrder, P: Predictor, Q: Packing>(&self, work: &mut [i32]) -> usize
        requires { length work.old ≡ length self.now.points.now }
        ensures { let panel = panel_on K.kind self.now.ranges.now self.now.points.now in
            result ≡ length (file_of O.order P.means Q.means panel) }
    {
        let mut size: usize = HEAD_SIZE + END_SIZE;
        for (axis, range) in self.ranges.iter().enumerate() {
            self.fill::<P>(axis, range, work);
            size += RANGE_SIZE + LENGTH_SIZE + Q::body_length(work);
        }
        size
    }

    // Writes it to the front of `file`; what follows stays.
    #[tactic(auto, unfolding(crate::specs::Layout::file_of), using(crate::proofs::Axes::inside_each, crate::proofs::Axes::length_file))]
    fn write<O: ByteOrder, P: Predictor, Q: Packing>(&self, work: &mut [i32], file: &mut [u8])
        requires work { length work.old ≡ length self.now.points.now }
        requires space { let panel = panel_on K.kind self.now.ranges.now self.now.points.now in
            length (file_of O.order P.means Q.means panel) ≤ length file.old }
        ensures { let panel = panel_on K.kind self.now.ranges.now self.now.points.now in
            file.new ≡ overwritten file.old 0 (file_of O.order P.means Q.means panel) }
    {
        let head = head_piece::<O>(
            self.ranges.len() as u8,
            P::NUMBER,
            Q::NUMBER,
            self.points.len() as u32,
        );
        put(file, 0, &head);
        let mut at = HEAD_SIZE;
        for (axis, range) in self.ranges.iter().enumerate() {
            self.fill::<P>(axis, range, work);
            at = write_axis::<O, Q>(range, work, file, at);
        }
        put(file, at, &[END_LETTER]);
    }

    // Fills the work list with what is stored of the points' codes on an axis, by the range in which they lie.
    fn fill<P: Predictor>(&self, axis: usize, range: &Range, work: &mut [i32])
        requires room { length work.old ≡ length self.now.points.now }
        requires inside { inside_on K.kind axis range.now self.now.points.now ≡ true }
        ensures { work.new ≡ residues P.means (codes_on K.kind axis range.now self.now.points.now) }
    {
        // a copy, which no write to the work list can change: its figures are then taken once
        let range = *range;
        let mut before = Before::none();
        for (i, point) in self.points.iter().enumerate() {
            let code = range.code_of(point.coordinate(axis));
            work[i] = predict::stored::<P>(i as u16, before, code);
            before = before.then(code);
        }
    }
}
