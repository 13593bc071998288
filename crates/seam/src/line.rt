// A line of vertices that is split, and how.
ghost use Rattle.std.specs.Prelude.{◌≡◌, ◌+◌, ◌-◌, ◌<◌, ◌≤◌, IfErr, IfOk, length, MatchResult, true, false, ◌&&◌, nat_le, slice_set, unsigned_abs};
ghost use Rattle.std.specs.List.{All, list_all};
ghost use Rattle.refusal.specs.declared.Why.TheVariants.{Tolerance as tooLoose, Unfit};
ghost use Rattle.kinds.specs.Vertex.{at as vertex, told, farthest_steps, close_by, all_close_by, IsVertexCount};
ghost use Rattle.seam.specs.Weight.{vertex_at, run_of, weights_from};
ghost use Rattle.seam.specs.Seam.{heaviest as heaviest_of, heavier as heavier_of, pick as pick_of, inner, cleared, ends, tree_of, marked, kept as kept_of, waits as waits_of};

use crate::KEPT;
use crate::chord::Chord;
use crate::gauge::Gauge;
use crate::place::{Axis, Place, Way};
use arrayvec::ArrayVec;
use kinds::{FARTHEST_STEPS, PointKind};
use refusal::Why;

// At most so many chords wait where a line has no more than 4,096 vertices.
const MOST_WAITING: usize = 11;

// How far off its chord a vertex may lie and not be kept, in steps.
#[derive(Clone, Copy)]
pub(crate) struct Tolerance {
    pub steps: u32,
    ghost small: { steps ≤ 256 },
}

impl Tolerance {
    const MOST: u32 = 256;
}

// The tolerance that a caller names.
impl TryFrom<u32> for Tolerance {
    type Error = Why;

    ghost try_from_gives = { λ steps r.
        IfOk r (λ t. t.steps ≡ steps) × IfErr r (λ why. (256 < steps) × (why ≡ tooLoose)) };

    fn try_from(steps: u32) -> Result<Tolerance, Why> {
        if steps > Tolerance::MOST {
            return Err(Why::Tolerance);
        }
        Ok(Tolerance { steps })
    }
}

// A line that may be split: it has 2 to 4,096 vertices, each within the bench.
#[derive(Drop)]
pub(crate) struct Line<'a, K: PointKind> {
    points: &'a [K],
    ghost counted: { IsVertexCount (length points.now) },
    ghost within: { All (λ p. close_by (K.kind.coordinate p) ≡ true) points.now },
}

impl<'a, K: PointKind> Line<'a, K> {
    // The line of these points, if each lies within the bench.
    #[tactic(auto, using(crate::proofs::Weights::all_told))]
    pub(crate) fn new(points: &'a [K]) -> Result<Line<'a, K>, Why>
        requires { IsVertexCount (length points.now) }
        ensures { let near = all_close_by (told K.kind points.now) in
            MatchResult result (λ line. (line.points.now ≡ points.now) × (near ≡ true))
            (λ why. (why ≡ Unfit) × (near ≡ false)) }
    {
        if !all_close_by(points) {
            return Err(Why::Unfit);
        }
        Ok(Line { points })
    }

    // The place of vertex `i`.
    fn place(&self, i: usize) -> Place
        requires { i < length self.now.points.now }
        ensures { vertex_at result ≡ vertex (told K.kind self.now.points.now) i }
    {
        Place::of(&self.points[i])
    }

    // The last vertex.
    fn last(&self) -> usize
        ensures { result ≡ length self.now.points.now - 1 }
    {
        self.points.len() - 1
    }

    // The heaviest vertex inside a chord, the first of equals; none where no vertex lies inside. The caller names the
    // chord's major axis and way.
    #[inline(always)]
    #[tactic(auto, using(crate::proofs::Weights::heaviest_more), unfolding(crate::specs::Weight::weights_from))]
    fn heaviest(&self, gauge: &Gauge, major: Axis, way: Way, chord: Chord) -> Option<Weighed>
        requires major { major ≡ gauge.now.major }
        requires way { way ≡ gauge.now.way }
        requires from { chord.from < chord.to }
        requires to { chord.to < length self.now.points.now }
        ensures { let vs = told K.kind self.now.points.now in
            let weights = weights_from (vertex_at gauge.now.from) (run_of gauge.now.run) vs in
            result ≡ heaviest_of weights chord.from (inner chord) }
    {
        let mut best = None;
        for i in chord.from + 1..chord.to {
            let next = Weighed {
                vertex: i,
                weight: gauge.weight(major, way, self.place(i)),
            };
            best = Some(heavier(best, next));
        }
        best
    }

    // Where a chord is split: at its heaviest inner vertex, if that is not near. The search for it is told the chord's
    // major axis and way as constants, so that it chooses neither at each vertex.
    #[tactic(auto, unfolding(crate::specs::Seam::pick, crate::specs::Weight::weight, crate::specs::Weight::limit))]
    fn pick(&self, tolerance: Tolerance, chord: Chord) -> Option<usize>
        requires from { chord.from < chord.to }
        requires to { chord.to < length self.now.points.now }
        ensures { result ≡ pick_of (told K.kind self.now.points.now) tolerance.steps chord }
    {
        let gauge = Gauge::between(self.place(chord.from), self.place(chord.to));
        let heaviest = match (gauge.major, gauge.way) {
            (Axis::X, Way::Up) => self.heaviest(&gauge, Axis::X, Way::Up, chord),
            (Axis::X, Way::Down) => self.heaviest(&gauge, Axis::X, Way::Down, chord),
            (Axis::Y, Way::Up) => self.heaviest(&gauge, Axis::Y, Way::Up, chord),
            (Axis::Y, Way::Down) => self.heaviest(&gauge, Axis::Y, Way::Down, chord),
            (Axis::Z, Way::Up) => self.heaviest(&gauge, Axis::Z, Way::Up, chord),
            (Axis::Z, Way::Down) => self.heaviest(&gauge, Axis::Z, Way::Down, chord),
            (major, Way::Nowhere) => self.heaviest(&gauge, major, Way::Nowhere, chord),
        };
        heaviest
            .filter(|best| !gauge.is_near(tolerance, best.weight))
            .map(|best| best.vertex)
    }

    // Splits the chord from the first vertex to the last: marks the vertices that are kept inside it, and answers how many
    // those are and how many chords waited at most.
    fn split_chords(&self, tolerance: Tolerance, marks: &mut [u8]) -> (usize, usize)
        requires { length self.now.points.now ≤ length marks.old }
        ensures marks { let points = self.now.points.now in
            let tree = tree_of K.kind tolerance.steps (length points) points in
            marks.new ≡ marked tree marks.old }
        ensures count { let points = self.now.points.now in
            let tree = tree_of K.kind tolerance.steps (length points) points in
            result.0 ≡ kept_of tree }
        ensures few { result.0 < 4096 }
        ensures waits { let points = self.now.points.now in
            let tree = tree_of K.kind tolerance.steps (length points) points in
            result.1 ≡ waits_of tree }
    {
        let mut waiting = ArrayVec::<Chord, MOST_WAITING>::new();
        let mut most: usize = 0;
        let mut count: usize = 0;
        let mut chord = Chord {
            from: 0,
            to: self.last(),
        };
        'chords: loop {
            match self.pick(tolerance, chord) {
                Some(c) => {
                    keep(marks, c);
                    count += 1;
                    let (first, other) = chord.parts(c);
                    waiting.push(other);
                    most = most.max(waiting.len());
                    chord = first;
                }
                None => match waiting.pop() {
                    Some(next) => chord = next,
                    None => break 'chords (count, most),
                },
            }
        }
    }

    // Splits the line: writes 1 for each vertex that is kept and 0 for each other, and answers how many are kept and how
    // many chords waited at most.
    pub(crate) fn split(&self, tolerance: Tolerance, marks: &mut [u8]) -> (usize, usize)
        requires { length self.now.points.now ≤ length marks.old }
        ensures marks { let points = self.now.points.now in
            let tree = tree_of K.kind tolerance.steps (length points) points in
            marks.new ≡ marked tree (ends (length points) marks.old) }
        ensures count { let points = self.now.points.now in
            let tree = tree_of K.kind tolerance.steps (length points) points in
            result.0 ≡ 2 + kept_of tree }
        ensures waits { let points = self.now.points.now in
            let tree = tree_of K.kind tolerance.steps (length points) points in
            result.1 ≡ waits_of tree }
    {
        clear(marks, self.points.len());
        keep(marks, 0);
        keep(marks, self.last());
        let (kept, waited) = self.split_chords(tolerance, marks);
        (2 + kept, waited)
    }
}

// A vertex and its weight over a chord.
#[derive(Clone, Copy)]
pub(crate) struct Weighed {
    vertex: usize,
    weight: u64,
}

// The next vertex beside the heaviest so far: only a greater weight takes its place.
fn heavier(best: Option<Weighed>, next: Weighed) -> Weighed
    ensures { result ≡ heavier_of best next }
{
    match best {
        None => next,
        Some(best) => {
            if best.weight < next.weight {
                next
            } else {
                best
            }
        }
    }
}

// Marks vertex `i` as kept.
fn keep(marks: &mut [u8], i: usize)
    requires { i < length marks.old }
    ensures { marks.new ≡ slice_set marks.old i 1 }
{
    marks[i] = KEPT;
}

// Writes 0 into the first `n` marks.
fn clear(marks: &mut [u8], n: usize)
    requires { n ≤ length marks.old }
    ensures { marks.new ≡ cleared n marks.old }
{
    marks[..n].fill(0);
}

// Whether a coordinate lies within the bench.
fn on_bench(z: i32) -> bool
    ensures { result ≡ nat_le (unsigned_abs z) farthest_steps }
{
    z.unsigned_abs() <= FARTHEST_STEPS
}

// Whether a vertex does.
fn close_by<K: PointKind>(point: &K) -> bool
    ensures { result ≡ close_by (K.kind.coordinate point.now) }
{
    on_bench(point.coordinate(0)) && on_bench(point.coordinate(1)) && on_bench(point.coordinate(2))
}

// Whether every vertex does.
fn all_close_by<K: PointKind>(points: &[K]) -> bool
    ensures { result ≡ list_all (λ p. close_by (K.kind.coordinate p)) points.now }
{
    points.iter().all(|point| close_by(point))
}
