// The tasks that are done under a pairing of predictor and packing: a store and a cut.
#![tactic(auto)]

ghost use Rattle.std.specs.Prelude.{◌≡◌, length};
ghost use Rattle.panel.specs.Stored.{store_of};
ghost use Rattle.law.specs.Calls.{splitting, load_of, lists_of, report_as, Length};
ghost use Rattle.bench.specs.Panels.{one_panel};

use bench::cut_panel;
use kinds::PointKind;
use pack::Packing;
use pairing::Task;
use panel::store;
use predict::Predictor;
use range::range::Range;
use refusal::Refusal;

// Design points to be stored, the ranges of the axes, a work list, and the list for the file.
#[derive(Drop)]
pub struct Store<'a, K> {
    pub design: &'a [K],
    pub ranges: &'a [Range; 3],
    pub work: &'a mut [i32],
    pub file: &'a mut [u8],
}

impl<K: PointKind> Task for Store<'_, K> {
    type Output = Result<usize, Refusal>;

    // the list stays the one that was lent
    ghost answers = { λ old p q new said. (new.file.ghost_name ≡ old.file.ghost_name) ×
        (let stored = store_of K.kind p q old.design.now old.ranges.now
        (length old.work.now) old.file.now in
        (said ≡ stored.0) × (new.file.now ≡ stored.1)) };

    fn run<P: Predictor, Q: Packing>(&mut self) -> Result<usize, Refusal> {
        store::<K, P, Q>(self.design, self.ranges, self.work, self.file)
    }
}

// A panel file to be cut on a new bench, and the three lists that the bench is lent.
#[derive(Drop)]
pub struct Cut<'a, K> {
    pub file: &'a [u8],
    pub tolerance: Option<u32>,
    pub points: &'a mut [K],
    pub marks: &'a mut [u8],
    pub program: &'a mut [u8],
}

impl<K: PointKind + Copy> Task for Cut<'_, K> {
    type Output = Result<usize, Refusal>;

    // the lists stay those that were lent
    ghost answers = { λ old p q new said. (new.points.ghost_name ≡ old.points.ghost_name) ×
        (new.marks.ghost_name ≡ old.marks.ghost_name) ×
        (new.program.ghost_name ≡ old.program.ghost_name) ×
        (let lists = lists_of old.points.now old.marks.now old.program.now in
        let load = load_of p q.reading old.file.now in
        let cut = one_panel K.kind load (splitting old.tolerance) lists in
        (report_as Length said ≡ cut.answer) ×
        (lists_of new.points.now new.marks.now new.program.now ≡ cut.lists)) };

    fn run<P: Predictor, Q: Packing>(&mut self) -> Result<usize, Refusal> {
        cut_panel::<K, P, Q>(
            self.file,
            self.tolerance,
            self.points,
            self.marks,
            self.program,
        )
    }
}
