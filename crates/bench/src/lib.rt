// The cutting bench: it loads panel files, splits their seams, and writes cut programs through a knife.
#![tactic(auto)]

ghost use Rattle.std.specs.Prelude.{◌≡◌, ◌≤◌, [], ◌∷◌, length, take, IfOk};
ghost use Rattle.law.specs.Calls.{splitting, load_of, load as Load, split as Split, cut as Cut, close as Close, lists_of, report_as, Length};
ghost use Rattle.law.specs.Law.{MisplacesNone, NoRunMisplacesAPanel};
ghost use Rattle.bench.specs.Panels.{seen, one_panel};

use kinds::PointKind;
use law::no_run_misplaces;
use pack::Unpacking;
use predict::Predictor;
use refusal::Refusal;

pub mod bench;

pub use bench::Bench;

// Cuts one panel file on a new bench: load, split, cut and close. The first refusal ends it, and what the calls before
// it wrote stays. This call carries the law to its callers.
#[tactic(auto, unfolding(crate::specs::Panels::one_panel))]
pub fn cut_panel<K: PointKind + Copy, P: Predictor, Q: Unpacking>(
    file: &[u8],
    tolerance: Option<u32>,
    points: &mut [K],
    marks: &mut [u8],
    program: &mut [u8],
) -> Result<usize, Refusal>
    ensures seen { let load = load_of P.means Q.reading file.now in
        one_panel K.kind load (splitting tolerance) (lists_of points.old marks.old program.old)
        ≡ seen (report_as Length result) (lists_of points.new marks.new program.new) }
    ensures placed { let load = Load (load_of P.means Q.reading file.now) in
        let calls = load ∷ Split (splitting tolerance) ∷ Cut ∷ Close ∷ [] in
        IfOk result (λ n. MisplacesNone K.kind calls (take n program.new)) }
    ensures within { IfOk result (λ n. n ≤ length program.new) }
    ensures never { NoRunMisplacesAPanel K.kind }
{
    no_run_misplaces::<K>();
    let mut bench = Bench::<K>::new();
    bench.load::<P, Q>(file, points)?;
    bench.split(tolerance, points, marks)?;
    bench.cut(points, marks, program)?;
    bench.close(program)
}
