// Places within the bench, axes, and how far one place lies from another.
ghost use Rattle.std.specs.Prelude.{◌≡◌, true, ◌^◌, ◌≤◌, pos, ◌-ℤ◌, ◌*ℤ◌, unsigned_abs};
ghost use Rattle.kinds.specs.Kind.{triple};
ghost use Rattle.kinds.specs.Vertex.{OnBench, close_by};

use kinds::PointKind;

// A place within the bench, in steps; 0 beyond the axes of its kind.
#[derive(Clone, Copy)]
pub(crate) struct Place {
    x: i32,
    y: i32,
    z: i32,
    ghost within: { OnBench x × OnBench y × OnBench z },
}

impl Place {
    #[tactic(auto, using(crate::proofs::Weights::three))]
    pub(crate) fn of<K: PointKind>(point: &K) -> Place
        requires { close_by (K.kind.coordinate point.now) ≡ true }
        ensures { triple result.x result.y result.z ≡ K.kind.coordinate point.now }
    {
        Place {
            x: point.coordinate(0),
            y: point.coordinate(1),
            z: point.coordinate(2),
        }
    }
}

#[derive(Clone, Copy)]
pub(crate) enum Axis {
    X,
    Y,
    Z,
}

// Which way along an axis.
#[derive(Clone, Copy)]
pub(crate) enum Way {
    Up,
    Down,
    Nowhere,
}

impl Way {
    ghost use Rattle.seam.specs.Weight.{way_of, going};

    // The way of a distance.
    pub(crate) fn of(d: Distance) -> Way
        ensures { result ≡ way_of d.steps }
    {
        if d.steps > 0 {
            Way::Up
        } else if d.steps < 0 {
            Way::Down
        } else {
            Way::Nowhere
        }
    }

    // A distance as it goes this way.
    pub(crate) fn along(self, d: Distance) -> Distance
        ensures { result.steps ≡ going self d.steps }
    {
        match self {
            Way::Up => d,
            Way::Down => Distance { steps: -d.steps },
            Way::Nowhere => Distance { steps: 0 },
        }
    }
}

// How far one coordinate lies from another, in steps.
#[derive(Clone, Copy)]
pub(crate) struct Distance {
    pub steps: i64,
    ghost short: { unsigned_abs steps ≤ 2 ^ 21 },
}

impl Distance {
    ghost use Rattle.seam.specs.Weight.{clamped};

    // From one coordinate within the bench to another.
    fn between(from: i32, to: i32) -> Distance
        requires from { OnBench from }
        requires to { OnBench to }
        ensures { result.steps ≡ to -ℤ from }
    {
        Distance {
            steps: i64::from(to) - i64::from(from),
        }
    }

    // How far it is, whichever way.
    pub(crate) fn size(self) -> u64
        ensures { result ≡ unsigned_abs self.steps }
    {
        self.steps.unsigned_abs()
    }

    // Held within 0 and `most`.
    pub(crate) fn within(self, most: Distance) -> Distance
        requires { most.steps ≡ pos (unsigned_abs most.steps) }
        ensures { result.steps ≡ pos (clamped (unsigned_abs most.steps) self.steps) }
    {
        Distance {
            steps: self.steps.clamp(0, most.steps),
        }
    }

    // The product of two distances.
    #[tactic(auto, using(crate::proofs::Weights::product_back))]
    pub(crate) fn times(self, other: Distance) -> i64
        ensures value { result ≡ self.steps *ℤ other.steps }
        ensures bound { unsigned_abs result ≤ 2 ^ 42 }
    {
        self.steps * other.steps
    }
}

// How far one place lies from another on each axis.
#[derive(Clone, Copy)]
pub(crate) struct Run {
    pub x: Distance,
    pub y: Distance,
    pub z: Distance,
}

impl Run {
    ghost use Rattle.seam.specs.Weight.{vertex_at, run_of, on_axis, from_to, m_of, major_of};

    #[tactic(auto, using(crate::proofs::Weights::back_held, crate::proofs::Weights::apart))]
    pub(crate) fn between(from: Place, to: Place) -> Run
        ensures { run_of result ≡ from_to (vertex_at from) (vertex_at to) }
    {
        Run {
            x: Distance::between(from.x, to.x),
            y: Distance::between(from.y, to.y),
            z: Distance::between(from.z, to.z),
        }
    }

    // The distance on an axis.
    pub(crate) fn on(self, axis: Axis) -> Distance
        ensures { result.steps ≡ on_axis axis (run_of self) }
    {
        match axis {
            Axis::X => self.x,
            Axis::Y => self.y,
            Axis::Z => self.z,
        }
    }

    // The greatest of the three distances, or 1.
    #[tactic(auto, unfolding(crate::specs::Weight::m_of))]
    pub(crate) fn span(self) -> Distance
        ensures { result.steps ≡ pos (m_of (run_of self)) }
    {
        let m = self.x.size().max(self.y.size()).max(self.z.size()).max(1);
        Distance { steps: m as i64 }
    }

    // The first axis on which the distance is `m`.
    pub(crate) fn major(self, m: Distance) -> Axis
        ensures { result ≡ major_of (unsigned_abs m.steps) (run_of self) }
    {
        if self.x.size() == m.size() {
            Axis::X
        } else if self.y.size() == m.size() {
            Axis::Y
        } else {
            Axis::Z
        }
    }
}
