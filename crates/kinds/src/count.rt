// How many vertices a panel has.
ghost use Rattle.std.specs.Prelude.{◌≡◌, if◌then◌else◌, Some, None, Option};
ghost use Rattle.kinds.specs.Vertex.{IsVertexCount, is_vertex_count};

use std::marker::Model;

pub const FEWEST_VERTICES: usize = 2;

pub const MOST_VERTICES: usize = 4096;

// From 2 to 4,096 vertices.
#[derive(Clone, Copy, Debug, PartialEq, Eq, PartialOrd, Ord)]
pub struct VertexCount {
    count: usize,
}

impl Model for VertexCount {
    ghost use Rattle.std.specs.Prelude.{ℕ};
    ghost use Rattle.kinds.specs.Vertex.{IsVertexCount};

    ghost Value = { ℕ };

    ghost view = { λ c. c.count };

    ghost invariant = { λ c. IsVertexCount c.count };

    ghost inverse = { λ n. record { count = n } };
}

impl VertexCount {
    // The count, if it is one.
    pub fn new(count: usize) -> Option<VertexCount>
        ensures { result ≡ (if is_vertex_count count then Some count else None) }
    {
        if (FEWEST_VERTICES..=MOST_VERTICES).contains(&count) {
            Some(VertexCount { count })
        } else {
            None
        }
    }

    pub fn get(self) -> usize
        ensures value { result ≡ self }
        ensures bound { IsVertexCount result }
    {
        self.count
    }
}
