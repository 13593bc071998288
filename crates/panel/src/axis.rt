// The pieces of an axis: its range, and the body of what is stored of the points' codes.
ghost use Rattle.std.specs.Prelude.{◌≡◌, ◌+◌, ◌≤◌, length};
ghost use Rattle.kinds.specs.Vertex.{IsVertexCount};
ghost use Rattle.words.specs.Bytes.{overwritten};
ghost use Rattle.panel.specs.Layout.{stored_axis};
ghost use Rattle.panel.specs.declared.pieces.TheConstants.{LENGTH_SIZE, RANGE_SIZE};

use crate::pieces::{LENGTH_SIZE, RANGE_SIZE, length_piece, put, range_piece};
use pack::Packing;
use range::range::Range;
use words::ByteOrder;

// Writes them at a place, and answers the place after them. Not inlined: beside the packing's loops, the loop over the
// points would be slower.
#[inline(never)]
pub(crate) fn write_axis<O: ByteOrder, Q: Packing>(
    range: &Range,
    entries: &[i32],
    file: &mut [u8],
    at: usize,
) -> usize
    requires counted { IsVertexCount (length entries.now) }
    requires space { at + RANGE_SIZE + LENGTH_SIZE + Q.means.size entries.now ≤ length file.old }
    ensures bytes { let axis = stored_axis O.order Q.means range.now entries.now in
        file.new ≡ overwritten file.old at axis }
    ensures next { result ≡ at + RANGE_SIZE + LENGTH_SIZE + Q.means.size entries.now }
{
    let size = Q::body_length(entries);
    put(file, at, &range_piece::<O>(range));
    put(file, at + RANGE_SIZE, &length_piece::<O>(size as u32));
    let body = at + RANGE_SIZE + LENGTH_SIZE;
    Q::write::<O>(entries, &mut file[body..body + size]);
    body + size
}
