// The pieces of a panel file: each begins with its letter, and numbers stand in a byte order.
ghost use Rattle.std.specs.Prelude.{◌≡◌, ◌+◌, ◌≤◌, length};
ghost use Rattle.range.specs.Scale.{in_words};
ghost use Rattle.words.specs.Bytes.{overwritten};
ghost use Rattle.panel.specs.Layout.{Header, piece_bytes, header_piece, range_piece, length_piece};

use range::range::Range;
use range::words::Words;
use words::ByteOrder;

// N: the axis count, the predictor, the packing and the vertex count.
pub const HEAD_LETTER: u8 = b'N';

pub const HEAD_SIZE: usize = 8;

// Q: the bits and the two ends of an axis.
pub const RANGE_LETTER: u8 = b'Q';

pub const RANGE_SIZE: usize = 10;

// V: the length of the body that follows.
pub const LENGTH_LETTER: u8 = b'V';

pub const LENGTH_SIZE: usize = 5;

// E: the end.
pub const END_LETTER: u8 = b'E';

pub const END_SIZE: usize = 1;

pub(crate) fn head_piece<O: ByteOrder>(
    axes: u8,
    predictor: u8,
    packing: u8,
    count: u32,
) -> [u8; HEAD_SIZE]
    ensures { let header : Header = record {
      axes = axes;
      predictor = predictor;
      packing = packing;
      count = count;
    } in
        result ≡ piece_bytes (header_piece O.order) header }
{
    let [a, b, c, d] = O::write(count);
    [HEAD_LETTER, axes, predictor, packing, a, b, c, d]
}

pub(crate) fn range_piece<O: ByteOrder>(range: &Range) -> [u8; RANGE_SIZE]
    ensures { result ≡ piece_bytes (range_piece O.order) (in_words range.now) }
{
    let Words { bits, lower, upper } = (*range).into();
    let [a, b, c, d] = O::write(lower);
    let [e, f, g, h] = O::write(upper);
    [RANGE_LETTER, bits, a, b, c, d, e, f, g, h]
}

pub(crate) fn length_piece<O: ByteOrder>(length: u32) -> [u8; LENGTH_SIZE]
    ensures { result ≡ piece_bytes (length_piece O.order) length }
{
    let [a, b, c, d] = O::write(length);
    [LENGTH_LETTER, a, b, c, d]
}

// Writes bytes over those from a place on.
pub(crate) fn put(file: &mut [u8], at: usize, bytes: &[u8])
    requires { at + length bytes.now ≤ length file.old }
    ensures { file.new ≡ overwritten file.old at bytes.now }
{
    file[at..at + bytes.len()].copy_from_slice(bytes);
}
