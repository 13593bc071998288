// An axis of a panel file: its range and its body.
ghost use Rattle.std.specs.Prelude.{◌≡◌, IfOk, Ok, length};
ghost use Rattle.range.specs.Scale.{scale_of};
ghost use Rattle.panel.specs.Judging.{unless, range_faults, scale_at, opened};
ghost use Rattle.load.specs.Pieces.{told_by, says_axis};

use crate::body::Body;
use crate::piece::{Due, Piece, Rest};
use kinds::VertexCount;
use pack::Unpacking;
use range::range::Range;
use range::words::Words;
use refusal::Refusal;
use words::ByteOrder;

// An axis as it is read, and where in the file its body begins.
#[derive(Drop)]
pub struct Axis<'a, O: ByteOrder, Q: Unpacking> {
    pub range: Range,
    pub body: Body<'a, O, Q>,
    pub offset: usize,
}

impl<'a, O: ByteOrder, Q: Unpacking> Axis<'a, O, Q> {
    // Q, V and a body of so many entries, and what follows them. Inlined: handed back in memory, an
    // axis costs more than a short body.
    #[inline(always)]
    #[tactic(auto, unfolding(panel::specs::Judging::opened))]
    pub fn take(rest: Rest<'a>, n: VertexCount) -> Result<(Axis<'a, O, Q>, Rest<'a>), Refusal>
        ensures value { told_by says_axis result ≡ opened O.order Q.reading n rest.entry }
        ensures long { IfOk result (λ x. length x.0.body ≡ n) }
    {
        let (range, rest) = take_range::<O>(rest)?;
        let (Piece::Length(len), rest) = rest.take::<O>(Due::Length)? else {
            unreachable!()
        };
        let body = rest.take::<O>(Due::Body(len as usize))?;
        let (Piece::Body { bytes, offset }, rest) = body else {
            unreachable!()
        };
        let body = Body::judge(bytes, n).map_err(|why| why.at(offset))?;
        Ok((
            Axis {
                range,
                body,
                offset,
            },
            rest,
        ))
    }
}

// Q: the range of an axis.
fn take_range<'a, O: ByteOrder>(rest: Rest<'a>) -> Result<(Range, Rest<'a>), Refusal>
    ensures { result ≡ scale_at O.order rest.entry }
{
    let at = rest.at();
    let (Piece::Range(words), rest) = rest.take::<O>(Due::Range)? else {
        unreachable!()
    };
    let range = range_of(words, at)?;
    Ok((range, rest))
}

fn range_of(words: Words, at: usize) -> Result<Range, Refusal>
    ensures { result ≡ unless (range_faults words at) (Ok (scale_of words)) }
{
    Range::try_from(words).map_err(|why| why.at(at))
}
