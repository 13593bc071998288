// A body as the packing reads it, and its codes.
ghost use Rattle.std.specs.Prelude.{◌≡◌, ◌<◌, IfOk, length, pos, slice_index_or};
ghost use Rattle.std.specs.Iterator.{YieldsFirst, item_count};
ghost use Rattle.kinds.specs.Vertex.{IsVertexCount};
ghost use Rattle.predict.specs.Residues.{values};

use kinds::VertexCount;
use pack::Unpacking;
use predict::{Before, Predictor};
use refusal::Why;
use std::marker::{Model, PhantomData};
use words::ByteOrder;

// A body that the packing accepts: it is the list that it means.
#[derive(Drop)]
pub struct Body<'a, O: ByteOrder, Q: Unpacking> {
    bytes: &'a [u8],
    count: VertexCount,
    meaning: PhantomData<(O, Q)>,
}

impl<'a, O: ByteOrder, Q: Unpacking> Model for Body<'a, O, Q> {
    ghost use Rattle.std.specs.Prelude.{ℤ, List, [], IsOk};
    ghost use Rattle.std.specs.Result.{result_unwrap_or};

    ghost Value = { List ℤ };

    ghost view = { λ b. result_unwrap_or (Q.reading.reads O.order b.count b.bytes.now) [] };

    ghost invariant = { λ b. IsOk (Q.reading.reads O.order b.count b.bytes.now) };
}

impl<'a, O: ByteOrder, Q: Unpacking> Body<'a, O, Q> {
    pub fn judge(bytes: &'a [u8], count: VertexCount) -> Result<Body<'a, O, Q>, Why>
        ensures value { result ≡ Q.reading.reads O.order count bytes.now }
        ensures long { IfOk result (λ b. length b ≡ count) }
    {
        Q::judge::<O>(bytes, count)?;
        Ok(Body {
            bytes,
            count,
            meaning: PhantomData,
        })
    }

    pub fn len(&self) -> usize
        ensures value { result ≡ length self.now }
        ensures bound { IsVertexCount result }
    {
        self.count.get()
    }

    // Entry `i`.
    fn entry(&self, i: usize) -> i32
        requires { i < length self.now }
        ensures { result ≡ slice_index_or self.now i (pos 0) }
    {
        prove!(i < self.count.get());
        Q::entry::<O>(self.bytes, self.count, i)
    }

    // Its codes, one after another.
    pub fn codes<P: Predictor>(self) -> Codes<'a, O, P, Q>
        ensures { result ≡ values P.means self.entry }
    {
        Codes {
            body: self,
            index: 0,
            before: Before::none(),
            predictor: PhantomData,
        }
    }
}

// The codes that are left, of which the next is that of entry `index`, with four codes before it.
#[derive(Drop)]
pub struct Codes<'a, O: ByteOrder, P: Predictor, Q: Unpacking> {
    body: Body<'a, O, Q>,
    index: usize,
    before: Before,
    predictor: PhantomData<P>,
}

impl<'a, O: ByteOrder, P: Predictor, Q: Unpacking> Model for Codes<'a, O, P, Q> {
    ghost use Rattle.std.specs.Prelude.{ℤ, ◌≤◌, List, length, drop};
    ghost use Rattle.predict.specs.Residues.{values_from};

    ghost Value = { List ℤ };

    ghost view = { λ c. values_from P.means c.index c.before (drop c.index c.body) };

    ghost invariant = { λ c. c.index ≤ length c.body };
}

impl<'a, O: ByteOrder, P: Predictor, Q: Unpacking> Iterator for Codes<'a, O, P, Q> {
    type Item = i32;

    ghost next_gives = { YieldsFirst (λ left. left) };

    ghost remaining = { item_count (λ left. left) };

    // inlined into the innermost loops of a load, of judging and of placing
    #[inline(always)]
    fn next(&mut self) -> Option<i32> {
        let i = self.index;
        if i == self.body.len() {
            return None;
        }
        let code = predict::restored::<P>(i as u16, self.before, self.body.entry(i));
        self.index = i + 1;
        self.before = self.before.then(code);
        Some(code)
    }
}
