// Packings: a list of 32-bit numbers as the bytes of a file, and back.
#![tactic(auto)]

ghost use Rattle.std.specs.Prelude.{◌≡◌, ℕ, ◌+◌, ◌-◌, ◌*◌, ◌/◌, ◌%◌, ◌^◌, ◌<◌, ◌≤◌, [], ◌∷◌, ◌++◌, map, length, drop, All, Contains, pos, slice_index_or, Ok, IsOk, IfOk, IfErr, ◌≤ℤ◌, refl};
ghost use Rattle.std.specs.Result.{result_and, result_unwrap_or};
ghost use Rattle.std.specs.Int.Digits.{number_from_digits, AllBelowBase};
ghost use Rattle.kinds.specs.Vertex.{IsVertexCount};
ghost use Rattle.refusal.specs.declared.Why.TheVariants.{BodyLength};
ghost use Rattle.words.specs.Order.{bytes_of};
ghost use Rattle.pack.specs.Packing.{ReadingMeaning, PackingMeaning, plain, fielded};
ghost use Rattle.bodies.specs.Bodies.{least, gap, width_of, fields_size, spare, laid, fielded_size};
ghost use Rattle.pack.specs.Laws.{HighFirst, OnlyPacked, Figures};

use kinds::{MOST_VERTICES, VertexCount};
use refusal::Why;
use words::ByteOrder;

// A packing, to a reader: what a body of bytes means under a byte order.
pub trait Unpacking {
    const NUMBER: u8;

    ghost NUMBER: { ℕ };

    ghost reading: { ReadingMeaning };

    // Whether the body is one of `n` entries.
    fn judge<O: ByteOrder>(body: &[u8], n: VertexCount) -> Result<(), Why>
        ensures { result ≡ result_and (reading.reads O.order n body.now) (Ok tt) };

    // Entry `i` of a body that was accepted.
    fn entry<O: ByteOrder>(body: &[u8], n: VertexCount, i: usize) -> i32
        requires due { i < n }
        requires accepted { IsOk (reading.reads O.order n body.now) }
        ensures { let list = result_unwrap_or (reading.reads O.order n body.now) [] in
            result ≡ slice_index_or list i (pos 0) };

    // The number that a file gives is the packing's.
    ghost numbered: { NUMBER ≡ reading.number };
}

// And to a writer: what is written is read back.
pub trait Packing: Unpacking {
    ghost means: { PackingMeaning };

    // How many bytes the list's body takes, in any order.
    fn body_length(list: &[i32]) -> usize
        requires { IsVertexCount (length list.now) }
        ensures size { result ≡ means.size list.now }
        ensures short { result ≤ 8 + 4 * length list.now };

    // Writes the list's body to the front of `body`; what follows stays.
    fn write<O: ByteOrder>(list: &[i32], body: &mut [u8])
        requires counted { IsVertexCount (length list.now) }
        requires room { means.size list.now ≤ length body.old }
        ensures { body.new ≡
            means.writes O.order list.now ++ drop (means.size list.now) body.old };

    // It is written for this very reader.
    ghost read_back: { means.reading ≡ Self.reading };
}

// Four bytes for each entry.
pub struct Plain;

impl Unpacking for Plain {
    const NUMBER: u8 = 0;

    ghost NUMBER = { 0 };

    ghost reading = { plain.reading };

    ghost numbered = { refl };

    fn judge<O: ByteOrder>(body: &[u8], n: VertexCount) -> Result<(), Why> {
        if body.len() == 4 * n.get() {
            Ok(())
        } else {
            Err(Why::BodyLength)
        }
    }

    fn entry<O: ByteOrder>(body: &[u8], _n: VertexCount, i: usize) -> i32 {
        let (words, _rest) = body.as_chunks::<4>();
        O::read_signed(words[i])
    }
}

impl Packing for Plain {
    ghost means = { plain };

    ghost read_back = { refl };

    fn body_length(list: &[i32]) -> usize {
        4 * list.len()
    }

    #[tactic(auto, using(words::proofs::Spelling::length_spelled))]
    fn write<O: ByteOrder>(list: &[i32], body: &mut [u8]) {
        for (i, x) in list.iter().enumerate() {
            body[4 * i..4 * i + 4].copy_from_slice(&O::write_signed(*x));
        }
    }
}

// A base, a width, and a field of that many bits for each entry, the high bit first.
pub struct Fielded;

impl Unpacking for Fielded {
    const NUMBER: u8 = 1;

    ghost NUMBER = { 1 };

    ghost reading = { fielded.reading };

    ghost numbered = { refl };

    fn judge<O: ByteOrder>(body: &[u8], n: VertexCount) -> Result<(), Why> {
        let n = n.get();
        let Some(([.., width], fields)) = body.split_first_chunk::<5>() else {
            return Err(Why::BodyLength);
        };
        let width = Width::try_from(*width)?;
        if fields.len() != width.fields_size(n) {
            return Err(Why::BodyLength);
        }
        if spare_bits(fields, width.spare(n)) == 0 {
            Ok(())
        } else {
            Err(Why::SpareBits)
        }
    }

    fn entry<O: ByteOrder>(body: &[u8], _n: VertexCount, i: usize) -> i32 {
        let (base, rest) = body.split_first_chunk::<4>().unwrap();
        let (width, fields) = rest.split_first().unwrap();
        let width = Width {
            bits: usize::from(*width),
        };
        let base = O::read_signed(*base);
        base.wrapping_add_unsigned(width.field(fields, i))
    }
}

impl Packing for Fielded {
    ghost means = { fielded };

    ghost read_back = { refl };

    fn body_length(list: &[i32]) -> usize {
        Framed::of(list).body_length()
    }

    fn write<O: ByteOrder>(list: &[i32], body: &mut [u8]) {
        let framed = Framed::of(list);
        framed.write_head::<O>(body);
        framed.lay(&mut body[5..]);
    }
}

// The smallest entry: the base.
fn smallest(list: &[i32]) -> i32
    requires { 0 < length list.now }
    ensures bound { All (λ x. result ≤ℤ x) list.now }
    ensures among { Contains list.now result }
{
    list.iter().copied().min().unwrap()
}

// The greatest of the list's differences to `base`.
fn widest(base: i32, list: &[i32]) -> u32
    requires { 0 < length list.now }
    ensures bound { All (λ f. f ≤ result) (map (gap base) list.now) }
    ensures among { Contains (map (gap base) list.now) result }
{
    list.iter().map(|x| x.abs_diff(base)).max().unwrap()
}

// The last `k` bits of the fields' bytes.
fn spare_bits(bytes: &[u8], k: usize) -> u8
    requires { k < 8 }
    ensures { result ≡ number_from_digits 256 bytes.now % 2 ^ k }
{
    match bytes {
        [.., last] => last % (1 << k),
        [] => 0,
    }
}

// The number that at most eight bytes write, the highest first.
fn number_of(bytes: &[u8]) -> u64
    requires { length bytes.now ≤ 8 }
    ensures { result ≡ number_from_digits 256 bytes.now }
{
    let mut number: u64 = 0;
    for byte in bytes {
        number = 256 * number + u64::from(*byte);
    }
    number
}

// The width of a field: how many bits it has.
#[derive(Clone, Copy)]
struct Width {
    bits: usize,
    ghost narrow: { bits ≤ 32 },
}

// The width that a body's byte names.
impl TryFrom<u8> for Width {
    type Error = Why;

    ghost try_from_gives = { λ byte r.
        IfOk r (λ w. w.bits ≡ byte) × IfErr r (λ why. (32 < byte) × (why ≡ BodyLength)) };

    fn try_from(byte: u8) -> Result<Width, Why> {
        if byte > 32 {
            return Err(Why::BodyLength);
        }
        Ok(Width {
            bits: usize::from(byte),
        })
    }
}

impl Width {
    // As many bits as a number takes.
    #[tactic(auto, using(std::proofs::lemmas::Nat::pow_below))]
    fn of(number: u32) -> Width
        ensures holds { number < 2 ^ result.bits }
        ensures smallest { (w : ℕ) → number < 2 ^ w → result.bits ≤ w }
    {
        let bits = number.checked_ilog2().map_or(0, |power| power + 1);
        Width {
            bits: bits as usize,
        }
    }

    // The smallest width that holds the list's differences to `base`.
    fn over(base: i32, list: &[i32]) -> Width
        requires { 0 < length list.now }
        ensures value { result.bits ≡ width_of (map (gap base) list.now) }
        ensures holds { AllBelowBase (2 ^ result.bits) (map (gap base) list.now) }
        ensures smallest { let fields = map (gap base) list.now in
            (v : ℕ) → AllBelowBase (2 ^ v) fields → result.bits ≤ v }
    {
        Width::of(widest(base, list))
    }

    // How many bytes `n` fields take.
    fn fields_size(self, n: usize) -> usize
        requires { n ≤ MOST_VERTICES }
        ensures { result ≡ fields_size n self.bits }
    {
        (n * self.bits + 7) / 8
    }

    // And how many of their bits are spare.
    fn spare(self, n: usize) -> usize
        requires { n ≤ MOST_VERTICES }
        ensures { result ≡ spare n self.bits }
    {
        8 * self.fields_size(n) - n * self.bits
    }

    // The last bits of those above the last `below`: a field.
    fn bits_over(self, number: u64, below: usize) -> u32
        requires { below < 64 }
        ensures { result ≡ number / 2 ^ below % 2 ^ self.bits }
    {
        ((number >> below) % (1 << self.bits)) as u32
    }

    // Field `i`. It lies in the first five of the bytes read, which are eight where so many are
    // left.
    fn field(self, bytes: &[u8], i: usize) -> u32
        requires inside { i * self.bits + self.bits ≤ 8 * length bytes.now }
        requires few { length bytes.now ≤ 65536 }
        ensures { let below = 8 * length bytes.now - (i * self.bits + self.bits) in
            result ≡ number_from_digits 256 bytes.now / 2 ^ below % 2 ^ self.bits }
    {
        if self.bits == 0 {
            return 0;
        }
        let at = i * self.bits;
        let start = at / 8;
        if let Some(eight) = bytes[start..].first_chunk::<8>() {
            return self.bits_over(u64::from_be_bytes(*eight), 64 - (at % 8 + self.bits));
        }
        self.bits_over(
            number_of(&bytes[start..]),
            8 * bytes.len() - (at + self.bits),
        )
    }
}

// The eight bits of `acc` above the last `have`.
fn bits_above(acc: u64, have: usize) -> u8
    requires few { have < 64 }
    ensures { result ≡ acc / 2 ^ have % 256 }
{
    ((acc >> have) % 256) as u8
}

// A list with its base, which is its smallest entry, and its width, which holds each entry's difference to the base.
#[derive(Drop)]
struct Framed<'a> {
    list: &'a [i32],
    base: i32,
    width: Width,
    ghost counted: { IsVertexCount (length list.now) },
    ghost lowest: { base ≡ least list.now },
    ghost narrowest: { width.bits ≡ width_of (map (gap base) list.now) },
}

impl<'a> Framed<'a> {
    fn of(list: &'a [i32]) -> Framed<'a>
        requires { IsVertexCount (length list.now) }
        ensures { result.list.now ≡ list.now }
    {
        let base = smallest(list);
        let width = Width::over(base, list);
        Framed { list, base, width }
    }

    fn body_length(&self) -> usize
        ensures size { result ≡ fielded_size self.now.list.now }
        ensures short { result ≤ 8 + 4 * length self.now.list.now }
    {
        5 + self.width.fields_size(self.list.len())
    }

    // Writes the base and the width.
    fn write_head<O: ByteOrder>(&self, body: &mut [u8])
        requires { 5 ≤ length body.old }
        ensures { body.new ≡
            bytes_of O.order self.now.base ++ (self.now.width.bits ∷ drop 5 body.old) }
    {
        body[..4].copy_from_slice(&O::write_signed(self.base));
        body[4] = self.width.bits as u8;
    }

    // Writes the fields; what follows them stays.
    fn lay(&self, out: &mut [u8])
        requires { fields_size (length self.now.list.now) self.now.width.bits ≤ length out.old }
        ensures { let w = self.now.width.bits in
            let fields = map (gap self.now.base) self.now.list.now in
            out.new ≡ laid w fields ++ drop (fields_size (length self.now.list.now) w) out.old }
    {
        let (base, width) = (self.base, self.width.bits);
        let mut entries = self.list.iter();
        // of `acc` the last `have` bits are not yet written
        let mut acc: u64 = 0;
        let mut have: usize = 0;
        for byte in &mut out[..self.width.fields_size(self.list.len())] {
            while have < 8 {
                // behind the last field, zeros
                let field = entries.next().map_or(0, |x| x.abs_diff(base));
                acc = (acc << width) + u64::from(field);
                have += width;
            }
            have -= 8;
            *byte = bits_above(acc, have);
        }
    }
}

// Where a field's bits lie, which bodies are accepted, and figures reckoned by hand.
#[tactic(auto, using(crate::proofs::Reading::high_first, crate::proofs::Reading::only_packed))]
pub fn fields_high_first()
    ensures bits { HighFirst }
    ensures bodies { OnlyPacked }
    ensures figures { Figures }
{}
