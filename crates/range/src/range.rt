// A range: a bit count and two ends in millimetres; codes of design coordinates, places of codes.
ghost use Rattle.std.specs.Prelude.{◌≡◌, ◌+◌, ◌*◌, ◌^◌, ◌<◌, ◌≤◌, true, pos, ◌-ℤ◌, ◌*ℤ◌, ◌<ℤ◌, if◌then◌else◌, Some, None, IfOk, IfSome, from_bits, unsigned_abs};
ghost use Rattle.std.specs.Float.{binary32};
ghost use Rattle.std.specs.Result.{result_err};
ghost use Rattle.range.specs.Scale.{units_of, IsCode, IsRange, code_in, highest, in_words, inside, is_code, lowest, nearest_whole, place_in, quanta, range_of, refusal, said_by, scale_from, width};

use crate::ends::{
    FARTHEST_UNITS, MOST_BITS, end_units, end_word, is_below, is_end, without_sign_of_zero,
};
use crate::words::Words;
use refusal::Why;
use std::marker::Model;
use std::num::f32_from_bits_with_nan;

// The bits are 1 to MOST_BITS, the ends whole units, the lower below the upper, and neither is -0.0.
#[derive(Clone, Copy)]
pub struct Range {
    bits: u8,
    lower: f32,
    upper: f32,
}

impl Model for Range {
    ghost use Rattle.range.specs.Scale.{Scale, IsRange};

    ghost Value = { Scale };

    ghost view = { λ g. record { bits = g.bits; lower = g.lower; upper = g.upper } };

    ghost invariant = { λ g. IsRange (record { bits = g.bits; lower = g.lower; upper = g.upper }) };

    ghost inverse = { λ s. record { bits = s.bits; lower = s.lower; upper = s.upper } };
}

impl Range {
    // The bits are judged first, then the ends, then their order.
    #[tactic(auto, using(crate::proofs::Units::plains))]
    pub fn new(bits: u8, lower: f32, upper: f32) -> Result<Range, Why>
        ensures value { result ≡ range_of bits lower upper }
        ensures refused { refusal bits lower upper ≡ result_err result }
        ensures sound { IfOk result IsRange }
        ensures given { IfOk result (λ s. s ≡ scale_from bits lower upper) }
        ensures lower { IfOk result (λ s. lowest s ≡ units_of lower) }
        ensures upper { IfOk result (λ s. highest s ≡ units_of upper) }
    {
        if !(1..=MOST_BITS).contains(&bits) {
            return Err(Why::Bits);
        }
        if !is_end(lower) || !is_end(upper) {
            return Err(Why::End);
        }
        if !is_below(lower, upper) {
            return Err(Why::Order);
        }
        let lower = without_sign_of_zero(lower);
        let upper = without_sign_of_zero(upper);
        Ok(Range { bits, lower, upper })
    }

    pub fn bits(&self) -> u8
        ensures value { result ≡ self.now.bits }
        ensures sound { IsRange self.now }
    {
        self.bits
    }

    pub fn lower_units(&self) -> i32
        ensures value { result ≡ lowest self.now }
        ensures bound { unsigned_abs result ≤ FARTHEST_UNITS }
    {
        end_units(self.lower)
    }

    pub fn upper_units(&self) -> i32
        ensures value { result ≡ highest self.now }
        ensures bound { unsigned_abs result ≤ FARTHEST_UNITS }
    {
        end_units(self.upper)
    }

    // The greatest code.
    pub fn top(&self) -> u32
        ensures value { result ≡ quanta self.now }
        ensures bound { (0 < result) × (result < 2 ^ MOST_BITS) }
    {
        values_of(self.bits) - 1
    }

    // Whether a design coordinate, in units, lies in the range.
    pub fn holds(&self, v: i32) -> bool
        ensures { result ≡ inside self.now v }
    {
        (self.lower_units()..=self.upper_units()).contains(&v)
    }

    // Whether a number is a code of the range.
    pub fn is_code(&self, c: i32) -> bool
        ensures { result ≡ is_code self.now c }
    {
        (0..=self.top() as i32).contains(&c)
    }

    // The code of a design coordinate in units, if the range holds it.
    pub fn code(&self, v: i32) -> Option<i32>
        ensures value { result ≡ (if inside self.now v then Some (code_in self.now v) else None) }
        ensures bound { IfSome result (λ c. unsigned_abs c < 2 ^ MOST_BITS) }
    {
        self.holds(v).then(|| self.code_of(v))
    }

    // The code of a design coordinate that the range holds: its quantum is nearest.
    pub fn code_of(&self, v: i32) -> i32
        requires { inside self.now v ≡ true }
        ensures value { result ≡ code_in self.now v }
        ensures bound { unsigned_abs result < 2 ^ MOST_BITS }
    {
        let from = self.from_lower(v);
        let width = self.width();
        let quanta = u64::from(self.top());
        nearest(from * quanta, width) as i32
    }

    // The place of a number in steps, if it is a code.
    pub fn place(&self, code: i32) -> Option<i32>
        ensures { result ≡ (if is_code self.now code then Some (place_in self.now code) else None) }
    {
        self.is_code(code).then(|| self.step_of(code))
    }

    // The place of a code, in steps.
    pub fn step_of(&self, code: i32) -> i32
        requires { IsCode self.now code }
        ensures { result ≡ place_in self.now code }
    {
        self.nearest_step(code as u32)
    }

    // The upper end less the lower one, in units.
    fn width(&self) -> u64
        ensures value { result ≡ width self.now }
        ensures bound { (0 < result) × (result ≤ 2 * FARTHEST_UNITS) }
    {
        u64::from(end_units(self.upper).abs_diff(end_units(self.lower)))
    }

    // A design coordinate less the lower end, in units.
    fn from_lower(&self, v: i32) -> u64
        requires { inside self.now v ≡ true }
        ensures value { v -ℤ lowest self.now ≡ pos result }
        ensures bound { result ≤ width self.now }
    {
        u64::from(v.abs_diff(self.lower_units()))
    }

    // The step nearest to what a code stands for.
    fn nearest_step(&self, code: u32) -> i32
        requires { code ≤ quanta self.now }
        ensures { result ≡ place_in self.now (pos code) }
    {
        let lo = i64::from(end_units(self.lower));
        let width = self.width() as i64;
        let quanta = i64::from(self.top());
        let n = product(quanta, lo) + product(i64::from(code), width);
        nearest_signed(n, 8 * quanta) as i32
    }
}

// Words are a range as a file has it.
impl TryFrom<Words> for Range {
    type Error = Why;

    ghost try_from_gives = { λ words result.
        let bits = words.bits in
        let lower = from_bits binary32 words.lower in
        let upper = from_bits binary32 words.upper in
        (result ≡ range_of bits lower upper)
        × (refusal bits lower upper ≡ result_err result)
        × IfOk result IsRange
        × IfOk result (λ s. s ≡ scale_from bits lower upper)
        × IfOk result (λ s. lowest s ≡ units_of lower)
        × IfOk result (λ s. highest s ≡ units_of upper) };

    fn try_from(words: Words) -> Result<Range, Why> {
        Range::new(
            words.bits,
            f32_from_bits_with_nan(words.lower),
            f32_from_bits_with_nan(words.upper),
        )
    }
}

// The words that a file has of a range: read back, they say the same bits and ends.
impl From<Range> for Words {
    ghost from_gives = { λ range words. (words ≡ in_words range) × (said_by words ≡ range) };

    fn from(range: Range) -> Words {
        Words {
            bits: range.bits,
            lower: end_word(range.lower),
            upper: end_word(range.upper),
        }
    }
}

// How many values so many bits have.
#[tactic(auto, using(crate::proofs::Ranges::values_few))]
fn values_of(bits: u8) -> u32
    requires { (1 ≤ bits) × (bits ≤ MOST_BITS) }
    ensures value { result ≡ 2 ^ bits }
    ensures bound { (2 ≤ result) × (result ≤ 2 ^ MOST_BITS) }
{
    1 << bits
}

// The whole number nearest to n / d, the upper one of two.
fn nearest(n: u64, d: u64) -> u64
    requires above { 0 < d }
    requires small { (n < 2 ^ 60) × (d < 2 ^ 60) }
    ensures { pos result ≡ nearest_whole (pos (2 * n)) d }
{
    (2 * n + d) / (2 * d)
}

// The whole number nearest to n / (2 h), the upper one of two, also below zero.
fn nearest_signed(n: i64, h: i64) -> i64
    requires above { pos 0 <ℤ h }
    requires small { (unsigned_abs n < 2 ^ 60) × (unsigned_abs h < 2 ^ 60) }
    ensures { result ≡ nearest_whole n (unsigned_abs h) }
{
    (n + h).div_euclid(2 * h)
}

// A code or a count of quanta times a length in units.
fn product(quanta: i64, units: i64) -> i64
    requires quanta { unsigned_abs quanta < 2 ^ MOST_BITS }
    requires units { unsigned_abs units ≤ 2 * FARTHEST_UNITS }
    ensures value { result ≡ quanta *ℤ units }
    ensures bound { unsigned_abs result ≤ 2 ^ MOST_BITS * (2 * FARTHEST_UNITS) }
{
    quanta * units
}
