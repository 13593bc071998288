// A range as files and controllers have it.

// A bit count, and the two ends as 32-bit words.
#[repr(C)]
#[derive(Clone, Copy, Debug, PartialEq, Eq)]
pub struct Words {
    pub bits: u8,
    pub lower: u32,
    pub upper: u32,
}
