// Numbers of four bytes, under a byte order.
#![tactic(auto)]

ghost use Rattle.std.specs.Prelude.{◌≡◌};
ghost use Rattle.words.specs.Order.{Order, bytes_of, low_first, number_of};

// The order in which the four bytes of a number stand.
pub trait ByteOrder {
    ghost order: { Order };

    fn read(bytes: [u8; 4]) -> u32
        ensures { result ≡ order.reads bytes };

    fn write(word: u32) -> [u8; 4]
        ensures { result ≡ order.writes word };

    // The same of a signed number.
    fn read_signed(bytes: [u8; 4]) -> i32
        ensures { result ≡ number_of order bytes }
    {
        Self::read(bytes).cast_signed()
    }

    fn write_signed(number: i32) -> [u8; 4]
        ensures { result ≡ bytes_of order number }
    {
        Self::write(number.cast_unsigned())
    }
}

// The low byte first, as panel files and cut programs have it.
pub struct LowFirst;

impl ByteOrder for LowFirst {
    ghost order = { low_first };

    fn read(bytes: [u8; 4]) -> u32 {
        u32::from_le_bytes(bytes)
    }

    fn write(word: u32) -> [u8; 4] {
        word.to_le_bytes()
    }
}
