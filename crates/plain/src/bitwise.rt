// The arithmetic of single bits, for each type of an element. It is this crate's own: of the operations that the main
// engine has of an element none is used here, so that an error in them would have to be made once more to stay unseen.
ghost use Rattle.std.specs.Prelude.{◌≡◌, ◌+◌, ◌*◌, ◌/◌, ◌%◌, ◌^◌};

use places::Element;
use std::num::{wrapping_add_u8, wrapping_add_u16, wrapping_add_u32, wrapping_add_u64};

// A type of element with its bits. A place of a bit is taken modulo T, so that every number has a meaning.
pub trait Bitwise<const T: usize, const LANES: usize>: Element<T, LANES> {
    // The number that has no bit.
    fn none() -> Self
        ensures { Self.number result ≡ 0 };

    // Bit i of a number.
    fn bit(self, i: usize) -> Self
        ensures { Self.number result ≡ Self.number self / 2 ^ (i % T) % 2 };

    // A number moved up by i places; what is at 2^T and above is lost.
    fn at_bit(self, i: usize) -> Self
        ensures { Self.number result ≡ Self.number self * 2 ^ (i % T) % 2 ^ T };

    // The sum modulo 2^T.
    fn plus(self, other: Self) -> Self
        ensures { Self.number result ≡ (Self.number self + Self.number other) % 2 ^ T };
}

impl Bitwise<8, 128> for u8 {
    fn none() -> u8 {
        0
    }

    fn bit(self, i: usize) -> u8 {
        (self >> (i % 8)) % 2
    }

    fn at_bit(self, i: usize) -> u8 {
        self << (i % 8)
    }

    fn plus(self, other: u8) -> u8 {
        wrapping_add_u8(self, other)
    }
}

impl Bitwise<16, 64> for u16 {
    fn none() -> u16 {
        0
    }

    fn bit(self, i: usize) -> u16 {
        (self >> (i % 16)) % 2
    }

    fn at_bit(self, i: usize) -> u16 {
        self << (i % 16)
    }

    fn plus(self, other: u16) -> u16 {
        wrapping_add_u16(self, other)
    }
}

impl Bitwise<32, 32> for u32 {
    fn none() -> u32 {
        0
    }

    fn bit(self, i: usize) -> u32 {
        (self >> (i % 32)) % 2
    }

    fn at_bit(self, i: usize) -> u32 {
        self << (i % 32)
    }

    fn plus(self, other: u32) -> u32 {
        wrapping_add_u32(self, other)
    }
}

impl Bitwise<64, 16> for u64 {
    fn none() -> u64 {
        0
    }

    fn bit(self, i: usize) -> u64 {
        (self >> (i % 64)) % 2
    }

    fn at_bit(self, i: usize) -> u64 {
        self << (i % 64)
    }

    fn plus(self, other: u64) -> u64 {
        wrapping_add_u64(self, other)
    }
}
