// An element as a stream has it: little-endian in bytes, and as the number of a record's field.
ghost use Rattle.std.specs.Prelude.{◌≡◌, ◌/◌, ◌%◌, ◌^◌};
ghost use Rattle.little.specs.Little.{little_or};

use little::{pair, quad, word};
use places::Element;

// A type of element with its form in a stream.
pub trait Streamed<const T: usize, const LANES: usize>: Element<T, LANES> {
    // The element whose bytes begin at `at`; 0 where they are not all there.
    fn read(bytes: &[u8], at: usize) -> Self
        ensures { Self.number result ≡ little_or bytes.now at (T / 8) };

    // The number modulo 2^T.
    fn narrow(x: u64) -> Self
        ensures { Self.number result ≡ x % 2 ^ T };

    // The element as a number.
    fn widen(self) -> u64
        ensures { result ≡ Self.number self };
}

impl Streamed<8, 128> for u8 {
    fn read(bytes: &[u8], at: usize) -> u8 {
        if at < bytes.len() { bytes[at] } else { 0 }
    }

    fn narrow(x: u64) -> u8 {
        (x % 0x100) as u8
    }

    fn widen(self) -> u64 {
        self as u64
    }
}

impl Streamed<16, 64> for u16 {
    fn read(bytes: &[u8], at: usize) -> u16 {
        pair(bytes, at)
    }

    fn narrow(x: u64) -> u16 {
        (x % 0x1_0000) as u16
    }

    fn widen(self) -> u64 {
        self as u64
    }
}

impl Streamed<32, 32> for u32 {
    fn read(bytes: &[u8], at: usize) -> u32 {
        quad(bytes, at)
    }

    fn narrow(x: u64) -> u32 {
        (x % 0x1_0000_0000) as u32
    }

    fn widen(self) -> u64 {
        self as u64
    }
}

// Here there is nothing to cut off, and 2^64 is no u64.
impl Streamed<64, 16> for u64 {
    fn read(bytes: &[u8], at: usize) -> u64 {
        word(bytes, at)
    }

    fn narrow(x: u64) -> u64 {
        x
    }

    fn widen(self) -> u64 {
        self
    }
}
