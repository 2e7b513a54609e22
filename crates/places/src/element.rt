// The four types of an element, as one trait. Every call on blocks is one function over it.
ghost use Rattle.std.proofs.Common.{refl, sym, inl, inr, lit<};
ghost use Rattle.std.proofs.lemmas.List.{map-id};
ghost use Rattle.std.specs.Prelude.{◌≡◌, ℕ, List, map, ◌*◌, ◌/◌, ◌%◌, ◌^◌, ◌<◌, bit_or};
ghost use Rattle.std.specs.Mem.{type_size};
ghost use Rattle.lists.specs.Numbers.{plus, minus, Elements};
ghost use Rattle.places.specs.Sizes.{Size, lanes};

use std::num::{
    wrapping_add_u8, wrapping_add_u16, wrapping_add_u32, wrapping_add_u64, wrapping_sub_u8,
    wrapping_sub_u16, wrapping_sub_u32, wrapping_sub_u64,
};

// A type of element: T is the number of its bits, and LANES is how many stand side by side in a block. Each operation
// has its plain arithmetical meaning, over the number that an element is.
pub trait Element<const T: usize, const LANES: usize>: Copy {
    // The number that an element is,
    ghost number: { Self → ℕ };

    // and the numbers that a list of elements is.
    ghost numbers: { List Self → List ℕ };

    // A number of eight bits, which every element has room for.
    fn of(n: u8) -> Self
        ensures { number result ≡ n };

    // Divided by 2^(s mod T). A shift or a width is taken modulo T, so that every number has a meaning.
    fn shr(self, s: usize) -> Self
        ensures { number result ≡ number self / 2 ^ (s % T) };

    // Times 2^(s mod T), modulo 2^T.
    fn shl(self, s: usize) -> Self
        ensures { number result ≡ number self * 2 ^ (s % T) % 2 ^ T };

    // Modulo 2^(w mod T).
    fn low(self, w: usize) -> Self
        ensures { number result ≡ number self % 2 ^ (w % T) };

    // The bits of both.
    fn or(self, other: Self) -> Self
        ensures { number result ≡ bit_or (number self) (number other) };

    // The sum modulo 2^T.
    fn wrapping_add(self, other: Self) -> Self
        ensures { number result ≡ plus T (number self) (number other) };

    // The difference modulo 2^T.
    fn wrapping_sub(self, other: Self) -> Self
        ensures { number result ≡ minus T (number self) (number other) };

    // Every number of a list is one of T bits. At a type that is known the prover has this of itself; a function over any
    // element asks for it here. Nothing is done.
    fn are_elements(list: &[Self])
        ensures { Elements T (numbers list.now) };

    // T is one of the four sizes, and LANES is as it says.
    ghost size: { Size T };

    ghost side_by_side: { lanes T ≡ LANES };

    // A row of elements fits in memory.
    ghost row_fits: { LANES * type_size Self.row < 2 ^ 63 };

    // A list is taken as numbers one by one.
    ghost one_by_one: { (xs : List Self) → numbers xs ≡ map number xs };
}

impl Element<8, 128> for u8 {
    ghost number = { λ x. x };

    ghost numbers = { λ xs. xs };

    fn of(n: u8) -> u8 {
        n
    }

    fn shr(self, s: usize) -> u8 {
        self >> (s % 8)
    }

    fn shl(self, s: usize) -> u8 {
        self << (s % 8)
    }

    fn low(self, w: usize) -> u8 {
        self % (1u8 << (w % 8))
    }

    fn or(self, other: u8) -> u8 {
        self | other
    }

    fn wrapping_add(self, other: u8) -> u8 {
        wrapping_add_u8(self, other)
    }

    fn wrapping_sub(self, other: u8) -> u8 {
        wrapping_sub_u8(self, other)
    }

    fn are_elements(_list: &[u8]) {}

    ghost size = { inl refl };

    ghost side_by_side = { refl };

    ghost row_fits = { lit< tt };

    ghost one_by_one = { λ xs. sym (map-id xs) };
}

impl Element<16, 64> for u16 {
    ghost number = { λ x. x };

    ghost numbers = { λ xs. xs };

    fn of(n: u8) -> u16 {
        n as u16
    }

    fn shr(self, s: usize) -> u16 {
        self >> (s % 16)
    }

    fn shl(self, s: usize) -> u16 {
        self << (s % 16)
    }

    fn low(self, w: usize) -> u16 {
        self % (1u16 << (w % 16))
    }

    fn or(self, other: u16) -> u16 {
        self | other
    }

    fn wrapping_add(self, other: u16) -> u16 {
        wrapping_add_u16(self, other)
    }

    fn wrapping_sub(self, other: u16) -> u16 {
        wrapping_sub_u16(self, other)
    }

    fn are_elements(_list: &[u16]) {}

    ghost size = { inr (inl refl) };

    ghost side_by_side = { refl };

    ghost row_fits = { lit< tt };

    ghost one_by_one = { λ xs. sym (map-id xs) };
}

impl Element<32, 32> for u32 {
    ghost number = { λ x. x };

    ghost numbers = { λ xs. xs };

    fn of(n: u8) -> u32 {
        n as u32
    }

    fn shr(self, s: usize) -> u32 {
        self >> (s % 32)
    }

    fn shl(self, s: usize) -> u32 {
        self << (s % 32)
    }

    fn low(self, w: usize) -> u32 {
        self % (1u32 << (w % 32))
    }

    fn or(self, other: u32) -> u32 {
        self | other
    }

    fn wrapping_add(self, other: u32) -> u32 {
        wrapping_add_u32(self, other)
    }

    fn wrapping_sub(self, other: u32) -> u32 {
        wrapping_sub_u32(self, other)
    }

    fn are_elements(_list: &[u32]) {}

    ghost size = { inr (inr (inl refl)) };

    ghost side_by_side = { refl };

    ghost row_fits = { lit< tt };

    ghost one_by_one = { λ xs. sym (map-id xs) };
}

impl Element<64, 16> for u64 {
    ghost number = { λ x. x };

    ghost numbers = { λ xs. xs };

    fn of(n: u8) -> u64 {
        n as u64
    }

    fn shr(self, s: usize) -> u64 {
        self >> (s % 64)
    }

    fn shl(self, s: usize) -> u64 {
        self << (s % 64)
    }

    fn low(self, w: usize) -> u64 {
        self % (1u64 << (w % 64))
    }

    fn or(self, other: u64) -> u64 {
        self | other
    }

    fn wrapping_add(self, other: u64) -> u64 {
        wrapping_add_u64(self, other)
    }

    fn wrapping_sub(self, other: u64) -> u64 {
        wrapping_sub_u64(self, other)
    }

    fn are_elements(_list: &[u64]) {}

    ghost size = { inr (inr (inr refl)) };

    ghost side_by_side = { refl };

    ghost row_fits = { lit< tt };

    ghost one_by_one = { λ xs. sym (map-id xs) };
}
