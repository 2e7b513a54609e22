// The two ways in which the engine handles the bits of an element: by the operations of `Bitwise`, which are this crate's
// own, and by those that every element has.
ghost use Rattle.std.specs.Prelude.{◌≡◌, ◌+◌, ◌*◌, ◌/◌, ◌%◌, ◌^◌};

use crate::Bitwise;
use places::Element;

// What the engine asks of the bits of an element. A place of a bit is taken modulo T, so that every number has a meaning.
pub trait Arithmetic<E: Element<T, LANES>, const T: usize, const LANES: usize>: Copy {
    // The number that has no bit.
    fn none(self) -> E
        ensures { E.number result ≡ 0 };

    // Bit i of a number.
    fn bit(self, m: E, i: usize) -> E
        ensures { E.number result ≡ E.number m / 2 ^ (i % T) % 2 };

    // A number moved up by i places; what is at 2^T and above is lost.
    fn at_bit(self, m: E, i: usize) -> E
        ensures { E.number result ≡ E.number m * 2 ^ (i % T) % 2 ^ T };

    // The sum modulo 2^T.
    fn plus(self, m: E, n: E) -> E
        ensures { E.number result ≡ (E.number m + E.number n) % 2 ^ T };
}

// By the operations of `Bitwise`.
#[derive(Clone, Copy)]
pub struct ByBitwise;

impl<E: Bitwise<T, LANES>, const T: usize, const LANES: usize> Arithmetic<E, T, LANES>
    for ByBitwise {
    fn none(self) -> E {
        E::none()
    }

    fn bit(self, m: E, i: usize) -> E {
        m.bit(i)
    }

    fn at_bit(self, m: E, i: usize) -> E {
        m.at_bit(i)
    }

    fn plus(self, m: E, n: E) -> E {
        m.plus(n)
    }
}

// By the operations of `Element`.
#[derive(Clone, Copy)]
pub struct ByElement;

impl<E: Element<T, LANES>, const T: usize, const LANES: usize> Arithmetic<E, T, LANES>
    for ByElement {
    fn none(self) -> E {
        E::of(0)
    }

    fn bit(self, m: E, i: usize) -> E {
        m.shr(i).low(1)
    }

    fn at_bit(self, m: E, i: usize) -> E {
        m.shl(i)
    }

    #[tactic(auto, unfolding(lists::specs::Numbers::plus))]
    fn plus(self, m: E, n: E) -> E {
        m.wrapping_add(n)
    }
}
