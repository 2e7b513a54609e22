// The calls for programs in C and in Rust: each function hands one call on, under a name of its own in the archive that
// `rt lib` writes. A slice is a pointer and a length there, and a `&mut` number a pointer to one.
//
// Each function gives the number of the call's answer, and the place and what else the call gives through lent numbers.
// Its contract is that of the call, whole, and nothing is required of a caller but what the types say:
// docs/DECISIONS.md has what that is at this boundary. The calls on blocks have a module for each element size; what
// the sizes share stands here.
#![tactic(auto)]

pub mod chunks;
pub mod columns;
pub mod machine;
pub mod t16;
pub mod t32;
pub mod t64;
pub mod t8;
pub mod text;

ghost use Rattle.std.specs.Prelude.{◌≡◌};
ghost use Rattle.access.specs.Singles.{answer_of, value_of, words_of, single_number};
ghost use Rattle.bits.specs.Bits.{untranspose_bits_of};
ghost use Rattle.exports.specs.Handed.{Handed, SingleHanded, ListHanded, FrontHanded};

use access::{Afforded, Listed, Single, Words};
use bits::{BitBlock, untranspose_bits};
use places::{Answer, Element};

// Hands an answer on: its place through the lent number, and its number as the result.
fn hand(answer: Answer, place: &mut usize) -> usize
    ensures { Handed answer result place.new }
{
    *place = answer.place();
    answer.number()
}

// Hands over what single access gives.
fn hand_single<E: Element<T, LANES>, const T: usize, const LANES: usize>(
    single: Single<E>,
    value: &mut E,
    words: &mut Words,
    place: &mut usize,
) -> usize
    ensures { SingleHanded answer_of value_of words_of (single_number E.number single) result (E.number value.new) words.new place.new }
{
    *value = single.value();
    *words = single.words();
    hand(single.answer(), place)
}

// Hands over what access by a list gives.
fn hand_list(listed: Listed, words: &mut Words, place: &mut usize) -> usize
    ensures { ListHanded listed result words.new place.new }
{
    *words = listed.words();
    hand(listed.answer(), place)
}

// Hands over what access by a list under a budget gives.
fn hand_front(front: Afforded, answered: &mut usize, words: &mut Words, place: &mut usize) -> usize
    ensures { FrontHanded front result answered.new words.new place.new }
{
    *answered = front.answered();
    *words = front.words();
    hand(front.answer(), place)
}

// Moves the bits of a block that was transposed for u64 back to where they came from; always answers.
#[unsafe(no_mangle)]
pub extern "C" fn fascjoldi_untranspose_bits_u64(input: &BitBlock, output: &mut BitBlock)
    ensures { output.new ≡ untranspose_bits_of input.now }
{
    *output = untranspose_bits(*input);
}
