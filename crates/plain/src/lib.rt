// Packing, unpacking and single access one bit at a time, straight from the lane layout (R76):
//
//     bit b of row r of lane l is bit (r · W + b) mod T of word (r · W + b) / T of that lane.
//
// It is slow, and it is there to be believed: it depends on no code of packing or access, and has no rule of its own for
// any width. The engine is one text, which takes an arithmetic of bits. With `ByBitwise`, whose operations are this
// crate's own, it is the second engine of R76: the calls whose names end in `bitwise`. With `ByElement` it takes any type
// of element, and works by the operations of that type.
#![tactic(auto)]

mod arithmetic;
mod bitwise;

ghost use Rattle.std.specs.Prelude.{◌≡◌, ◌+◌, ◌*◌, ◌%◌, ◌^◌, ◌≤◌, ◌<◌, leb, ltb, length};
ghost use Rattle.lists.specs.Pick.{both};
ghost use Rattle.places.specs.Places as Places;
ghost use Rattle.places.specs.Sizes.{Size, lanes};
ghost use Rattle.places.specs.Takes.{answer_for};
ghost use Rattle.plain.specs.Calls.{plain_takes, plain_pack_leaves, plain_unpack_leaves, plain_single_takes, plain_single};
ghost use Rattle.plain.specs.Plain as Plain;
ghost use Rattle.plain.specs.Plain.{word_of, new_word_lem, words_for, value_in, plain_value, plain_unpack, word_in, plain_pack};
ghost use Rattle.plain.specs.Singles.{single_number, answer_of, value_of, words_of};

use arithmetic::{Arithmetic, ByBitwise, ByElement};
pub use bitwise::Bitwise;
use places::{Answer, Element, order};

#[cfg(test)]
mod tests;

// What stands for a count where there is none.
pub const NO_COUNT: usize = usize::MAX;

// The value at one place and how many packed words its bits come from, or the refusal.
#[derive(Clone, Copy)]
pub enum Single<E> {
    Value(E, usize),
    Refused(Answer),
}

impl<E: Copy> Single<E> {
    // The answer in the terms of the other calls.
    pub fn answer(self) -> Answer
        ensures { result ≡ answer_of self }
    {
        match self {
            Single::Value(_, _) => Answer::Done,
            Single::Refused(a) => a,
        }
    }

    // The value; 0 after a refusal.
    pub fn value<const T: usize, const LANES: usize>(self) -> E
    where
        E: Element<T, LANES>,
        ensures { E.number result ≡ value_of (single_number E.number self) }
    {
        self.value_by(ByElement)
    }

    // `value` by an operation of this crate's own.
    pub fn value_bitwise<const T: usize, const LANES: usize>(self) -> E
    where
        E: Bitwise<T, LANES>,
        ensures { E.number result ≡ value_of (single_number E.number self) }
    {
        self.value_by(ByBitwise)
    }

    // The value; after a refusal the number that has no bit.
    fn value_by<A, const T: usize, const LANES: usize>(self, by: A) -> E
    where
        E: Element<T, LANES>,
        A: Arithmetic<E, T, LANES>,
        ensures { E.number result ≡ value_of (single_number E.number self) }
    {
        match self {
            Single::Value(v, _) => v,
            Single::Refused(_) => by.none(),
        }
    }

    // The count of words; `NO_COUNT` after a refusal.
    pub fn words(self) -> usize
        ensures { result ≡ words_of self }
    {
        match self {
            Single::Value(_, n) => n,
            Single::Refused(_) => NO_COUNT,
        }
    }
}

// Packs a block of 1,024 values.
pub fn pack<E: Element<T, LANES>, const T: usize, const LANES: usize>(
    width: usize,
    values: &[E],
    packed: &mut [E],
) -> Answer
    ensures value { result ≡ answer_for (plain_takes T width (E.numbers values.now) (E.numbers packed.old)) }
    ensures packed_after { E.numbers packed.new ≡ plain_pack_leaves T width (E.numbers values.now) (E.numbers packed.old) }
{
    pack_by(ByElement, width, values, packed)
}

// Unpacks a packed block.
pub fn unpack<E: Element<T, LANES>, const T: usize, const LANES: usize>(
    width: usize,
    packed: &[E],
    values: &mut [E],
) -> Answer
    ensures value { result ≡ answer_for (plain_takes T width (E.numbers values.old) (E.numbers packed.now)) }
    ensures values_after { E.numbers values.new ≡ plain_unpack_leaves T width (E.numbers values.old) (E.numbers packed.now) }
{
    unpack_by(ByElement, width, packed, values)
}

// Unpacks the value at one place of a packed block, and counts the words that its bits come from.
pub fn unpack_single<E: Element<T, LANES>, const T: usize, const LANES: usize>(
    width: usize,
    packed: &[E],
    index: usize,
) -> Single<E>
    ensures { single_number E.number result
        ≡ plain_single Single.Value Single.Refused T width (E.numbers packed.now) index }
{
    unpack_single_by(ByElement, width, packed, index)
}

// `pack` by operations of this crate's own (R76).
pub fn pack_bitwise<E: Bitwise<T, LANES>, const T: usize, const LANES: usize>(
    width: usize,
    values: &[E],
    packed: &mut [E],
) -> Answer
    ensures value { result ≡ answer_for (plain_takes T width (E.numbers values.now) (E.numbers packed.old)) }
    ensures packed_after { E.numbers packed.new ≡ plain_pack_leaves T width (E.numbers values.now) (E.numbers packed.old) }
{
    pack_by(ByBitwise, width, values, packed)
}

// `unpack` by operations of this crate's own (R76).
pub fn unpack_bitwise<E: Bitwise<T, LANES>, const T: usize, const LANES: usize>(
    width: usize,
    packed: &[E],
    values: &mut [E],
) -> Answer
    ensures value { result ≡ answer_for (plain_takes T width (E.numbers values.old) (E.numbers packed.now)) }
    ensures values_after { E.numbers values.new ≡ plain_unpack_leaves T width (E.numbers values.old) (E.numbers packed.now) }
{
    unpack_by(ByBitwise, width, packed, values)
}

// `unpack_single` by operations of this crate's own (R76).
pub fn unpack_single_bitwise<E: Bitwise<T, LANES>, const T: usize, const LANES: usize>(
    width: usize,
    packed: &[E],
    index: usize,
) -> Single<E>
    ensures { single_number E.number result
        ≡ plain_single Single.Value Single.Refused T width (E.numbers packed.now) index }
{
    unpack_single_by(ByBitwise, width, packed, index)
}

// Packs, by an arithmetic of bits.
fn pack_by<A: Arithmetic<E, T, LANES>, E: Element<T, LANES>, const T: usize, const LANES: usize>(
    by: A,
    width: usize,
    values: &[E],
    packed: &mut [E],
) -> Answer
    ensures value { result ≡ answer_for (plain_takes T width (E.numbers values.now) (E.numbers packed.old)) }
    ensures packed_after { E.numbers packed.new ≡ plain_pack_leaves T width (E.numbers values.now) (E.numbers packed.old) }
{
    let answer = block_answer(width, values, packed);
    if answer.number() == 0 {
        pack_words(by, width, values, packed);
    }
    answer
}

// Unpacks, by an arithmetic of bits.
fn unpack_by<A: Arithmetic<E, T, LANES>, E: Element<T, LANES>, const T: usize, const LANES: usize>(
    by: A,
    width: usize,
    packed: &[E],
    values: &mut [E],
) -> Answer
    ensures value { result ≡ answer_for (plain_takes T width (E.numbers values.old) (E.numbers packed.now)) }
    ensures values_after { E.numbers values.new ≡ plain_unpack_leaves T width (E.numbers values.old) (E.numbers packed.now) }
{
    let answer = block_answer(width, values, packed);
    if answer.number() == 0 {
        unpack_values(by, width, packed, values);
    }
    answer
}

// Unpacks the value at one place, by an arithmetic of bits.
fn unpack_single_by<
    A: Arithmetic<E, T, LANES>,
    E: Element<T, LANES>,
    const T: usize,
    const LANES: usize,
>(by: A, width: usize, packed: &[E], index: usize) -> Single<E>
    ensures { single_number E.number result
        ≡ plain_single Single.Value Single.Refused T width (E.numbers packed.now) index }
{
    let answer = single_answer(width, packed, index);
    if answer.number() != 0 {
        return Single::Refused(answer);
    }
    let value = value_at(by, width, packed, index);
    let words = words_for(T, width, row_of(T, index));
    Single::Value(value, words)
}

// What pack and unpack answer.
fn block_answer<E: Element<T, LANES>, const T: usize, const LANES: usize>(
    width: usize,
    values: &[E],
    packed: &[E],
) -> Answer
    ensures { result ≡ answer_for (plain_takes T width (E.numbers values.now) (E.numbers packed.now)) }
{
    if T < width {
        return Answer::Width;
    }
    let words = LANES * width;
    if values.len() != 1024 {
        return Answer::Block;
    }
    if packed.len() != words {
        return Answer::Packed;
    }
    Answer::Done
}

// What single access answers.
fn single_answer<E: Element<T, LANES>, const T: usize, const LANES: usize>(
    width: usize,
    packed: &[E],
    index: usize,
) -> Answer
    ensures { result ≡ answer_for (plain_single_takes T width (E.numbers packed.now) index) }
{
    if T < width {
        return Answer::Width;
    }
    if packed.len() != LANES * width {
        return Answer::Packed;
    }
    if 1024 <= index {
        return Answer::Index(0);
    }
    Answer::Done
}

// Unpacks place by place.
fn unpack_values<
    A: Arithmetic<E, T, LANES>,
    E: Element<T, LANES>,
    const T: usize,
    const LANES: usize,
>(by: A, width: usize, packed: &[E], values: &mut [E])
    requires width_le_t { width ≤ T }
    requires packed_len { length packed.now ≡ lanes T * width }
    requires values_len { length values.old ≡ 1024 }
    ensures { E.numbers values.new ≡ plain_unpack T width (E.numbers packed.now) }
{
    for (p, value) in values.iter_mut().enumerate() {
        *value = value_at(by, width, packed, p);
    }
}

// The value at one place.
fn value_at<A: Arithmetic<E, T, LANES>, E: Element<T, LANES>, const T: usize, const LANES: usize>(
    by: A,
    width: usize,
    packed: &[E],
    p: usize,
) -> E
    requires width_le_t { width ≤ T }
    requires packed_len { length packed.now ≡ lanes T * width }
    requires p_bound { p < 1024 }
    ensures { E.number result ≡ plain_value T width (E.numbers packed.now) p }
{
    value_in(by, width, packed, lane_of(T, p), row_of(T, p))
}

// The value of a row of a lane, bit by bit.
fn value_in<A: Arithmetic<E, T, LANES>, E: Element<T, LANES>, const T: usize, const LANES: usize>(
    by: A,
    width: usize,
    packed: &[E],
    lane: usize,
    row: usize,
) -> E
    requires width_le_t { width ≤ T }
    requires packed_len { length packed.now ≡ lanes T * width }
    requires lane_bound { (lane < lanes T) × (row < T) }
    ensures { E.number result ≡ value_in T width (E.numbers packed.now) lane row }
{
    let mut value = by.none();
    for b in 0..width {
        let word = packed[LANES * word_of(T, width, row, b) + lane];
        value = by.plus(
            value,
            at_bit(by, bit(by, word, bit_in_word(T, width, row, b)), b),
        );
    }
    value
}

// Packs word by word.
fn pack_words<A: Arithmetic<E, T, LANES>, E: Element<T, LANES>, const T: usize, const LANES: usize>(
    by: A,
    width: usize,
    values: &[E],
    packed: &mut [E],
)
    requires width_le_t { width ≤ T }
    requires packed_len { length packed.old ≡ lanes T * width }
    requires values_len { length values.now ≡ 1024 }
    ensures { E.numbers packed.new ≡ plain_pack T width (E.numbers values.now) }
{
    for (i, word) in packed.iter_mut().enumerate() {
        *word = word_in(by, width, values, i % LANES, i / LANES);
    }
}

// Word k of a lane, bit by bit: the sentence read the other way round.
fn word_in<A: Arithmetic<E, T, LANES>, E: Element<T, LANES>, const T: usize, const LANES: usize>(
    by: A,
    width: usize,
    values: &[E],
    lane: usize,
    k: usize,
) -> E
    requires width_le_t { width ≤ T }
    requires values_len { length values.now ≡ 1024 }
    requires lane_bound { (lane < lanes T) × (k < width) }
    ensures { E.number result ≡ word_in T width (E.numbers values.now) lane k }
{
    let mut word = by.none();
    for j in 0..T {
        let at = k * T + j;
        let value = values[place(at / width, lane)];
        word = by.plus(word, at_bit(by, bit(by, value, at % width), j));
    }
    word
}

// Bit i of a number.
fn bit<A: Arithmetic<E, T, LANES>, E: Element<T, LANES>, const T: usize, const LANES: usize>(
    by: A,
    m: E,
    i: usize,
) -> E
    requires { i < T }
    ensures { E.number result ≡ Plain.bit (E.number m) i }
{
    by.bit(m, i)
}

// A bit at place i of a number.
fn at_bit<A: Arithmetic<E, T, LANES>, E: Element<T, LANES>, const T: usize, const LANES: usize>(
    by: A,
    x: E,
    i: usize,
) -> E
    requires { (E.number x < 2) × (i < T) }
    ensures { E.number result ≡ E.number x * 2 ^ i }
{
    by.at_bit(x, i)
}

// The place of a row in a lane.
fn place(row: usize, lane: usize) -> usize
    requires { (row < 64) × (lane < 128) }
    ensures { result ≡ Places.place row lane }
{
    order(row / 8) * 16 + row % 8 * 128 + lane
}

// Whether a place stands in a row, in any of its lanes.
fn stands_in(t: usize, p: usize, row: usize) -> bool
    requires size { Size t }
    requires row_bound { row < 64 }
    ensures { result ≡ both (leb (Places.place row 0) p) (ltb p (Places.place row 0 + lanes t)) }
{
    let start = place(row, 0);
    (start <= p) & (p < start + 1024 / t)
}

// The row of a place: the rows are looked through.
fn row_of(t: usize, p: usize) -> usize
    requires size { Size t }
    requires p_bound { p < 1024 }
    ensures { result ≡ Places.row t p }
{
    let mut row = 0;
    while !stands_in(t, p, row) {
        row += 1;
    }
    row
}

// The lane of a place: how far it stands from where its row starts.
fn lane_of(t: usize, p: usize) -> usize
    requires size { Size t }
    requires p_bound { p < 1024 }
    ensures { result ≡ Places.lane t p }
{
    p - place(row_of(t, p), 0)
}

// The sentence's two numbers. The word of its lane that bit b of a row stands in:
fn word_of(t: usize, width: usize, row: usize, b: usize) -> usize
    requires size { Size t }
    requires width_le_t { (width ≤ t) × (row < t) × (b < width) }
    ensures { result ≡ word_of t width row b }
{
    (row * width + b) / t
}

// And which bit of that word it is.
fn bit_in_word(t: usize, width: usize, row: usize, b: usize) -> usize
    requires size { Size t }
    requires width_le_t { (width ≤ t) × (row < t) × (b < width) }
    ensures { result ≡ (row * width + b) % t }
{
    (row * width + b) % t
}

// 1 where bit b of a row comes from another word than the bit before it, and for the first bit, before which there is
// none; else 0.
fn new_word(t: usize, width: usize, row: usize, b: usize) -> usize
    requires size { Size t }
    requires width_le_t { (width ≤ t) × (row < t) × (b < width) }
    ensures { result ≡ new_word_lem t width row b }
{
    if b == 0 {
        return 1;
    }
    if word_of(t, width, row, b) == word_of(t, width, row, b - 1) {
        return 0;
    }
    1
}

// How many words the bits of a row come from: bit by bit, a word is counted when the first bit comes from it.
fn words_for(t: usize, width: usize, row: usize) -> usize
    requires size { Size t }
    requires width_le_t { (width ≤ t) × (row < t) }
    ensures { result ≡ words_for t width row width }
{
    let mut words = 0;
    for b in 0..width {
        words += new_word(t, width, row, b);
    }
    words
}
