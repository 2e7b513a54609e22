// One value out of a body of packed words, read where its bits stand: lane and row of the place are worked out, and
// then the one word or the two words that hold the value are read from the bytes. So the words that are counted are the
// words that are read.
//
// This is not single access, which looks lane and row up in its tables: it reads bytes of a file, whose values have 64
// bits. That both give the same value and the same count is a law. The module is private: its functions are public to
// the module above alone.
ghost use Rattle.std.specs.Prelude.{◌≡◌, ◌+◌, ◌*◌, ◌/◌, ◌%◌, ◌^◌, ◌<◌, ◌≤◌, length, slice_index};
ghost use Rattle.lists.specs.Numbers.{digit};
ghost use Rattle.places.specs.Places.{row};
ghost use Rattle.places.specs.Sizes.{t64, lanes};
ghost use Rattle.packing.specs.Packed.{words_number};
ghost use Rattle.deltas.specs.Deltas.{summed, undelta_pack_of};
ghost use Rattle.little.specs.Little.{little, little_or};
ghost use Rattle.bodies.specs.Bodies.{words_from, packed_from};
ghost use Rattle.files.specs.InnerLookups.{LookedUp, ReadIn};

use access::Words;
use little::{pair, word};
use places::order;
use std::num::wrapping_add_u64;

// A value, and how many words were read for it.
#[derive(Clone, Copy)]
pub struct Looked {
    pub value: u64,
    pub words: Words,
}

// The value at a place of a body of packed words.
pub fn look_up(width: usize, body: &[u8], place: usize) -> Looked
    requires width_bound { width ≤ 64 }
    requires body_len { length body.now ≡ 128 * width }
    requires place_bound { place < 1024 }
    ensures { LookedUp width body.now place result }
{
    read(width, body, place % 16, row_of(place))
}

// The value at a place of a body of differences: the base word of its lane, and the numbers of the lane up to its row.
pub fn sum_up(width: usize, body: &[u8], place: usize) -> u64
    requires width_bound { width ≤ 64 }
    requires body_len { length body.now ≡ 128 + 128 * width }
    requires place_bound { place < 1024 }
    ensures { result
        ≡ slice_index (undelta_pack_of t64 width (packed_from body.now 128 width)
        (words_from body.now 0 (lanes t64))) place }
{
    let l = place % 16;
    sum_to(width, &body[128..], l, row_of(place), word_at(body, l))
}

// The numbers of lane l up to row r, added to the base.
fn sum_to(width: usize, body: &[u8], l: usize, r: usize, base: u64) -> u64
    requires width_bound { width ≤ 64 }
    requires body_len { length body.now ≡ 128 * width }
    requires l_bound { l < lanes t64 }
    requires r_bound { r < 64 }
    ensures { result ≡ summed t64 (digit width (words_number t64 width (packed_from body.now 0 width) l)) base r }
{
    let mut sum = base;
    for k in 0..r + 1 {
        let found = read(width, body, l, k);
        sum = wrapping_add_u64(found.value, sum);
    }
    sum
}

// The value at a place of a body of runs: the run value that its run index says.
pub fn run_value(body: &[u8], place: usize) -> u64
    requires { place < 1024 }
    ensures { result ≡ little_or body.now (2048 + little_or body.now (place * 2) 2 * 8) 8 }
{
    let k = pair(body, place * 2) as usize;
    word(body, 2048 + k * 8)
}

// The row of a place in a block of u64 values.
fn row_of(place: usize) -> usize
    requires { place < 1024 }
    ensures { result ≡ row t64 place }
{
    order(place / 16 % 8) * 8 + place / 128
}

// The value of row r in lane l: width 0 has no words, the middle widths split words, and at width 64 a word is a value.
fn read(width: usize, body: &[u8], l: usize, r: usize) -> Looked
    requires width_bound { width ≤ 64 }
    requires body_len { length body.now ≡ 128 * width }
    requires l_bound { l < lanes t64 }
    requires r_bound { r < 64 }
    ensures { ReadIn width body.now l r result }
{
    match width {
        0 => Looked { value: 0, words: 0 },
        1..=63 => read_split(width as u8, body, l, r),
        _ => {
            let v = word_at(body, 16 * r + l);
            Looked { value: v, words: 1 }
        }
    }
}

// From the word in which the row begins, and where it crosses into the next word of its lane, from that too.
fn read_split(width: u8, body: &[u8], l: usize, r: usize) -> Looked
    requires width_nonzero { (0 < width) × (width < 64) }
    requires body_len { length body.now ≡ 128 * width }
    requires l_bound { l < lanes t64 }
    requires r_bound { r < 64 }
    ensures { ReadIn width body.now l r result }
{
    let bit = r * (width as usize);
    let k = bit / 64;
    let s = (bit % 64) as u8;
    let mut v = down(word_at(body, 16 * k + l), s);
    let mut n: Words = 1;
    if 64 < s + width {
        v = v | up(word_at(body, 16 * (k + 1) + l), 64 - s);
        n = 2;
    }
    Looked {
        value: cut(v, width),
        words: n,
    }
}

// Word i of the body.
fn word_at(body: &[u8], i: usize) -> u64
    requires { i * 8 + 8 ≤ length body.now }
    ensures { result ≡ little body.now (i * 8) 8 }
{
    let a = i * 8;
    let e = a + 8;
    word(&body[a..e], 0)
}

// x divided by 2^s.
fn down(x: u64, s: u8) -> u64
    requires { s < t64 }
    ensures { result ≡ x / 2 ^ s }
{
    x >> s
}

// x times 2^s modulo 2^64.
fn up(x: u64, s: u8) -> u64
    requires { s < t64 }
    ensures { result ≡ x * 2 ^ s % 2 ^ t64 }
{
    x << s
}

// x modulo 2^w.
fn cut(x: u64, w: u8) -> u64
    requires { w < t64 }
    ensures { result ≡ x % 2 ^ w }
{
    x % (1u64 << w)
}
