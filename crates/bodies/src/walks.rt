// The blocks of packed words, read from the bytes where they stand: no array of words is made on the way. The walks are
// those of deltas at 64 bits, with a row of words taken from the bytes in the place of one from an array. The module is
// private: its functions are public to the module above alone.
//
// Where a walk stands is carried along in bytes, which costs less than to work it out from a number of words.
ghost use Rattle.std.specs.Prelude.{◌≡◌, [], ◌+◌, ◌*◌, ◌≤◌, ◌<◌, length};
ghost use Rattle.lists.specs.Tab.{over};
ghost use Rattle.places.specs.Sizes.{t64, lanes};
ghost use Rattle.deltas.specs.Deltas.{unfor_pack_of, undelta_pack_of};
ghost use Rattle.bodies.specs.Bodies.{words_from, packed_from};

use deltas::{undelta_pack, unfor_pack};
use little::read_words;
use places::{next_start, row_start};
use rows::{load, mask, or_shl, shr, splat, store, wrapping_add};

const T: usize = 64;

const LANES: usize = 16;

// Unpacks the words of a body, and adds the reference.
pub fn raised_out(width: usize, body: &[u8], reference: u64, output: &mut [u64])
    requires width_bound { width ≤ 64 }
    requires body_len { length body.now ≡ 128 * width }
    requires output_len { length output.old ≡ 1024 }
    ensures { output.new ≡ unfor_pack_of t64 width (packed_from body.now 0 width) reference }
{
    match width {
        0 => raised_none(reference, output),
        1..=63 => raised_split(width, body, reference, output),
        _ => raised_copy(body, reference, output),
    }
}

// Starts each lane at its base and adds, row by row, what the words of a body hold there.
pub fn summed_out(width: usize, body: &[u8], base: &[u64], output: &mut [u64])
    requires width_bound { width ≤ 64 }
    requires body_len { length body.now ≡ 128 * width }
    requires base_len { length base.now ≡ lanes t64 }
    requires output_len { length output.old ≡ 1024 }
    ensures { output.new ≡ undelta_pack_of t64 width (packed_from body.now 0 width) base.now }
{
    match width {
        0 => summed_none(base, output),
        1..=63 => summed_split(width, body, base, output),
        _ => summed_copy(body, base, output),
    }
}

// The LANES words from byte a on.
pub fn row_of(body: &[u8], a: usize) -> [u64; LANES]
    requires { a + 128 ≤ length body.now }
    ensures { result ≡ words_from body.now a (lanes t64) }
{
    let e = a + 128;
    let mut row = [0u64; LANES];
    read_words(&body[a..e], &mut row);
    row
}

// Writes a row from place a on.
fn put_at(block: &mut [u64], a: usize, row: [u64; LANES])
    requires { a + lanes t64 ≤ length block.old }
    ensures { block.new ≡ over a row block.old }
{
    let e = a + LANES;
    store(&mut block[a..e], row);
}

// Width 0 has no words.
fn raised_none(reference: u64, output: &mut [u64])
    requires { length output.old ≡ 1024 }
    ensures { output.new ≡ unfor_pack_of t64 0 [] reference }
{
    let none = [0u64; 0];
    unfor_pack(0, &none, reference, output);
}

fn summed_none(base: &[u64], output: &mut [u64])
    requires base_len { length base.now ≡ lanes t64 }
    requires output_len { length output.old ≡ 1024 }
    ensures { output.new ≡ undelta_pack_of t64 0 [] base.now }
{
    let none = [0u64; 0];
    undelta_pack(0, &none, base, output);
}

// The middle widths split words. A row begins at bit s of the words that stand from byte `at` on. Where it crosses into
// the next words it is joined with what these hold of it.
fn raised_split(width: usize, body: &[u8], reference: u64, values: &mut [u64])
    requires width_nonzero { (0 < width) × (width < t64) }
    requires body_len { length body.now ≡ 128 * width }
    requires values_len { length values.old ≡ 1024 }
    ensures { values.new ≡ unfor_pack_of t64 width (packed_from body.now 0 width) reference }
{
    let lift = splat(reference);
    let mut s = 0;
    let mut at = 0;
    for o in 0..T / 8 {
        for i in 0..8 {
            let mut row = shr(row_of(body, at), s);
            s += width;
            if T <= s {
                s -= T;
                at += 128;
                if 0 < s {
                    let both = or_shl(row, row_of(body, at), width - s);
                    row = both;
                }
            }
            put_at(
                values,
                row_start(o, i),
                wrapping_add(mask(row, width), lift),
            );
        }
    }
}

// The same with each row added to the one before it.
fn summed_split(width: usize, body: &[u8], base: &[u64], values: &mut [u64])
    requires width_nonzero { (0 < width) × (width < t64) }
    requires body_len { length body.now ≡ 128 * width }
    requires base_len { length base.now ≡ lanes t64 }
    requires values_len { length values.old ≡ 1024 }
    ensures { values.new ≡ undelta_pack_of t64 width (packed_from body.now 0 width) base.now }
{
    let mut prev = load(base);
    let mut s = 0;
    let mut at = 0;
    for o in 0..T / 8 {
        for i in 0..8 {
            let mut row = shr(row_of(body, at), s);
            s += width;
            if T <= s {
                s -= T;
                at += 128;
                if 0 < s {
                    let both = or_shl(row, row_of(body, at), width - s);
                    row = both;
                }
            }
            let next = wrapping_add(mask(row, width), prev);
            put_at(values, row_start(o, i), next);
            prev = next;
        }
    }
}

// Width T copies each word plus the reference.
fn raised_copy(body: &[u8], reference: u64, values: &mut [u64])
    requires body_len { length body.now ≡ 8192 }
    requires values_len { length values.old ≡ 1024 }
    ensures { values.new ≡ unfor_pack_of t64 t64 (packed_from body.now 0 t64) reference }
{
    let lift = splat(reference);
    let mut start = 0;
    for r in 0..T {
        put_at(values, start, wrapping_add(row_of(body, 128 * r), lift));
        start = next_start(start, r + 1);
    }
}

// The same with each row of words added to the row of values before it.
fn summed_copy(body: &[u8], base: &[u64], values: &mut [u64])
    requires body_len { length body.now ≡ 8192 }
    requires base_len { length base.now ≡ lanes t64 }
    requires values_len { length values.old ≡ 1024 }
    ensures { values.new ≡ undelta_pack_of t64 t64 (packed_from body.now 0 t64) base.now }
{
    let mut prev = load(base);
    let mut start = 0;
    for r in 0..T {
        let next = wrapping_add(row_of(body, 128 * r), prev);
        put_at(values, start, next);
        prev = next;
        start = next_start(start, r + 1);
    }
}
