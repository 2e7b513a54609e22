// The differences from row to row of a block, with row 0 as their base: which bits they have, and how they are packed.
// They are nowhere laid down: each is taken as it is looked at or packed.
ghost use Rattle.std.specs.Prelude.{◌≡◌, ◌+◌, ◌*◌, ◌<◌, ◌≤◌, length, slice_index};
ghost use Rattle.lists.specs.Numbers.{minus};
ghost use Rattle.lists.specs.Tab.{tab, over};
ghost use Rattle.places.specs.Sizes.{t64, lanes};
ghost use Rattle.packing.specs.Packed.{pack_of};
ghost use Rattle.candidates.specs.Candidates.{differences as differences_of};
ghost use Rattle.candidates.specs.Widths.{bits, width_of};

use places::{next_start, row_start};
use rows::{load, mask, or_shl, shr, splat, store, wrapping_sub};
use std::num::wrapping_sub_u64;

const T: usize = 64;

const LANES: usize = 16;

// A number that has each bit which a difference from row to row has, so it is as wide as the highest of them. Within
// eight rows the next row stands 128 places on, so these differences are taken in the order of the places; behind the
// last of eight the next row stands where the order list says. The base is row 0, so there is no other.
pub fn step_bits(values: &[u64]) -> u64
    requires { length values.now ≡ 1024 }
    ensures { bits result ≡ width_of (differences_of values.now) }
{
    let mut any: u64 = 0;
    for p in 0..896 {
        any = any | wrapping_sub_u64(values[p + 128], values[p]);
    }
    for o in 0..7 {
        any = any | crossing_bits(values, row_start(o, 7), row_start(o + 1, 0));
    }
    any
}

// The same for the differences of two rows, of which one starts at `from` and the other, which comes behind it, at
// `to`.
fn crossing_bits(values: &[u64], from: usize, to: usize) -> u64
    requires { (from + 16 ≤ length values.now) × (to + 16 ≤ length values.now) }
    ensures { bits result
        ≡ width_of
        (tab 16 (λ l. minus t64 (slice_index values.now (to + l)) (slice_index values.now (from + l)))) }
{
    let mut any: u64 = 0;
    for l in 0..LANES {
        any = any | wrapping_sub_u64(values[to + l], values[from + l]);
    }
    any
}

// Packs the differences, which are taken row by row as they are packed.
pub fn pack_steps(width: usize, values: &[u64], packed: &mut [u64])
    requires width_bound { width ≤ 64 }
    requires values_len { length values.now ≡ 1024 }
    requires packed_len { length packed.old ≡ 16 * width }
    ensures { packed.new ≡ pack_of t64 width (differences_of values.now) }
{
    match width {
        0 => {}
        1..=63 => steps_split(width, values, packed),
        _ => steps_copy(values, packed),
    }
}

// The widths from 1 to 63, where a word holds parts of several rows: the walk of pack, with each row less the row
// before. Row 0 is its own base, so there it stands for the row before.
fn steps_split(width: usize, values: &[u64], packed: &mut [u64])
    requires width_nonzero { (0 < width) × (width < t64) }
    requires values_len { length values.now ≡ 1024 }
    requires packed_len { length packed.old ≡ lanes t64 * width }
    ensures { packed.new ≡ pack_of t64 width (differences_of values.now) }
{
    let most = T - width;
    let mut held = splat(0);
    let mut s = 0;
    let mut word = 0;
    let mut before = 0;
    let mut start = 0;
    let mut r = 0;
    while r < T {
        while s < most {
            let more = or_shl(
                held,
                mask(
                    wrapping_sub(row_at(values, start), row_at(values, before)),
                    width,
                ),
                s,
            );
            held = more;
            s += width;
            r += 1;
            before = start;
            start = next_start(start, r);
        }
        put_at(
            packed,
            word,
            or_shl(
                held,
                wrapping_sub(row_at(values, start), row_at(values, before)),
                s,
            ),
        );
        let rest = shr(
            mask(
                wrapping_sub(row_at(values, start), row_at(values, before)),
                width,
            ),
            T - s,
        );
        held = rest;
        s -= most;
        word += LANES;
        r += 1;
        before = start;
        start = next_start(start, r);
    }
}

// Width 64: each row of differences is a row of words.
fn steps_copy(values: &[u64], packed: &mut [u64])
    requires values_len { length values.now ≡ 1024 }
    requires packed_len { length packed.old ≡ 1024 }
    ensures { packed.new ≡ pack_of t64 t64 (differences_of values.now) }
{
    let mut before = 0;
    let mut start = 0;
    for r in 0..T {
        put_at(
            packed,
            LANES * r,
            wrapping_sub(row_at(values, start), row_at(values, before)),
        );
        before = start;
        start = next_start(start, r + 1);
    }
}

// The LANES values from place a on.
fn row_at(block: &[u64], a: usize) -> [u64; LANES]
    requires { a + lanes t64 ≤ length block.now }
    ensures { result ≡ tab (lanes t64) (λ l. slice_index block.now (a + l)) }
{
    let e = a + LANES;
    load(&block[a..e])
}

// Writes a row from place a on.
fn put_at(block: &mut [u64], a: usize, row: [u64; LANES])
    requires { a + lanes t64 ≤ length block.old }
    ensures { block.new ≡ over a row block.old }
{
    let e = a + LANES;
    store(&mut block[a..e], row);
}
