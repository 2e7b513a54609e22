// Differences along the lanes of a block, and frames: the arithmetic that makes blocks narrow. From the crate's
// src/delta.rs and src/ffor.rs. Sums and differences wrap modulo 2^T on purpose.
#![tactic(auto)]

ghost use Rattle.std.specs.Prelude.{◌≡◌, ◌+◌, ◌*◌, ◌≤◌, ◌<◌, length, get_or};
ghost use Rattle.lists.specs.Tab.{tab, over};
ghost use Rattle.places.specs.Places.{lane};
ghost use Rattle.places.specs.Sizes.{lanes};
ghost use Rattle.places.specs.Takes.{answer_for};
ghost use Rattle.packing.specs.Calls.{pack_takes};
ghost use Rattle.deltas.specs.Calls.{delta_takes, delta_leaves, undelta_leaves, undelta_pack_takes, undelta_pack_leaves, for_pack_leaves, unfor_pack_leaves};
ghost use Rattle.deltas.specs.Deltas.{delta_of, undelta_of, undelta_pack_of, for_pack_of, unfor_pack_of};

use places::{Answer, Element, next_start, row_start};
use rows::{load, mask, or_shl, shr, splat, store, wrapping_add, wrapping_sub};

// Stores at each place its value minus the value of the row before in its lane, at row 0 minus the lane's base.
pub fn delta<E: Element<T, LANES>, const T: usize, const LANES: usize>(
    input: &[E],
    base: &[E],
    output: &mut [E],
) -> Answer
    ensures value { result ≡ answer_for (delta_takes T (E.numbers input.now) (E.numbers base.now) (E.numbers output.old)) }
    ensures output_after { E.numbers output.new
        ≡ delta_leaves T (E.numbers input.now) (E.numbers base.now) (E.numbers output.old) }
{
    if input.len() != 1024 {
        return Answer::Block;
    }
    if output.len() != 1024 {
        return Answer::Block;
    }
    if base.len() != LANES {
        return Answer::Base;
    }
    differences(input, base, output);
    Answer::Done
}

// Sums in the same order: row 0 gives its number plus the lane's base, each later row its number plus the result of the
// row before.
pub fn undelta<E: Element<T, LANES>, const T: usize, const LANES: usize>(
    input: &[E],
    base: &[E],
    output: &mut [E],
) -> Answer
    ensures value { result ≡ answer_for (delta_takes T (E.numbers input.now) (E.numbers base.now) (E.numbers output.old)) }
    ensures output_after { E.numbers output.new
        ≡ undelta_leaves T (E.numbers input.now) (E.numbers base.now) (E.numbers output.old) }
{
    if input.len() != 1024 {
        return Answer::Block;
    }
    if output.len() != 1024 {
        return Answer::Block;
    }
    if base.len() != LANES {
        return Answer::Base;
    }
    sums(input, base, output);
    Answer::Done
}

// Starts each lane at its base and adds, row by row, what the packed block holds there.
pub fn undelta_pack<E: Element<T, LANES>, const T: usize, const LANES: usize>(
    width: usize,
    packed: &[E],
    base: &[E],
    values: &mut [E],
) -> Answer
    ensures value { result
        ≡ answer_for (undelta_pack_takes T width (E.numbers values.old) (E.numbers packed.now) (E.numbers base.now)) }
    ensures values_after { E.numbers values.new
        ≡ undelta_pack_leaves T width (E.numbers values.old) (E.numbers packed.now) (E.numbers base.now) }
{
    if T < width {
        return Answer::Width;
    }
    if values.len() != 1024 {
        return Answer::Block;
    }
    if packed.len() != LANES * width {
        return Answer::Packed;
    }
    if base.len() != LANES {
        return Answer::Base;
    }
    E::are_elements(base);
    match width {
        0 => repeat(load(base), values),
        1..=63 if width < T => unpack_sums(width, packed, base, values),
        _ => copy_sums(packed, base, values),
    }
    Answer::Done
}

// Packs each value minus the reference.
pub fn for_pack<E: Element<T, LANES>, const T: usize, const LANES: usize>(
    width: usize,
    values: &[E],
    reference: E,
    packed: &mut [E],
) -> Answer
    ensures value { result ≡ answer_for (pack_takes T width (E.numbers values.now) (E.numbers packed.old)) }
    ensures packed_after { E.numbers packed.new
        ≡ for_pack_leaves T width (E.numbers values.now) (E.numbers packed.old) (E.number reference) }
{
    if T < width {
        return Answer::Width;
    }
    if values.len() != 1024 {
        return Answer::Block;
    }
    if packed.len() != LANES * width {
        return Answer::Packed;
    }
    match width {
        0 => {}
        1..=63 if width < T => frame_split(width, values, reference, packed),
        _ => frame_copy(values, reference, packed),
    }
    Answer::Done
}

// Unpacks, and adds the reference.
pub fn unfor_pack<E: Element<T, LANES>, const T: usize, const LANES: usize>(
    width: usize,
    packed: &[E],
    reference: E,
    values: &mut [E],
) -> Answer
    ensures value { result ≡ answer_for (pack_takes T width (E.numbers values.old) (E.numbers packed.now)) }
    ensures values_after { E.numbers values.new
        ≡ unfor_pack_leaves T width (E.numbers values.old) (E.numbers packed.now) (E.number reference) }
{
    if T < width {
        return Answer::Width;
    }
    if values.len() != 1024 {
        return Answer::Block;
    }
    if packed.len() != LANES * width {
        return Answer::Packed;
    }
    E::are_elements(&[reference]);
    match width {
        0 => repeat(splat(reference), values),
        1..=63 if width < T => unpack_raised(width, packed, reference, values),
        _ => copy_raised(packed, reference, values),
    }
    Answer::Done
}

// Row by row: each minus the one before, row 0 minus the base. A row is loaded again for the next one: that is cheaper
// than to keep it.
fn differences<E: Element<T, LANES>, const T: usize, const LANES: usize>(
    input: &[E],
    base: &[E],
    output: &mut [E],
)
    requires input_len { length input.now ≡ 1024 }
    requires base_len { length base.now ≡ lanes T }
    requires output_len { length output.old ≡ 1024 }
    ensures { E.numbers output.new ≡ delta_of T (E.numbers input.now) (E.numbers base.now) }
{
    let mut prev = load(base);
    for o in 0..T / 8 {
        for i in 0..8 {
            let start = row_start(o, i);
            put_at(output, start, wrapping_sub(row_at(input, start), prev));
            let row = row_at(input, start);
            prev = row;
        }
    }
}

// Row by row: each plus the sums so far, which are the base before row 0.
fn sums<E: Element<T, LANES>, const T: usize, const LANES: usize>(
    input: &[E],
    base: &[E],
    output: &mut [E],
)
    requires input_len { length input.now ≡ 1024 }
    requires base_len { length base.now ≡ lanes T }
    requires output_len { length output.old ≡ 1024 }
    ensures { E.numbers output.new ≡ undelta_of T (E.numbers input.now) (E.numbers base.now) }
{
    let mut prev = load(base);
    for o in 0..T / 8 {
        for i in 0..8 {
            let start = row_start(o, i);
            let next = wrapping_add(row_at(input, start), prev);
            put_at(output, start, next);
            prev = next;
        }
    }
}

// Width 0 has no words. Every number is zero, so each row of values is what is added to it: the reference, or the base.
fn repeat<E: Element<T, LANES>, const T: usize, const LANES: usize>(
    row: [E; LANES],
    values: &mut [E],
)
    requires { length values.old ≡ 1024 }
    ensures { E.numbers values.new ≡ tab 1024 (λ p. get_or (E.numbers row) (lane T p) 0) }
{
    for r in 0..T {
        put_at(values, LANES * r, row);
    }
}

// The walk of unpack at the middle widths, with the reference added to each row before it is stored.
fn unpack_raised<E: Element<T, LANES>, const T: usize, const LANES: usize>(
    width: usize,
    packed: &[E],
    reference: E,
    values: &mut [E],
)
    requires width_nonzero { (0 < width) × (width < T) }
    requires packed_len { length packed.now ≡ lanes T * width }
    requires values_len { length values.old ≡ 1024 }
    ensures { E.numbers values.new ≡ unfor_pack_of T width (E.numbers packed.now) (E.number reference) }
{
    E::are_elements(packed);
    let lift = splat(reference);
    let mut s = 0;
    let mut word = 0;
    for o in 0..T / 8 {
        for i in 0..8 {
            let mut row = shr(row_at(packed, word), s);
            s += width;
            if T <= s {
                s -= T;
                word += LANES;
                if 0 < s {
                    let both = or_shl(row, row_at(packed, word), width - s);
                    row = both;
                }
            }
            put_at(
                values,
                row_start(o, i),
                wrapping_add(mask(row, width), lift),
            );
        }
    }
}

// The same with each row added to the one before it.
fn unpack_sums<E: Element<T, LANES>, const T: usize, const LANES: usize>(
    width: usize,
    packed: &[E],
    base: &[E],
    values: &mut [E],
)
    requires width_nonzero { (0 < width) × (width < T) }
    requires packed_len { length packed.now ≡ lanes T * width }
    requires base_len { length base.now ≡ lanes T }
    requires values_len { length values.old ≡ 1024 }
    ensures { E.numbers values.new ≡ undelta_pack_of T width (E.numbers packed.now) (E.numbers base.now) }
{
    E::are_elements(packed);
    let mut prev = load(base);
    let mut s = 0;
    let mut word = 0;
    for o in 0..T / 8 {
        for i in 0..8 {
            let mut row = shr(row_at(packed, word), s);
            s += width;
            if T <= s {
                s -= T;
                word += LANES;
                if 0 < s {
                    let both = or_shl(row, row_at(packed, word), width - s);
                    row = both;
                }
            }
            let next = wrapping_add(mask(row, width), prev);
            put_at(values, row_start(o, i), next);
            prev = next;
        }
    }
}

// The walk of pack at the middle widths, over each value minus the reference.
fn frame_split<E: Element<T, LANES>, const T: usize, const LANES: usize>(
    width: usize,
    values: &[E],
    reference: E,
    packed: &mut [E],
)
    requires width_nonzero { (0 < width) × (width < T) }
    requires values_len { length values.now ≡ 1024 }
    requires packed_len { length packed.old ≡ lanes T * width }
    ensures { E.numbers packed.new ≡ for_pack_of T width (E.numbers values.now) (E.number reference) }
{
    let low = splat(reference);
    let most = T - width;
    let mut held = splat(E::of(0));
    let mut s = 0;
    let mut word = 0;
    let mut start = 0;
    let mut r = 0;
    while r < T {
        while s < most {
            let more = or_shl(
                held,
                mask(wrapping_sub(row_at(values, start), low), width),
                s,
            );
            held = more;
            s += width;
            r += 1;
            start = next_start(start, r);
        }
        put_at(
            packed,
            word,
            or_shl(held, wrapping_sub(row_at(values, start), low), s),
        );
        let rest = shr(mask(wrapping_sub(row_at(values, start), low), width), T - s);
        held = rest;
        s -= most;
        word += LANES;
        r += 1;
        start = next_start(start, r);
    }
}

// Width T copies each value minus the reference.
fn frame_copy<E: Element<T, LANES>, const T: usize, const LANES: usize>(
    values: &[E],
    reference: E,
    packed: &mut [E],
)
    requires values_len { length values.now ≡ 1024 }
    requires packed_len { length packed.old ≡ 1024 }
    ensures { E.numbers packed.new ≡ for_pack_of T T (E.numbers values.now) (E.number reference) }
{
    let low = splat(reference);
    let mut start = 0;
    for r in 0..T {
        put_at(packed, LANES * r, wrapping_sub(row_at(values, start), low));
        start = next_start(start, r + 1);
    }
}

// And back: width T copies each word plus the reference.
fn copy_raised<E: Element<T, LANES>, const T: usize, const LANES: usize>(
    packed: &[E],
    reference: E,
    values: &mut [E],
)
    requires packed_len { length packed.now ≡ 1024 }
    requires values_len { length values.old ≡ 1024 }
    ensures { E.numbers values.new ≡ unfor_pack_of T T (E.numbers packed.now) (E.number reference) }
{
    E::are_elements(packed);
    let lift = splat(reference);
    let mut start = 0;
    for r in 0..T {
        put_at(values, start, wrapping_add(row_at(packed, LANES * r), lift));
        start = next_start(start, r + 1);
    }
}

// The same with each row of words added to the row of values before it.
fn copy_sums<E: Element<T, LANES>, const T: usize, const LANES: usize>(
    packed: &[E],
    base: &[E],
    values: &mut [E],
)
    requires packed_len { length packed.now ≡ 1024 }
    requires base_len { length base.now ≡ lanes T }
    requires values_len { length values.old ≡ 1024 }
    ensures { E.numbers values.new ≡ undelta_pack_of T T (E.numbers packed.now) (E.numbers base.now) }
{
    E::are_elements(packed);
    let mut prev = load(base);
    let mut start = 0;
    for r in 0..T {
        let next = wrapping_add(row_at(packed, LANES * r), prev);
        put_at(values, start, next);
        prev = next;
        start = next_start(start, r + 1);
    }
}

// The LANES values from place a on.
fn row_at<E: Element<T, LANES>, const T: usize, const LANES: usize>(
    block: &[E],
    a: usize,
) -> [E; LANES]
    requires { a + lanes T ≤ length block.now }
    ensures { E.numbers result ≡ tab (lanes T) (λ l. get_or (E.numbers block.now) (a + l) 0) }
{
    let e = a + LANES;
    load(&block[a..e])
}

// Writes a row from place a on.
fn put_at<E: Element<T, LANES>, const T: usize, const LANES: usize>(
    block: &mut [E],
    a: usize,
    row: [E; LANES],
)
    requires { a + lanes T ≤ length block.old }
    ensures { E.numbers block.new ≡ over a (E.numbers row) (E.numbers block.old) }
{
    let e = a + LANES;
    store(&mut block[a..e], row);
}
