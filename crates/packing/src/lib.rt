// Packing a block of 1,024 values at a width of 0 to T bits, and reading it back whole. From the crate's src/macros.rs
// (the walks) and src/bitpacking.rs (the calls). The width is given at the call.
#![tactic(auto)]

ghost use Rattle.std.specs.Prelude.{◌≡◌, ◌+◌, ◌*◌, ◌≤◌, ◌<◌, length, get_or};
ghost use Rattle.lists.specs.Tab.{tab, over};
ghost use Rattle.places.specs.Sizes.{lanes};
ghost use Rattle.places.specs.Takes.{answer_for};
ghost use Rattle.packing.specs.Calls.{pack_takes, pack_leaves, unpack_leaves};
ghost use Rattle.packing.specs.Packed.{pack_of, unpack_of};

use places::{Answer, Element, next_start, row_start};
use rows::{load, mask, or_shl, shr, splat, store};

// Packs 1,024 values at `width` bits each.
pub fn pack<E: Element<T, LANES>, const T: usize, const LANES: usize>(
    width: usize,
    values: &[E],
    packed: &mut [E],
) -> Answer
    ensures value { result ≡ answer_for (pack_takes T width (E.numbers values.now) (E.numbers packed.old)) }
    ensures packed_after { E.numbers packed.new ≡ pack_leaves T width (E.numbers values.now) (E.numbers packed.old) }
{
    if T < width {
        return Answer::Width;
    }
    if values.len() != 1024 {
        return Answer::Block;
    }
    if packed.len() != LANES * width {
        return Answer::Packed;
    }
    match width {
        0 => {}
        1..=63 if width < T => pack_split(width, values, packed),
        _ => pack_copy(values, packed),
    }
    Answer::Done
}

// Unpacks 1,024 values of `width` bits each.
pub fn unpack<E: Element<T, LANES>, const T: usize, const LANES: usize>(
    width: usize,
    packed: &[E],
    values: &mut [E],
) -> Answer
    ensures value { result ≡ answer_for (pack_takes T width (E.numbers values.old) (E.numbers packed.now)) }
    ensures values_after { E.numbers values.new ≡ unpack_leaves T width (E.numbers values.old) (E.numbers packed.now) }
{
    if T < width {
        return Answer::Width;
    }
    if values.len() != 1024 {
        return Answer::Block;
    }
    if packed.len() != LANES * width {
        return Answer::Packed;
    }
    match width {
        0 => clear(values),
        1..=63 if width < T => unpack_split(width, packed, values),
        _ => unpack_copy(packed, values),
    }
    Answer::Done
}

// Width 0 has no words and unpacks to zeros.
fn clear<E: Element<T, LANES>, const T: usize, const LANES: usize>(values: &mut [E])
    requires { length values.old ≡ 1024 }
    ensures { E.numbers values.new ≡ tab 1024 (λ _. 0) }
{
    for v in values {
        *v = E::of(0);
    }
}

// The middle widths split words. Row o · 8 + i begins at bit s of the words that stand from place `word` on: both are
// carried along from row to row, since to work them out anew would cost more than the row. Where the row crosses into
// the next words it is joined with what these hold of it.
fn unpack_split<E: Element<T, LANES>, const T: usize, const LANES: usize>(
    width: usize,
    packed: &[E],
    values: &mut [E],
)
    requires width_nonzero { (0 < width) × (width < T) }
    requires packed_len { length packed.now ≡ lanes T * width }
    requires values_len { length values.old ≡ 1024 }
    ensures { E.numbers values.new ≡ unpack_of T width (E.numbers packed.now) }
{
    E::are_elements(packed);
    let mut s = 0;
    let mut word = 0;
    for o in 0..T / 8 {
        for i in 0..8 {
            let mut row = shr(row_at(packed, word), s);
            s += width;
            if T <= s {
                s -= T;
                word += LANES;
                if 0 < s {
                    let both = or_shl(row, row_at(packed, word), width - s);
                    row = both;
                }
            }
            put_at(values, row_start(o, i), mask(row, width));
        }
    }
}

// The LANES values from place a on.
fn row_at<E: Element<T, LANES>, const T: usize, const LANES: usize>(
    block: &[E],
    a: usize,
) -> [E; LANES]
    requires { a + lanes T ≤ length block.now }
    ensures { E.numbers result ≡ tab (lanes T) (λ l. get_or (E.numbers block.now) (a + l) 0) }
{
    let e = a + LANES;
    load(&block[a..e])
}

// Writes a row from place a on.
fn put_at<E: Element<T, LANES>, const T: usize, const LANES: usize>(
    block: &mut [E],
    a: usize,
    row: [E; LANES],
)
    requires { a + lanes T ≤ length block.old }
    ensures { E.numbers block.new ≡ over a (E.numbers row) (E.numbers block.old) }
{
    let e = a + LANES;
    store(&mut block[a..e], row);
}

// Width T copies the words of row r to the places of row r, which begin at `start`.
fn unpack_copy<E: Element<T, LANES>, const T: usize, const LANES: usize>(
    packed: &[E],
    values: &mut [E],
)
    requires packed_len { length packed.now ≡ 1024 }
    requires values_len { length values.old ≡ 1024 }
    ensures { E.numbers values.new ≡ unpack_of T T (E.numbers packed.now) }
{
    E::are_elements(packed);
    let mut start = 0;
    for r in 0..T {
        put_at(values, start, row_at(packed, LANES * r));
        start = next_start(start, r + 1);
    }
}

// And back.
fn pack_copy<E: Element<T, LANES>, const T: usize, const LANES: usize>(
    values: &[E],
    packed: &mut [E],
)
    requires packed_len { length packed.old ≡ 1024 }
    requires values_len { length values.now ≡ 1024 }
    ensures { E.numbers packed.new ≡ pack_of T T (E.numbers values.now) }
{
    E::are_elements(values);
    let mut start = 0;
    for r in 0..T {
        put_at(packed, LANES * r, row_at(values, start));
        start = next_start(start, r + 1);
    }
}

// The middle widths: word by word. The rows that leave room in the words that `held` has join them; the next one fills
// them, needs no mask, since what it has above the width is shifted out, and leaves its rest over. It is loaded again
// for that, which is cheaper than to keep it.
fn pack_split<E: Element<T, LANES>, const T: usize, const LANES: usize>(
    width: usize,
    values: &[E],
    packed: &mut [E],
)
    requires width_nonzero { (0 < width) × (width < T) }
    requires values_len { length values.now ≡ 1024 }
    requires packed_len { length packed.old ≡ lanes T * width }
    ensures { E.numbers packed.new ≡ pack_of T width (E.numbers values.now) }
{
    let most = T - width;
    let mut held = splat(E::of(0));
    let mut s = 0;
    let mut word = 0;
    let mut start = 0;
    let mut r = 0;
    while r < T {
        while s < most {
            let more = or_shl(held, mask(row_at(values, start), width), s);
            held = more;
            s += width;
            r += 1;
            start = next_start(start, r);
        }
        put_at(packed, word, or_shl(held, row_at(values, start), s));
        let rest = shr(mask(row_at(values, start), width), T - s);
        held = rest;
        s -= most;
        word += LANES;
        r += 1;
        start = next_start(start, r);
    }
}
