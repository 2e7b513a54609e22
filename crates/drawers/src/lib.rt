// A drawer of blocks in one go (R66): so many blocks of one width, one after another, are unpacked or packed as frames
// with one reference by one call. Each block comes out as the call on that block alone would leave it.
#![tactic(auto)]

ghost use Rattle.std.specs.Prelude.{◌≡◌, ◌+◌, ◌*◌, ◌≤◌, ◌<◌, length};
ghost use Rattle.lists.specs.Parts.{cut};
ghost use Rattle.lists.specs.Tab.{over};
ghost use Rattle.places.specs.Sizes.{lanes};
ghost use Rattle.packing.specs.Packed.{unpack_of};
ghost use Rattle.deltas.specs.Deltas.{for_pack_of};
ghost use Rattle.drawers.specs.Drawers.{drawer_answer, unpack_blocks_of, for_pack_blocks_of, unpack_blocks_leaves, for_pack_blocks_leaves};

use deltas::for_pack;
use packing::unpack;
use places::{Answer, Element};

// Unpacks so many blocks of one width that stand one after another.
pub fn unpack_blocks<E: Element<T, LANES>, const T: usize, const LANES: usize>(
    width: usize,
    blocks: usize,
    packed: &[E],
    values: &mut [E],
) -> Answer
    ensures value { result ≡ drawer_answer T width blocks (E.numbers values.old) (E.numbers packed.now) }
    ensures values_after { E.numbers values.new
        ≡ unpack_blocks_leaves T width blocks (E.numbers values.old) (E.numbers packed.now) }
{
    let answer = drawer_answer(width, blocks, values, packed);
    if answer.number() == 0 {
        unpack_all(width, blocks, packed, values);
    }
    answer
}

// Packs so many blocks as frames of one width and one reference.
pub fn for_pack_blocks<E: Element<T, LANES>, const T: usize, const LANES: usize>(
    width: usize,
    blocks: usize,
    values: &[E],
    reference: E,
    packed: &mut [E],
) -> Answer
    ensures value { result ≡ drawer_answer T width blocks (E.numbers values.now) (E.numbers packed.old) }
    ensures packed_after { E.numbers packed.new
        ≡ for_pack_blocks_leaves T width blocks (E.numbers values.now) (E.numbers packed.old) (E.number reference) }
{
    let answer = drawer_answer(width, blocks, values, packed);
    if answer.number() == 0 {
        for_pack_all(width, blocks, values, reference, packed);
    }
    answer
}

// What a drawer is answered. Nothing is written before all of it is looked at.
fn drawer_answer<E: Element<T, LANES>, const T: usize, const LANES: usize>(
    width: usize,
    blocks: usize,
    values: &[E],
    packed: &[E],
) -> Answer
    ensures { result ≡ drawer_answer T width blocks (E.numbers values.now) (E.numbers packed.now) }
{
    if T < width {
        return Answer::Width;
    }
    if 256 < blocks {
        return Answer::Block;
    }
    if values.len() != blocks * 1024 {
        return Answer::Block;
    }
    if packed.len() != blocks * (LANES * width) {
        return Answer::Packed;
    }
    Answer::Done
}

// Unpacks every block.
fn unpack_all<E: Element<T, LANES>, const T: usize, const LANES: usize>(
    width: usize,
    blocks: usize,
    packed: &[E],
    values: &mut [E],
)
    requires width_le_t { (width ≤ T) × (blocks ≤ 256) }
    requires packed_len { length packed.now ≡ blocks * (lanes T * width) }
    requires values_len { length values.old ≡ blocks * 1024 }
    ensures { E.numbers values.new ≡ unpack_blocks_of T width blocks (E.numbers packed.now) }
{
    for b in 0..blocks {
        unpack_at(width, packed, b, values);
    }
}

// Unpacks block b.
fn unpack_at<E: Element<T, LANES>, const T: usize, const LANES: usize>(
    width: usize,
    packed: &[E],
    b: usize,
    values: &mut [E],
)
    requires width_le_t { (width ≤ T) × (b < 256) }
    requires width_in_bounds { b * (lanes T * width) + lanes T * width ≤ length packed.now }
    requires b_in_bounds { b * 1024 + 1024 ≤ length values.old }
    ensures { E.numbers values.new
        ≡ over (b * 1024)
        (unpack_of T width (cut (lanes T * width) (E.numbers packed.now) b))
        (E.numbers values.old) }
{
    let from = b * (LANES * width);
    let from_end = from + LANES * width;
    let to = b * 1024;
    let to_end = to + 1024;
    unpack(width, &packed[from..from_end], &mut values[to..to_end]);
}

// Packs every block as a frame.
fn for_pack_all<E: Element<T, LANES>, const T: usize, const LANES: usize>(
    width: usize,
    blocks: usize,
    values: &[E],
    reference: E,
    packed: &mut [E],
)
    requires width_le_t { (width ≤ T) × (blocks ≤ 256) }
    requires packed_len { length packed.old ≡ blocks * (lanes T * width) }
    requires values_len { length values.now ≡ blocks * 1024 }
    ensures { E.numbers packed.new ≡ for_pack_blocks_of T width blocks (E.numbers values.now) (E.number reference) }
{
    for b in 0..blocks {
        for_pack_at(width, values, reference, b, packed);
    }
}

// Packs block b as a frame.
fn for_pack_at<E: Element<T, LANES>, const T: usize, const LANES: usize>(
    width: usize,
    values: &[E],
    reference: E,
    b: usize,
    packed: &mut [E],
)
    requires width_le_t { (width ≤ T) × (b < 256) }
    requires width_in_bounds { b * (lanes T * width) + lanes T * width ≤ length packed.old }
    requires b_in_bounds { b * 1024 + 1024 ≤ length values.now }
    ensures { E.numbers packed.new
        ≡ over (b * (lanes T * width))
        (for_pack_of T width (cut 1024 (E.numbers values.now) b) (E.number reference))
        (E.numbers packed.old) }
{
    let from = b * 1024;
    let from_end = from + 1024;
    let to = b * (LANES * width);
    let to_end = to + LANES * width;
    for_pack(
        width,
        &values[from..from_end],
        reference,
        &mut packed[to..to_end],
    );
}
