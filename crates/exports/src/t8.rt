// Written by tools/sizes from the text of size 64: edit that one, and run tools/sizes.
// The calls on blocks of u8 values, for programs in C and in Rust. Where a call gives more than an answer, each thing
// that it gives has a lent number of its own, and the place is the last of them.
ghost use Rattle.std.specs.Prelude.{◌≡◌};
ghost use Rattle.places.specs.Sizes.{t8};
ghost use Rattle.places.specs.Takes.{answer_for};
ghost use Rattle.places.specs.Transposes.{transpose_takes, transpose_leaves, untranspose_leaves};
ghost use Rattle.packing.specs.Calls.{pack_takes, pack_leaves, unpack_leaves};
ghost use Rattle.access.specs.Budgets.{within_gives, within_leaves};
ghost use Rattle.access.specs.Calls.{single_of, list_gives, list_leaves};
ghost use Rattle.access.specs.Counts.{words_at};
ghost use Rattle.access.specs.declared.Single.TheVariants.{Value, Refused};
ghost use Rattle.access.specs.Singles.{answer_of, value_of, words_of};
ghost use Rattle.deltas.specs.Calls.{delta_takes, delta_leaves, undelta_leaves, undelta_pack_takes, undelta_pack_leaves, for_pack_leaves, unfor_pack_leaves};
ghost use Rattle.drawers.specs.Drawers.{drawer_answer, unpack_blocks_leaves, for_pack_blocks_leaves};
ghost use Rattle.runs.specs.Calls.{decode_takes, decode_leaves};
ghost use Rattle.bits.specs.Bits.{transpose_bits_of};
ghost use Rattle.exports.specs.Handed.{Handed, SingleHanded, ListHanded, FrontHanded};

use crate::{hand, hand_front, hand_list, hand_single};
use access::{Words, unpack_indices, unpack_single, unpack_within, words_at};
use bits::{BitBlock, transpose_bits};
use deltas::{delta, for_pack, undelta, undelta_pack, unfor_pack};
use drawers::{for_pack_blocks, unpack_blocks};
use packing::{pack, unpack};
use places::{transpose, untranspose};
use runs::decode;

// Packs 1,024 values at `width` bits each; what a value has above them is cut off.
#[unsafe(no_mangle)]
pub extern "C" fn fascjoldi_pack_u8(
    width: usize,
    values: &[u8],
    packed: &mut [u8],
    place: &mut usize,
) -> usize
    ensures handed { Handed (answer_for (pack_takes t8 width values.now packed.old)) result place.new }
    ensures packed_after { packed.new ≡ pack_leaves t8 width values.now packed.old }
{
    hand(pack(width, values, packed), place)
}

// Unpacks 1,024 values of `width` bits each.
#[unsafe(no_mangle)]
pub extern "C" fn fascjoldi_unpack_u8(
    width: usize,
    packed: &[u8],
    values: &mut [u8],
    place: &mut usize,
) -> usize
    ensures handed { Handed (answer_for (pack_takes t8 width values.old packed.now)) result place.new }
    ensures values_after { values.new ≡ unpack_leaves t8 width values.old packed.now }
{
    hand(unpack(width, packed, values), place)
}

// Unpacks the value at one place of a packed block, and says in how many packed words it stands; refused, the value is
// 0 and the words 2^64 - 1.
#[unsafe(no_mangle)]
pub extern "C" fn fascjoldi_unpack_single_u8(
    width: usize,
    packed: &[u8],
    index: usize,
    value: &mut u8,
    words: &mut Words,
    place: &mut usize,
) -> usize
    ensures { SingleHanded answer_of value_of words_of
        (single_of Value Refused t8 width packed.now index) result value.new
        words.new place.new }
{
    hand_single(unpack_single(width, packed, index), value, words, place)
}

// Says in how many packed words the value at a place stands; 2^64 - 1 where there is no such width or no such place.
#[unsafe(no_mangle)]
pub extern "C" fn fascjoldi_words_at_u8(width: usize, index: usize) -> Words
    ensures { result ≡ words_at t8 width index }
{
    words_at::<u8, 8, 128>(width, index)
}

// Unpacks the values at a list of places, and says how many packed words they stand in, counted for each; refused, the
// words are 0.
#[unsafe(no_mangle)]
pub extern "C" fn fascjoldi_unpack_indices_u8(
    width: usize,
    packed: &[u8],
    indices: &[usize],
    output: &mut [u8],
    words: &mut Words,
    place: &mut usize,
) -> usize
    ensures list_handed { ListHanded (list_gives t8 width packed.now indices.now output.old) result
        words.new place.new }
    ensures output_after { output.new
        ≡ list_leaves t8 width packed.now indices.now output.old }
{
    hand_list(unpack_indices(width, packed, indices, output), words, place)
}

// Unpacks the values at the first places of a list, as many as the budget of words is enough for, and says how many
// these are and how many words they stand in; refused, both are 0. The outputs behind these stay as they were.
#[unsafe(no_mangle)]
pub extern "C" fn fascjoldi_unpack_within_u8(
    width: usize,
    packed: &[u8],
    indices: &[usize],
    budget: Words,
    output: &mut [u8],
    answered: &mut usize,
    words: &mut Words,
    place: &mut usize,
) -> usize
    ensures front_handed { FrontHanded (within_gives t8 width packed.now indices.now output.old budget) result
        answered.new words.new place.new }
    ensures output_after { output.new ≡ within_leaves t8 width packed.now indices.now output.old budget }
{
    hand_front(
        unpack_within(width, packed, indices, budget, output),
        answered,
        words,
        place,
    )
}

// Stores at each place its value minus the value of the row before in its lane, at row 0 minus the lane's base.
#[unsafe(no_mangle)]
pub extern "C" fn fascjoldi_delta_u8(
    input: &[u8],
    base: &[u8],
    output: &mut [u8],
    place: &mut usize,
) -> usize
    ensures handed { Handed (answer_for (delta_takes t8 input.now base.now output.old)) result
        place.new }
    ensures output_after { output.new ≡ delta_leaves t8 input.now base.now output.old }
{
    hand(delta(input, base, output), place)
}

// Sums along each lane by rows, from the lane's base: undoes delta.
#[unsafe(no_mangle)]
pub extern "C" fn fascjoldi_undelta_u8(
    input: &[u8],
    base: &[u8],
    output: &mut [u8],
    place: &mut usize,
) -> usize
    ensures handed { Handed (answer_for (delta_takes t8 input.now base.now output.old)) result
        place.new }
    ensures output_after { output.new
        ≡ undelta_leaves t8 input.now base.now output.old }
{
    hand(undelta(input, base, output), place)
}

// Unpacks differences of `width` bits each, and sums them along each lane by rows, from the lane's base.
#[unsafe(no_mangle)]
pub extern "C" fn fascjoldi_undelta_pack_u8(
    width: usize,
    packed: &[u8],
    base: &[u8],
    values: &mut [u8],
    place: &mut usize,
) -> usize
    ensures handed { Handed (answer_for (undelta_pack_takes t8 width values.old packed.now base.now))
        result place.new }
    ensures values_after { values.new ≡ undelta_pack_leaves t8 width values.old packed.now base.now }
{
    hand(undelta_pack(width, packed, base, values), place)
}

// Packs each value minus the reference at `width` bits.
#[unsafe(no_mangle)]
pub extern "C" fn fascjoldi_for_pack_u8(
    width: usize,
    values: &[u8],
    reference: u8,
    packed: &mut [u8],
    place: &mut usize,
) -> usize
    ensures handed { Handed (answer_for (pack_takes t8 width values.now packed.old)) result place.new }
    ensures packed_after { packed.new
        ≡ for_pack_leaves t8 width values.now packed.old reference }
{
    hand(for_pack(width, values, reference, packed), place)
}

// Unpacks 1,024 values of `width` bits each, and adds the reference to each.
#[unsafe(no_mangle)]
pub extern "C" fn fascjoldi_unfor_pack_u8(
    width: usize,
    packed: &[u8],
    reference: u8,
    values: &mut [u8],
    place: &mut usize,
) -> usize
    ensures handed { Handed (answer_for (pack_takes t8 width values.old packed.now)) result place.new }
    ensures values_after { values.new
        ≡ unfor_pack_leaves t8 width values.old packed.now reference }
{
    hand(unfor_pack(width, packed, reference, values), place)
}

// Unpacks so many blocks of one width that stand one after another: 2 where there are more than 256 or the values are
// not 1,024 for each, and 3 where the packed length is not that of so many blocks.
#[unsafe(no_mangle)]
pub extern "C" fn fascjoldi_unpack_blocks_u8(
    width: usize,
    blocks: usize,
    packed: &[u8],
    values: &mut [u8],
    place: &mut usize,
) -> usize
    ensures handed { Handed (drawer_answer t8 width blocks values.old packed.now) result place.new }
    ensures values_after { values.new
        ≡ unpack_blocks_leaves t8 width blocks values.old packed.now }
{
    hand(unpack_blocks(width, blocks, packed, values), place)
}

// Packs so many blocks, each value minus the one reference, at one width. 2 and 3 are as in unpack_blocks.
#[unsafe(no_mangle)]
pub extern "C" fn fascjoldi_for_pack_blocks_u8(
    width: usize,
    blocks: usize,
    values: &[u8],
    reference: u8,
    packed: &mut [u8],
    place: &mut usize,
) -> usize
    ensures handed { Handed (drawer_answer t8 width blocks values.now packed.old) result place.new }
    ensures packed_after { packed.new
        ≡ for_pack_blocks_leaves t8 width blocks values.now packed.old reference }
{
    hand(
        for_pack_blocks(width, blocks, values, reference, packed),
        place,
    )
}

// Writes at each place the dictionary's value at that place's index.
#[unsafe(no_mangle)]
pub extern "C" fn fascjoldi_decode_u8(
    dictionary: &[u8],
    indices: &[u16],
    output: &mut [u8],
    place: &mut usize,
) -> usize
    ensures handed { Handed (answer_for (decode_takes dictionary.now indices.now output.old)) result
        place.new }
    ensures output_after { output.new
        ≡ decode_leaves dictionary.now indices.now output.old }
{
    hand(decode(dictionary, indices, output), place)
}

// Puts at each place the value found at its source in the plain order.
#[unsafe(no_mangle)]
pub extern "C" fn fascjoldi_transpose_u8(
    input: &[u8],
    output: &mut [u8],
    place: &mut usize,
) -> usize
    ensures handed { Handed (answer_for (transpose_takes input.now output.old)) result place.new }
    ensures output_after { output.new ≡ transpose_leaves input.now output.old }
{
    hand(transpose(input, output), place)
}

// Puts the value of each place back at its source: undoes transpose.
#[unsafe(no_mangle)]
pub extern "C" fn fascjoldi_untranspose_u8(
    input: &[u8],
    output: &mut [u8],
    place: &mut usize,
) -> usize
    ensures handed { Handed (answer_for (transpose_takes input.now output.old)) result place.new }
    ensures output_after { output.new ≡ untranspose_leaves input.now output.old }
{
    hand(untranspose(input, output), place)
}

// Moves bit l * T + r of a block of 1,024 bits to the place of row r in lane l; always answers.
#[unsafe(no_mangle)]
pub extern "C" fn fascjoldi_transpose_bits_u8(input: &BitBlock, output: &mut BitBlock)
    ensures { output.new ≡ transpose_bits_of t8 input.now }
{
    *output = transpose_bits::<u8, 8, 128>(*input);
}
