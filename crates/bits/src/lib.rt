// The bit transposes of a block of 1,024 bits: sixteen u64 numbers, taken and given back by value. From the crate's
// src/bit_transpose/scalar.rs, with the byte reading, the base patterns and the masks of src/bit_transpose/mod.rs.
//
// Both calls go by sixteen groups of eight bytes. A group is gathered into one u64, its 8 by 8 bits are transposed, and
// its bytes are laid out again. The crate looks at a block as 128 bytes in place; here bytes_of makes them by
// whole-number arithmetic, which the compiler turns into a plain copy. The crate stores each byte of a group where it
// belongs; here each output word gathers its eight bytes from the groups, so that it is written once and whole.
//
// The transpose is one text for all element sizes. The inverse is asked for at T 64 only.
#![tactic(auto)]

ghost use Rattle.std.specs.Prelude.{◌≡◌, ℕ, ◌+◌, ◌-◌, ◌*◌, ◌/◌, ◌^◌, ◌≤◌, ◌<◌, length};
ghost use Rattle.lists.specs.Tab.{tab, over};
ghost use Rattle.bits.specs.Bits.{transpose_bits_of, untranspose_bits_of, bit_of};
ghost use Rattle.bits.specs.InnerSteps.{bytes_of, gather_of, exchange_of, turn_of, gathers_of, turns_of, group_start, round_start, scatter_start, unscatter_start, ungroup_start, byte_of};

use places::{Element, order};

// Bit p of a block is bit p mod 64 of number p / 64, lowest first.
pub type BitBlock = [u64; 16];

// The bytes of a block, the lowest byte of each number first.
type Bytes = [u8; 128];

// Moves input bit l · T + r to the place of row r in lane l, for each lane l and each row r. All that E says is the size:
// transpose_bits::<u8, 8, 128>(block) is the transpose for T 8.
pub fn transpose_bits<E: Element<T, LANES>, const T: usize, const LANES: usize>(
    block: BitBlock,
) -> BitBlock
    ensures { result ≡ transpose_bits_of T block }
{
    scatter(group::<E, T, LANES>(block))
}

// Moves the bits of a block that was transposed for T 64 back to where they came from.
pub fn untranspose_bits(block: BitBlock) -> BitBlock
    ensures { result ≡ untranspose_bits_of block }
{
    ungroup(unscatter(block))
}

// The 8 by 8 step moves bit j of byte i to bit i of byte j. It exchanges bits within squares of two by two, then
// squares of two within squares of four, then squares of four within the whole.
fn transpose_8x8(x: u64) -> u64
    ensures { result ≡ turn_of x }
{
    let twos = exchange(x, 0x00AA_00AA_00AA_00AA, 7);
    let fours = exchange(twos, 0x0000_CCCC_0000_CCCC, 14);
    exchange(fours, 0x0000_0000_F0F0_F0F0, 28)
}

// Exchanges each bit under the mask with the bit `shift` places above it. No bit may be both.
fn exchange(x: u64, mask: u64, shift: u32) -> u64
    requires shift_bound { shift < 64 }
    requires by_index { (p : ℕ) → p < 64 → bit_of mask p + bit_of (mask * 2 ^ shift) p < 2 }
    ensures { result ≡ exchange_of x mask shift }
{
    let t = (x ^ (x >> shift)) & mask;
    x ^ t ^ (t << shift)
}

// The bytes of a block.
fn bytes_of(block: BitBlock) -> Bytes
    ensures { result ≡ bytes_of block }
{
    let mut bytes: Bytes = [0; 128];
    for k in 0..16 {
        write_word(&mut bytes, k * 8, block[k]);
    }
    bytes
}

// Writes the eight bytes of one number from `at` on. As a loop of its own it becomes a single store.
fn write_word(bytes: &mut [u8], at: usize, word: u64)
    requires { at + 8 ≤ length bytes.old }
    ensures { bytes.new ≡ over at (tab 8 (byte_of word)) bytes.old }
{
    for i in 0..8 {
        bytes[at + i] = ((word >> (i * 8)) % 256) as u8;
    }
}

// Gathers the eight bytes from `start` on that stand `step` apart into one number.
fn gather(bytes: &Bytes, start: usize, step: usize) -> u64
    requires { start + 7 * step < 128 }
    ensures { result ≡ gather_of bytes.now start step }
{
    let mut x = 0;
    for i in 0..8 {
        x = x | (wide(bytes[start + i * step]) << (i * 8));
    }
    x
}

// A byte as a u64.
fn wide(x: u8) -> u64
    ensures { (result ≡ x) × (result < 256) }
{
    x as u64
}

// Takes up the sixteen groups, and transposes each. A group has one byte of the words of eight lanes: byte b of the
// eight lanes from 8 · e on is group order[b] · 2 + e, for that is the first byte that scatter makes of it.
fn group<E: Element<T, LANES>, const T: usize, const LANES: usize>(block: BitBlock) -> BitBlock
    ensures { result ≡ turns_of (group_start T) (T / 8) block }
{
    let bytes = bytes_of(block);
    let mut groups: BitBlock = [0; 16];
    for g in 0..16 {
        let e = g % (LANES / 8);
        let b = order((g - e) / 2);
        groups[g] = transpose_8x8(gather(&bytes, e * T + b, T / 8));
    }
    groups
}

// Lays out the groups of a transpose: byte i of group g becomes byte 16 · i + g of the output.
fn scatter(groups: BitBlock) -> BitBlock
    ensures { result ≡ gathers_of scatter_start 8 groups }
{
    lay_out(groups, 2, 64, 1)
}

// Takes up the groups again, for T 64: group g has the eight bytes that belong to byte g mod 8 of the words of eight
// lanes, those from 8 · (g / 8) on.
fn unscatter(block: BitBlock) -> BitBlock
    ensures { result ≡ turns_of unscatter_start 16 block }
{
    let bytes = bytes_of(block);
    let mut groups: BitBlock = [0; 16];
    for g in 0..16 {
        groups[g] = transpose_8x8(gather(&bytes, order(g % 8) * 2 + g / 8, 16));
    }
    groups
}

// Lays out those groups: word w is the word of lane w, and has byte w mod 8 of eight groups.
fn ungroup(groups: BitBlock) -> BitBlock
    ensures { result ≡ gathers_of ungroup_start 8 groups }
{
    lay_out(groups, 8, 1, 64)
}

// Lays out groups by a walk in rounds of `turns` words: word w gathers one byte of each of eight groups, from byte
// w mod turns · near + w / turns · far on.
fn lay_out(groups: BitBlock, turns: usize, near: usize, far: usize) -> BitBlock
    requires turns_nonzero { 0 < turns }
    requires far_bound { (turns - 1) * near + 15 / turns * far + 7 * 8 < 128 }
    ensures { result ≡ gathers_of (round_start turns near far) 8 groups }
{
    let bytes = bytes_of(groups);
    let mut out: BitBlock = [0; 16];
    for w in 0..16 {
        out[w] = gather(&bytes, w % turns * near + w / turns * far, 8);
    }
    out
}
