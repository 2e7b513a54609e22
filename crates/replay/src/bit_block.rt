// The calls on bit blocks: the sixteen numbers at the front of a buffer.
ghost use Rattle.std.specs.Prelude.{◌≡◌, slice_index};
ghost use Rattle.lists.specs.Tab.{tab};

use crate::block_cases::Wide;
use places::Answer;
use stream::{Head, Reply};

// A bit block is sixteen numbers, no more and no fewer: a record of these calls with other counts is no case.
pub fn call(head: Head, a: &Wide, c: &mut Wide) -> Reply {
    if head.n_a != 16 {
        return Reply::Unknown;
    }
    if head.n_c != 16 {
        return Reply::Unknown;
    }
    put_bits(moved(head, bits_at_front(a)), c);
    Reply::of(Answer::Done)
}

// The bits where the call moves them. Its inverse is there for one size only, and no other head is possible for it.
fn moved(head: Head, block: [u64; 16]) -> [u64; 16] {
    let op = head.op;
    if op == 14 {
        return bits::untranspose_bits(block);
    }
    let t = head.t;
    match t {
        8 => bits::transpose_bits::<u8, 8, 128>(block),
        16 => bits::transpose_bits::<u16, 16, 64>(block),
        32 => bits::transpose_bits::<u32, 32, 32>(block),
        _ => bits::transpose_bits::<u64, 64, 16>(block),
    }
}

// The bit block that stands at the front of a buffer.
fn bits_at_front(a: &Wide) -> [u64; 16]
    ensures { result ≡ tab 16 (λ i. slice_index a.now i) }
{
    let mut x = [0u64; 16];
    for i in 0..16 {
        x[i] = a[i];
    }
    x
}

// Writes a bit block to the front of a buffer.
fn put_bits(x: [u64; 16], c: &mut Wide) {
    for i in 0..16 {
        c[i] = x[i];
    }
}
