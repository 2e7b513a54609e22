// The cases of the calls on blocks: how the buffers are read, the call made, and what it left compared.
use crate::block_calls::{bytes_a, bytes_b, bytes_c, bytes_d};
use crate::indices::{indexed, within_indices};
use crate::outcome::judge;
use crate::wire::read_numbers;
use crate::{bit_block, t8, t16, t32, t64};
use stream::{Head, Reply, Step};

// A buffer of a case: its elements as numbers, whatever their size, and zeros up to the end.
pub type Wide = [u64; 4096];

// A case after its head: reads the buffers, makes the call and compares. The buffers are made here, six of 32,768
// bytes.
pub fn case(head: Head) -> Step {
    let mut a = [0u64; 4096];
    let mut b = [0u64; 4096];
    let mut c = [0u64; 4096];
    let mut c_exit = [0u64; 4096];
    let mut d = [0u64; 4096];
    let mut d_exit = [0u64; 4096];
    let there = read_numbers(head.n_a, bytes_a(head), &mut a)
        && read_numbers(head.n_b, bytes_b(head), &mut b)
        && read_numbers(head.n_c, bytes_c(head), &mut c)
        && read_numbers(head.n_c, bytes_c(head), &mut c_exit)
        && read_numbers(head.n_d, bytes_d(head), &mut d)
        && read_numbers(head.n_d, bytes_d(head), &mut d_exit);
    if !there {
        return Step::Bad;
    }
    let reply = call(head, &a, &b, &mut c);
    judge(head, whole(head, reply), &c, &c_exit, &d, &d_exit)
}

// The reply with the reference and the index that go with it. Single access gives back its count as the reference,
// and access under a budget its words as the index; else they are what the call was given.
fn whole(head: Head, reply: Reply) -> Reply {
    let op = head.op;
    match op {
        2 | 29 => reply.with_index(head.index),
        23 => reply.with_reference(head.reference),
        _ => reply.with_reference(head.reference).with_index(head.index),
    }
}

// The call: on bit blocks, or at the size of its elements. What has one size for all is made of b here: the indices
// of list access, and the dictionary indices that decode takes.
fn call(head: Head, a: &Wide, b: &Wide, c: &mut Wide) -> Reply {
    let op = head.op;
    if op == 13 || op == 14 {
        return bit_block::call(head, a, c);
    }
    let indices = indexed(b);
    let entries = t16::narrowed(b);
    let k = within_indices(head.n_b, &indices);
    let l = t16::within(head.n_b, &entries);
    at_size(head, a, b, c, &indices[..k], &entries[..l])
}

fn at_size(
    head: Head,
    a: &Wide,
    b: &Wide,
    c: &mut Wide,
    indices: &[usize],
    entries: &[u16],
) -> Reply {
    let t = head.t;
    match t {
        8 => t8::call(head, a, b, c, indices, entries),
        16 => t16::call(head, a, b, c, indices, entries),
        32 => t32::call(head, a, b, c, indices, entries),
        64 => t64::call(head, a, b, c, indices, entries),
        _ => Reply::Unknown,
    }
}
