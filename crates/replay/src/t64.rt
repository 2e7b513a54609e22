// The calls at u64. The buffers of a case come as numbers, and c is left as numbers, so that reading and comparing are
// the same for every size. All calls share two functions: `call` makes elements of the numbers and numbers again, and
// `reply` makes the call. With a function for each call, which does both, the prover takes nearly twice as long.
pub mod drawer;

ghost use Rattle.std.specs.Prelude.{◌≡◌, ◌%◌, ◌^◌, ◌≤◌, length, slice_index};
ghost use Rattle.lists.specs.Tab.{tab};
ghost use Rattle.places.specs.Sizes.{t64};
ghost use Rattle.io.specs.Counts.{IsPrefixLen};

use crate::block_cases::Wide;
use crate::outcome::{of_front, of_list, of_plain};
use access::Single;
use stream::elements::Streamed;
use stream::{Head, Reply};

// The call that the head names, on the buffers a, b and c as elements. The other lists are the same at every size.
pub fn call(
    head: Head,
    a: &Wide,
    b: &Wide,
    c: &mut Wide,
    indices: &[usize],
    entries: &[u16],
) -> Reply {
    let input = narrowed(a);
    let base = narrowed(b);
    let mut out = narrowed(c);
    let n = within(head.n_a, &input);
    let k = within(head.n_b, &base);
    let m = within(head.n_c, &out);
    let reply = reply(
        head,
        &input[..n],
        &base[..k],
        &mut out[..m],
        indices,
        entries,
    );
    *c = widened(&out);
    reply
}

// What the call gives back. Each takes those of the lists that it needs.
fn reply(
    head: Head,
    input: &[u64],
    base: &[u64],
    out: &mut [u64],
    indices: &[usize],
    entries: &[u16],
) -> Reply {
    let op = head.op;
    let width = head.width as usize;
    let reference: u64 = Streamed::narrow(head.reference);
    match op {
        0 => Reply::of(packing::pack(width, input, out)),
        1 => Reply::of(packing::unpack(width, input, out)),
        2 => single(access::unpack_single(width, input, head.index as usize)),
        3 => of_list(access::unpack_indices(width, input, indices, out)),
        4 => Reply::of(deltas::delta(input, base, out)),
        5 => Reply::of(deltas::undelta(input, base, out)),
        6 => Reply::of(deltas::undelta_pack(width, input, base, out)),
        7 => Reply::of(deltas::for_pack(width, input, reference, out)),
        8 => Reply::of(deltas::unfor_pack(width, input, reference, out)),
        10 => Reply::of(runs::decode(input, entries, out)),
        11 => Reply::of(places::transpose(input, out)),
        12 => Reply::of(places::untranspose(input, out)),
        23 => of_front(access::unpack_within(width, input, indices, head.reference, out)),
        27 => Reply::of(plain::pack_bitwise(width, input, out)),
        28 => Reply::of(plain::unpack_bitwise(width, input, out)),
        29 => plain_single(plain::unpack_single_bitwise(width, input, head.index as usize)),
        _ => Reply::Unknown,
    }
}

// Of a refused single access the value is 0. The count of words is given back as the reference.
fn single(single: Single<u64>) -> Reply {
    Reply::with_value(single.answer(), single.value().widen()).with_reference(single.words())
}

// The same of the plain engine's.
fn plain_single(single: plain::Single<u64>) -> Reply {
    of_plain(
        single.answer(),
        single.value_bitwise().widen(),
        single.words(),
    )
}

// A count of the head, as a count of x's elements. The head's counts are within every buffer. The contract says so of
// x, so that lending the part `&x[..n]` needs no proof file.
pub fn within(n: usize, x: &[u64]) -> usize
    ensures prefix_len { IsPrefixLen result x.now }
    ensures value { n ≤ length x.now → result ≡ n }
{
    if n <= x.len() { n } else { 0 }
}

// The numbers as elements.
pub fn narrowed(x: &Wide) -> [u64; 4096]
    ensures { result ≡ tab 4096 (λ i. slice_index x.now i % 2 ^ t64) }
{
    let mut y = [0u64; 4096];
    for i in 0..4096 {
        y[i] = u64::narrow(x[i]);
    }
    y
}

// The elements as numbers.
pub fn widened(x: &[u64; 4096]) -> Wide
    ensures { result ≡ tab 4096 (λ i. slice_index x.now i) }
{
    let mut y: Wide = [0; 4096];
    for i in 0..4096 {
        y[i] = x[i].widen();
    }
    y
}
