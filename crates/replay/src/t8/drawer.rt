// Written by tools/sizes from the text of size 64: edit that one, and run tools/sizes.
// The cases of drawers of u8 values (R66 to R68): how the buffers are read, the call made, and what it left compared.
ghost use Rattle.std.specs.Prelude.{◌≡◌, ◌*◌, ◌/◌, ◌≤◌, true, [], length};
ghost use Rattle.places.specs.Sizes.{t8};
ghost use Rattle.little.specs.Little.{numbers_of};
ghost use Rattle.stream.specs.declared.Step.TheVariants.{Same};
ghost use Rattle.stream.specs.Expected.{Agree, AsExpected};

use crate::t8::within;
use crate::wire::read_bytes;
use stream::elements::Streamed;
use stream::{Head, Reply, Step};

const T: usize = 8;

// The bytes of an element.
const SIZE: usize = T / 8;

// The elements that 2,200,000 bytes hold.
const MOST: usize = 2_200_000 / SIZE;

// A case after its head. The buffers are made here, so that they are there only while they are needed.
pub fn case(head: Head) -> Step {
    let mut a = [0u8; MOST];
    let mut c = [0u8; MOST];
    let mut bytes = [0u8; 2_200_000];
    lend(head, &mut a, &mut c, &mut bytes)
}

fn lend(head: Head, a: &mut [u8; MOST], c: &mut [u8; MOST], bytes: &mut [u8; 2_200_000]) -> Step {
    made(head, a, c, bytes)
}

// Reads the buffers, makes the call and compares. The bytes of c at exit are read last, so they are what stands in
// bytes then.
fn made(head: Head, a: &mut [u8], c: &mut [u8], bytes: &mut [u8]) -> Step {
    if !read(head.n_a, bytes, a) {
        return Step::Bad;
    }
    if !read(head.n_c, bytes, c) {
        return Step::Bad;
    }
    if !read_sized(head.n_c, bytes) {
        return Step::Bad;
    }
    let reply = call_on_parts(head, a, c);
    judge(head, reply.with_index(head.index), c, bytes)
}

// Reads the bytes of n elements, and answers whether they were all there.
fn read_sized(n: usize, bytes: &mut [u8]) -> bool {
    if bytes.len() / SIZE < n {
        return false;
    }
    read_bytes(n * SIZE, bytes)
}

// Reads n elements to the front of out, by way of bytes, and answers whether they were all there.
fn read(n: usize, bytes: &mut [u8], out: &mut [u8]) -> bool {
    if out.len() < n {
        return false;
    }
    if !read_sized(n, bytes) {
        return false;
    }
    fill(bytes, &mut out[..n]);
    true
}

fn fill(bytes: &[u8], out: &mut [u8]) {
    for i in 0..out.len() {
        out[i] = u8::read(bytes, i * SIZE);
    }
}

// The call on those parts of the buffers that the case fills.
fn call_on_parts(head: Head, a: &[u8], c: &mut [u8]) -> Reply {
    let n = within(head.n_a, a);
    let m = within(head.n_c, c);
    call(head, &a[..n], &mut c[..m])
}

// The call that the head names. The one that takes a reference gives it back as it was given.
fn call(head: Head, a: &[u8], c: &mut [u8]) -> Reply {
    let op = head.op;
    let width = head.width as usize;
    let blocks = head.index as usize;
    let reference: u8 = Streamed::narrow(head.reference);
    match op {
        24 => Reply::of(drawers::unpack_blocks(width, blocks, a, c)),
        25 => {
            let answer = drawers::for_pack_blocks(width, blocks, a, reference, c);
            Reply::of(answer).with_reference(head.reference)
        }
        _ => Reply::Unknown,
    }
}

// What comes of the case with this head, from what its call gave back and left in c, and from the bytes that c is to
// have.
fn judge(head: Head, reply: Reply, c: &[u8], c_exit: &[u8]) -> Step
    ensures as_expected { result ≡ Same → AsExpected head reply c.now (numbers_of (t8 / 8) c_exit.now head.n_c)
        [] [] }
    ensures value { head.n_c ≤ length c.now → t8 / 8 * head.n_c ≤ length c_exit.now → AsExpected
        head reply c.now (numbers_of (t8 / 8) c_exit.now head.n_c) [] [] → result ≡ Same }
{
    stream::judge(head, reply, same(c, c_exit, head.n_c))
}

// Whether the first n elements are those that stand from the front of the bytes on; no, where there are not so many.
fn same(elements: &[u8], bytes: &[u8], n: usize) -> bool
    ensures n_in_bounds { result ≡ true → (n ≤ length elements.now) × (t8 / 8 * n ≤ length bytes.now) × Agree n
        elements.now (numbers_of (t8 / 8) bytes.now n) }
    ensures value { n ≤ length elements.now → t8 / 8 * n ≤ length bytes.now → Agree n
        elements.now (numbers_of (t8 / 8) bytes.now n) → result ≡ true }
{
    if elements.len() < n {
        return false;
    }
    if bytes.len() / SIZE < n {
        return false;
    }
    for i in 0..n {
        if elements[i] != u8::read(bytes, i * SIZE) {
            return false;
        }
    }
    true
}
