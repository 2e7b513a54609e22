// The cases of the calls on column files: how the buffers are read, the call made, and what it left compared.
ghost use Rattle.std.specs.Prelude.{◌≡◌, ◌*◌, ◌≤◌, [], length};
ghost use Rattle.little.specs.Little.{numbers_of};
ghost use Rattle.stream.specs.declared.Step.TheVariants.{Same};
ghost use Rattle.stream.specs.Expected.{AsExpected};

use crate::file_calls::{call, write, writes};
use crate::wire::{read_bytes, read_eights, read_words};
use crate::{t8, t64};
use stream::{Head, Reply, Step, same_bytes, same_words};

// A case after its head. The buffers are made here and lent from here on as slices: the file, which is read or written,
// the numbers, which are given back or taken, and the bytes of what is read last. A fourth would not fit the stack.
pub fn case(head: Head) -> Step {
    let mut file = [0u8; 2_200_000];
    let mut numbers = [0u64; 275_000];
    let mut bytes = [0u8; 2_200_000];
    lend(head, &mut file, &mut numbers, &mut bytes)
}

fn lend(
    head: Head,
    file: &mut [u8; 2_200_000],
    numbers: &mut [u64; 275_000],
    bytes: &mut [u8; 2_200_000],
) -> Step {
    made(head, file, numbers, bytes)
}

// Reads the buffers, makes the call and compares. The bytes of c at exit are read last, so they are what stands in
// bytes then.
fn made(head: Head, file: &mut [u8], numbers: &mut [u64], bytes: &mut [u8]) -> Step {
    if writes(head.op) {
        write_case(head, numbers, file, bytes)
    } else {
        read_case(head, file, numbers, bytes)
    }
}

// The case of a call that reads a file: a is the file, b are the bounds of a search, and c are numbers. No such call
// gives back an index.
fn read_case(head: Head, a: &mut [u8], c: &mut [u64], bytes: &mut [u8]) -> Step {
    if !read_bytes(head.n_a, a) {
        return Step::Bad;
    }
    let mut bounds = [0u64; 2];
    if !read_words(head.n_b, bytes, &mut bounds) {
        return Step::Bad;
    }
    if !read_words(head.n_c, bytes, c) {
        return Step::Bad;
    }
    if !read_eights(head.n_c, bytes) {
        return Step::Bad;
    }
    let reply = call_on_parts(head, a, &bounds, c);
    judge(head, reply.with_index(head.index), c, bytes)
}

// The case of a call that writes a file: a are the numbers, and c is the output.
fn write_case(head: Head, a: &mut [u64], c: &mut [u8], bytes: &mut [u8]) -> Step {
    if !read_words(head.n_a, bytes, a) {
        return Step::Bad;
    }
    if !read_bytes(head.n_c, c) {
        return Step::Bad;
    }
    if !read_bytes(head.n_c, bytes) {
        return Step::Bad;
    }
    let reply = write_on_parts(head, a, c);
    judge_write(head, reply, c, bytes)
}

// The call on those parts of the buffers that the case fills.
fn call_on_parts(head: Head, a: &[u8], bounds: &[u64; 2], c: &mut [u64]) -> Reply {
    let n = t8::within(head.n_a, a);
    let m = t64::within(head.n_c, c);
    call(head, &a[..n], bounds, &mut c[..m])
}

// The same of the call that writes a file.
fn write_on_parts(head: Head, a: &[u64], c: &mut [u8]) -> Reply {
    let n = t64::within(head.n_a, a);
    let m = t8::within(head.n_c, c);
    write(&a[..n], &mut c[..m])
}

// What comes of the case with this head, from what its call gave back and left in c, and from the bytes that c is to
// have.
pub fn judge(head: Head, reply: Reply, c: &[u64], c_exit: &[u8]) -> Step
    ensures as_expected { result ≡ Same → AsExpected head reply c.now (numbers_of 8 c_exit.now head.n_c) [] [] }
    ensures value { head.n_c ≤ length c.now → 8 * head.n_c ≤ length c_exit.now → AsExpected head
        reply c.now (numbers_of 8 c_exit.now head.n_c) [] [] → result ≡ Same }
{
    stream::judge(head, reply, same_words(c, c_exit, head.n_c))
}

// The same of a call that writes a file, where c has bytes itself.
pub fn judge_write(head: Head, reply: Reply, c: &[u8], c_exit: &[u8]) -> Step
    ensures as_expected { result ≡ Same → AsExpected head reply c.now c_exit.now [] [] }
    ensures value { head.n_c ≤ length c.now → head.n_c ≤ length c_exit.now → AsExpected head reply
        c.now c_exit.now [] [] → result ≡ Same }
{
    stream::judge(head, reply, same_bytes(c, c_exit, head.n_c))
}
