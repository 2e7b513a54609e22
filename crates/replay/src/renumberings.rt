// The cases of the call that renumbers a file (R132): how the buffers are read, the call made, and what it left
// compared. The file and the output have bytes, and the lists are one behind the other.
ghost use Rattle.std.specs.Prelude.{◌≤◌};

use crate::file_calls::renumber;
use crate::file_cases::judge_write;
use crate::wire::{read_bytes, read_words};
use crate::{t8, t64};
use stream::{Head, Reply, Step};

// A case after its head. The buffers are made here: the file, the lists and the output. A fourth would not fit the
// stack.
pub fn case(head: Head) -> Step {
    let mut file = [0u8; 2_200_000];
    let mut lists = [0u64; 275_000];
    let mut output = [0u8; 2_200_000];
    lend(head, &mut file, &mut lists, &mut output)
}

fn lend(
    head: Head,
    file: &mut [u8; 2_200_000],
    lists: &mut [u64; 275_000],
    output: &mut [u8; 2_200_000],
) -> Step {
    made(head, file, lists, output)
}

// Reads the buffers, makes the call and compares. The lists are read by way of the output, which is read behind them;
// and after the call the bytes that the output is to have are read where the file stood.
fn made(head: Head, file: &mut [u8], lists: &mut [u64], output: &mut [u8]) -> Step {
    if !read_bytes(head.n_a, file) {
        return Step::Bad;
    }
    if !read_words(head.n_b, output, lists) {
        return Step::Bad;
    }
    if !read_bytes(head.n_c, output) {
        return Step::Bad;
    }
    let reply = renumber_on_parts(head, file, lists, output);
    if !read_bytes(head.n_c, file) {
        return Step::Bad;
    }
    judge_write(head, reply, output, file)
}

// The call on those parts of the buffers that the case fills.
fn renumber_on_parts(head: Head, file: &[u8], lists: &[u64], output: &mut [u8]) -> Reply {
    let n = t8::within(head.n_a, file);
    let k = t64::within(head.n_b, lists);
    let m = t8::within(head.n_c, output);
    renumber_by(head, &file[..n], &lists[..k], &mut output[..m])
}

// The call on the file, the three lists and the output.
fn renumber_by(head: Head, file: &[u8], lists: &[u64], output: &mut [u8]) -> Reply {
    let begin = 0;
    let end = lists.len();
    let old = end_of(begin, head.reference, end);
    let new = end_of(old, head.index, end);
    renumber(
        head,
        file,
        &lists[begin..old],
        &lists[old..new],
        &lists[new..],
        output,
    )
}

// Where a list of n numbers ends that begins at a place: at the end of all of them at the latest.
fn end_of(from: usize, n: u64, end: usize) -> usize
    requires { from ≤ end }
    ensures { (from ≤ result) × (result ≤ end) }
{
    let left = end - from;
    if (left as u64) <= n {
        return end;
    }
    from + n as usize
}
