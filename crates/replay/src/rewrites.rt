// The cases of the call that rewrites a file (R112 to R114): how the buffers are read, the call made, and what it left
// compared. Both buffers have bytes.
use crate::file_calls::rewrite;
use crate::file_cases::judge_write;
use crate::t8;
use crate::wire::read_bytes;
use stream::{Head, Reply, Step};

// A case after its head. The buffers are made here: the file, the output, and the bytes that the output is to have.
pub fn case(head: Head) -> Step {
    let mut file = [0u8; 2_200_000];
    let mut output = [0u8; 2_200_000];
    let mut bytes = [0u8; 2_200_000];
    lend(head, &mut file, &mut output, &mut bytes)
}

fn lend(
    head: Head,
    file: &mut [u8; 2_200_000],
    output: &mut [u8; 2_200_000],
    bytes: &mut [u8; 2_200_000],
) -> Step {
    made(head, file, output, bytes)
}

// Reads the buffers, makes the call and compares.
fn made(head: Head, file: &mut [u8], output: &mut [u8], bytes: &mut [u8]) -> Step {
    if !read_bytes(head.n_a, file) {
        return Step::Bad;
    }
    if !read_bytes(head.n_c, output) {
        return Step::Bad;
    }
    if !read_bytes(head.n_c, bytes) {
        return Step::Bad;
    }
    let reply = rewrite_on_parts(head, file, output);
    judge_write(head, reply, output, bytes)
}

// The call on those parts of the buffers that the case fills.
fn rewrite_on_parts(head: Head, file: &[u8], output: &mut [u8]) -> Reply {
    let n = t8::within(head.n_a, file);
    let m = t8::within(head.n_c, output);
    rewrite(&file[..n], &mut output[..m])
}
