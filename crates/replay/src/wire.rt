// Reading the stream: the head of a record, its buffers, and the little-endian numbers that both are made of. The
// calls on blocks have their buffers as numbers, and the others as bytes or as numbers of eight bytes.
ghost use Rattle.std.specs.Prelude.{◌≡◌, ◌+◌, ◌*◌, ◌≤◌, true, length};
ghost use Rattle.lists.specs.Tab.{tab, over};
ghost use Rattle.little.specs.Little.{little};
ghost use Rattle.replay.specs.Elements.{is_size};

use crate::block_cases::Wide;
use little::{pair, quad, word};
use stream::elements::Streamed;
use stream::{Head, head_of};

// The number of standard input among the open files.
const STDIN: i32 = 0;

// What stands where a record may begin.
#[derive(Clone, Copy)]
pub enum Beginning {
    // nothing: the stream ends here
    End,
    // less than a head
    Cut,
    Whole(Head),
}

// The head of the next record.
pub fn read_head() -> Beginning {
    let mut bytes = [0u8; 56];
    let got = io::read_full(STDIN, &mut bytes);
    if got == 0 {
        return Beginning::End;
    }
    if got != 56 {
        return Beginning::Cut;
    }
    Beginning::Whole(head_of(&bytes))
}

// Reads n elements of size bytes each, and answers whether they were all there. An element has 1, 2, 4 or 8 bytes,
// and a buffer at most 4,096 elements: more are not read.
pub fn read_numbers(n: usize, size: usize, out: &mut Wide) -> bool {
    if n == 0 {
        return true;
    }
    if 4096 < n {
        return false;
    }
    if !is_bytes(size) {
        return false;
    }
    let mut bytes = [0u8; 32768];
    let total = n * size;
    let got = io::read_full(STDIN, &mut bytes[..total]);
    if got != total {
        return false;
    }
    numbers(&bytes, n, size, out);
    true
}

// Whether an element can have so many bytes.
fn is_bytes(size: usize) -> bool
    ensures { result ≡ is_size size }
{
    ((size == 1) | (size == 2)) | ((size == 4) | (size == 8))
}

// Writes the first n numbers of size bytes each to the front of out.
fn numbers(bytes: &[u8; 32768], n: usize, size: usize, out: &mut [u64])
    requires n_bound { n ≤ 4096 }
    requires n_in_bounds { n ≤ length out.old }
    requires size_value { is_size size ≡ true }
    ensures { out.new
        ≡ over 0 (tab n (λ k. little bytes.now (k * size) size)) out.old }
{
    for i in 0..n {
        out[i] = element(bytes, i * size, size);
    }
}

// The number whose bytes, lowest first, are those from place at on.
fn element(bytes: &[u8], at: usize, size: usize) -> u64
    requires size_in_bounds { at + size ≤ length bytes.now }
    requires size_value { is_size size ≡ true }
    ensures { result ≡ little bytes.now at size }
{
    match size {
        1 => Streamed::widen(bytes[at]),
        2 => pair(bytes, at).widen(),
        4 => quad(bytes, at).widen(),
        _ => word(bytes, at),
    }
}

// Reads n bytes to the front of out, and answers whether they were all there. What does not fit is not read.
pub fn read_bytes(n: usize, out: &mut [u8]) -> bool {
    if n == 0 {
        return true;
    }
    if out.len() < n {
        return false;
    }
    let got = io::read_full(STDIN, &mut out[..n]);
    got == n
}

// The same for n times eight bytes.
pub fn read_eights(n: usize, out: &mut [u8]) -> bool {
    if out.len() / 8 < n {
        return false;
    }
    read_bytes(8 * n, out)
}

// Reads n numbers of eight bytes each to the front of out, by way of bytes, and answers whether they were all there.
pub fn read_words(n: usize, bytes: &mut [u8], out: &mut [u64]) -> bool {
    if out.len() < n {
        return false;
    }
    if !read_eights(n, bytes) {
        return false;
    }
    little::read_words(bytes, &mut out[..n]);
    true
}
