// The calls on blocks: which they are, and what each takes. The modules of the sizes make them, and bit_block those
// on bit blocks.
ghost use Rattle.std.specs.Prelude.{◌≡◌, ◌/◌};

use stream::Head;

// Whether the call is one on a block. The numbers up to 14 are theirs, the one of a call that has left with them.
pub fn is_block(op: u8) -> bool {
    op <= 14 || op == 23 || (27 <= op && op <= 29)
}

// Whether a record can have this head: one of the four sizes, zeros where zeros are due, and no buffer above 4,096
// elements. Whether there is such an op, the modules of the sizes say when they are asked to make the call.
pub fn is_possible(head: Head) -> bool {
    is_size(head.t)
        && (head.op != 14 || head.t == 64)
        && head.zero == 0
        && head.n_a <= 4096
        && head.n_b <= 4096
        && head.n_c <= 4096
        && head.n_d <= 4096
}

// How many bytes an element has, in each buffer.
pub fn bytes_a(head: Head) -> usize {
    let op = head.op;
    match op {
        13 | 14 => 8,
        _ => bytes_of(head.t),
    }
}

pub fn bytes_b(head: Head) -> usize {
    let op = head.op;
    match op {
        3 | 23 => 8,
        10 => 2,
        _ => bytes_of(head.t),
    }
}

pub fn bytes_c(head: Head) -> usize {
    bytes_a(head)
}

pub fn bytes_d(head: Head) -> usize {
    bytes_of(head.t)
}

fn is_size(t: u8) -> bool {
    t == 8 || t == 16 || t == 32 || t == 64
}

fn bytes_of(t: u8) -> usize
    ensures { result ≡ t / 8 }
{
    (t / 8) as usize
}
