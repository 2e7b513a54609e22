// The calls on files, drawers and a body that trickles in: what each takes, and how those on files are made. A call has
// a line in `takes`; one that reads a file has a line in `call`, those that write a file are made by `write`, `rewrite`
// and `renumber`, the calls on drawers are made in the modules drawer of the sizes, and those on a body that trickles
// in in trickles.
ghost use Rattle.std.specs.Prelude.{◌≡◌};
ghost use Rattle.contents.specs.Answers.{number_of, place_of};
ghost use Rattle.stream.specs.declared.Reply.TheVariants.{Given};

use access::NO_COUNT;
use contents::{FileAnswer, FileRefusal, number_of, place_of};
use files::Row;
use renumber::{RenumberRefusal, Renumbered};
use search::Found;
use stream::{Head, Reply};

// What a call takes: for each buffer the bytes of an element, 0 where it takes no such buffer, and whether it takes
// an index.
#[derive(Clone, Copy)]
struct Intake {
    a: usize,
    b: usize,
    c: usize,
    index: bool,
}

impl Intake {
    fn of(a: usize, b: usize, c: usize, index: bool) -> Self {
        Self { a, b, c, index }
    }
}

// A call that is not made here takes nothing. The elements of a drawer have the size of the case.
fn takes(op: u8, size: usize) -> Intake {
    match op {
        16 => Intake::of(1, 0, 0, false),
        17 => Intake::of(1, 0, 8, true),
        18 => Intake::of(1, 0, 0, true),
        19 => Intake::of(8, 0, 1, false),
        20 => Intake::of(1, 8, 8, false),
        21 => Intake::of(1, 0, 1, false),
        22 => Intake::of(1, 0, 0, false),
        24 | 25 => Intake::of(size, 0, size, true),
        26 => Intake::of(1, 8, 8, false),
        30 => Intake::of(1, 8, 8, true),
        31 => Intake::of(1, 8, 1, true),
        _ => Intake::of(0, 0, 0, false),
    }
}

// Whether the call is one on a drawer. Then it takes a width, and elements of any size.
pub fn is_drawer(op: u8) -> bool {
    op == 24 || op == 25
}

// Whether the call is one on a body that trickles in. Then it takes a width.
pub fn is_trickle(op: u8) -> bool {
    op == 26 || op == 30
}

// Whether call 30 can have this state: the one that a start gave, or one made by hand, whose room is there.
fn is_trickle_state(head: Head) -> bool {
    head.reference == 1 || (head.reference == 0 && 8192 <= head.n_a)
}

// Whether the record has the bounds that its call takes: a search has two.
fn has_bounds(head: Head) -> bool {
    head.op != 20 || head.n_b == 2
}

// Whether the record has the lists that its call takes: of a renumbering the reference says how many numbers of b are
// old, the index how many behind them are new, and the rest is the order.
fn has_lists(head: Head) -> bool {
    let n = head.n_b as u64;
    head.op != 31 || (head.reference <= n && head.index <= n - head.reference)
}

// Whether a record can have this head.
pub fn is_possible(head: Head) -> bool {
    let takes = takes(head.op, (head.t / 8) as usize);
    (head.t == 64 || (is_drawer(head.op) && is_small(head.t)))
        && (is_drawer(head.op) || is_trickle(head.op) || head.width == 0)
        && (head.op != 30 || is_trickle_state(head))
        && has_bounds(head)
        && has_lists(head)
        && head.zero == 0
        && (takes.index || head.index == 0)
        && fits(head.n_a, takes.a)
        && fits(head.n_b, takes.b)
        && fits(head.n_c, takes.c)
        && head.n_d == 0
}

// Whether t is one of the sizes below 64.
fn is_small(t: u8) -> bool {
    t == 8 || t == 16 || t == 32
}

// Whether a buffer can have n elements of this size: at most 2,200,000 bytes, and none of an element without size.
fn fits(n: usize, size: usize) -> bool {
    match size {
        0 => n == 0,
        _ => n <= 2_200_000 / size,
    }
}

// Whether the call writes a file. Then a are numbers and c are bytes, where a call that reads a file has bytes as a and
// numbers as c.
pub fn writes(op: u8) -> bool {
    op == 19
}

// Whether the call reads a file and writes one. Then both a and c are bytes.
pub fn rewrites(op: u8) -> bool {
    op == 21
}

// Whether the call renumbers a file. Then both a and c are bytes, and b has the lists.
pub fn renumbers(op: u8) -> bool {
    op == 31
}

// Makes the call that reads a file on the buffers that it takes. Where there is no such call, nothing is given back.
pub fn call(head: Head, a: &[u8], bounds: &[u64; 2], c: &mut [u64]) -> Reply {
    let op = head.op;
    let index = head.index as usize;
    match op {
        16 => reply(files::check(a), 0),
        17 => reply(files::block_out(a, index, c), 0),
        18 => of_row(files::row_at(a, index)),
        20 => of_found(search::search(a, bounds[0], bounds[1], c)),
        22 => reply(canonical::check(a), 0),
        _ => Reply::Unknown,
    }
}

// Makes the call that writes a file.
pub fn write(values: &[u64], output: &mut [u8]) -> Reply {
    of_written(writer::write(values, output))
}

// Makes the call that rewrites a file.
pub fn rewrite(file: &[u8], output: &mut [u8]) -> Reply {
    of_written(rewrite::rewrite(file, output))
}

// Makes the call that renumbers a file.
pub fn renumber(
    head: Head,
    file: &[u8],
    old: &[u64],
    new: &[u64],
    order: &[u64],
    output: &mut [u8],
) -> Reply {
    of_renumbered(head, renumber::renumber(file, old, new, order, output))
}

// The reply of a call on a file that gives back no reference.
fn reply(answer: FileAnswer, value: u64) -> Reply
    ensures { result ≡ Given (number_of answer) (place_of answer) value 0 0 }
{
    Reply::Given {
        number: number_of(answer) as u64,
        place: place_of(answer) as u64,
        value,
        reference: 0,
        index: 0,
    }
}

// Of a refused lookup the value is 0. The count of words is given back as the reference, and there 2^64 - 1 says that
// there is none.
fn of_row(found: Result<Row, FileRefusal>) -> Reply {
    match found {
        Ok(row) => reply(Ok(()), row.value).with_reference(row.words.unwrap_or(NO_COUNT)),
        Err(refusal) => reply(Err(refusal), 0).with_reference(NO_COUNT),
    }
}

// Of a refused search no row is listed.
fn of_found(listed: Result<Found, FileRefusal>) -> Reply {
    match listed {
        Ok(found) => reply(Ok(()), found.rows as u64),
        Err(refusal) => reply(Err(refusal), 0),
    }
}

// Of a refused write the length is 0.
fn of_written(written: Result<usize, FileRefusal>) -> Reply {
    match written {
        Ok(length) => reply(Ok(()), length as u64),
        Err(refusal) => reply(Err(refusal), 0),
    }
}

// A renumbering gives back the length times 2^32 and the count of rows that changed in one value; of a refused one both
// are 0. What it takes as the reference and the index stays.
fn of_renumbered(head: Head, renumbered: Result<Renumbered, RenumberRefusal>) -> Reply {
    match renumbered {
        Ok(given) => {
            let length = given.length as u64;
            stayed(head, 0, 0, (length << 32) | (given.changed as u64))
        }
        Err(refusal) => stayed(head, refusal.number(), refusal.place(), 0),
    }
}

// The reply of a call whose reference and index stay.
fn stayed(head: Head, number: usize, place: usize, value: u64) -> Reply {
    Reply::Given {
        number: number as u64,
        place: place as u64,
        value,
        reference: head.reference,
        index: head.index,
    }
}
