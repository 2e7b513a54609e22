// Says what differs between two column files (R118 to R121): compares left.col with right.col in the folder where it is
// run, and writes to standard output a line for each row whose numbers differ, `row left right`, rising; then
// `rows A B` where the row counts differ; and then `differences K`. Both files are checked before anything is listed,
// and the first bad one, left before right, gives the only line, `refused left X Y` or `refused right X Y`.
//
// What is read and what is written, and in which order, the machine of the crate listing says; here its wishes are
// granted one after another. This is to be read beside `granted` and `runs_by` in the definitions of the crate wishes,
// which say the same of lists. A file that does not open is one of no bytes, and so is one that cannot be read. A write
// that fails ends the run, since nothing could be printed behind it: of that the definitions do not speak.
#![tactic(auto)]

ghost use Rattle.std.specs.Prelude.{◌≡◌, ◌≤◌, length, take};

use console::lines::write_out;
use console::read::{length_of, read_at};
use listing::{State, Turn, next, start, turns};
use std::fs::File;
use std::io::{Error, Write};
use std::rt::Files;
use std::str;
use wishes::{Part, Side, Wish};

// The room for the front of a file, and for a body.
const FRONT: usize = 8196;

const BODY: usize = 10240;

fn main(rt: HostRuntime) {
    let left = opened(&rt, "left.col");
    let right = opened(&rt, "right.col");
    let mut left_front = [0u8; FRONT];
    let mut right_front = [0u8; FRONT];
    let mut left_body = [0u8; BODY];
    let mut right_body = [0u8; BODY];
    let mut out = [0u8; 65536];
    run(
        left.as_ref(),
        right.as_ref(),
        &mut left_front,
        &mut right_front,
        &mut left_body,
        &mut right_body,
        &mut out,
    );
}

// The open file of that name. The system's words go to standard error where it does not open.
fn opened(rt: &(impl Files<File = File> + Eprint), name: &str) -> Option<File> {
    match File::open(rt, name) {
        Ok(file) => Some(file),
        Err(error) => {
            say_why(rt, name, error);
            None
        }
    }
}

// Writes a line to standard error: the name of the file, and why it does not open. That this fails changes nothing.
fn say_why(rt: &impl Eprint, name: &str, error: Error) {
    let mut text = [0u8; 256];
    let n = put_error(error, &mut text);
    let words = without_number(str::from_utf8(&text[..n]).unwrap_or(""));
    let _ = eprintln!(rt; "{name}: {words}");
}

// Puts the text of an error, as std writes it, at the front of a buffer, as much as has room, and says how many bytes
// that is.
fn put_error(error: Error, text: &mut [u8]) -> usize
    ensures { result ≤ length text.old }
{
    let most = text.len();
    let mut rest = text;
    let _ = write!(rest, "{error}");
    most.saturating_sub(rest.len())
}

// The system's words, without the number of the error, which std writes behind them.
fn without_number(text: &str) -> &str {
    match text.rsplit_once(" (os error ") {
        Some((words, _)) => words,
        None => text,
    }
}

// How many bytes the buffers of one file hold,
#[derive(Clone, Copy)]
struct Filled {
    front: usize,
    body: usize,
}

// and those of both; and whether the run goes on.
#[derive(Clone, Copy)]
struct Held {
    left: Filled,
    right: Filled,
    on: bool,
}

// A turn of the machine, and what the buffers hold then.
#[derive(Clone, Copy)]
struct Now {
    turn: Turn,
    held: Held,
}

// The machine is given as many turns as it needs.
fn run(
    left: Option<&File>,
    right: Option<&File>,
    left_front: &mut [u8],
    right_front: &mut [u8],
    left_body: &mut [u8],
    right_body: &mut [u8],
    out: &mut [u8],
) {
    let mut now = Now {
        turn: start(length_of(left), length_of(right)),
        held: Held {
            left: Filled { front: 0, body: 0 },
            right: Filled { front: 0, body: 0 },
            on: true,
        },
    };
    let mut more = turns();
    while more > 0 {
        now = take_turn(
            now,
            left,
            right,
            left_front,
            right_front,
            left_body,
            right_body,
            out,
        );
        if !now.held.on {
            return;
        }
        more -= 1;
    }
}

// A turn grants the wish, and then the machine is shown what the buffers hold, and says what it wishes next.
fn take_turn(
    now: Now,
    left: Option<&File>,
    right: Option<&File>,
    left_front: &mut [u8],
    right_front: &mut [u8],
    left_body: &mut [u8],
    right_body: &mut [u8],
    out: &mut [u8],
) -> Now {
    let turn = now.turn;
    let before = now.held;
    let wish = turn.wish;
    let state = turn.state;
    let held = grant(
        wish,
        left,
        right,
        before,
        left_front,
        right_front,
        left_body,
        right_body,
        out,
    );
    if !held.on {
        return Now { turn, held };
    }
    Now {
        turn: follow(
            state,
            held,
            left_front,
            right_front,
            left_body,
            right_body,
            out,
        ),
        held,
    }
}

// A read fills its buffer with the part of its file, and a write writes the front of the output. Where there is no room
// for a read, and where a write fails, the run stops.
fn grant(
    wish: Wish,
    left: Option<&File>,
    right: Option<&File>,
    held: Held,
    left_front: &mut [u8],
    right_front: &mut [u8],
    left_body: &mut [u8],
    right_body: &mut [u8],
    out: &[u8],
) -> Held {
    let of_left = held.left;
    let of_right = held.right;
    match wish {
        Wish::Read(side, part, at, n) => match side {
            Side::Left => Held {
                left: fill(left, part, at, n, of_left, left_front, left_body),
                right: of_right,
                on: n <= room_of(part),
            },
            Side::Right => Held {
                left: of_left,
                right: fill(right, part, at, n, of_right, right_front, right_body),
                on: n <= room_of(part),
            },
        },
        Wish::Write(n) => Held {
            left: of_left,
            right: of_right,
            on: write_out(out, n),
        },
        Wish::Done => Held {
            left: of_left,
            right: of_right,
            on: false,
        },
    }
}

fn room_of(part: Part) -> usize {
    match part {
        Part::Front => FRONT,
        Part::Body => BODY,
    }
}

// Reads n bytes of a file from `at` on into one of its buffers.
fn fill(
    file: Option<&File>,
    part: Part,
    at: usize,
    n: usize,
    held: Filled,
    front: &mut [u8],
    body: &mut [u8],
) -> Filled {
    match part {
        Part::Front => Filled {
            front: read_part(file, at, n, front),
            body: held.body,
        },
        Part::Body => Filled {
            front: held.front,
            body: read_part(file, at, n, body),
        },
    }
}

// Reads n bytes from `at` on to the front of a buffer, and says how many are there.
fn read_part(file: Option<&File>, at: usize, n: usize, part: &mut [u8]) -> usize
    ensures { result ≤ length part.old }
{
    if part.len() < n {
        return 0;
    }
    read_at(file, at, &mut part[..n])
}

// The next turn of the machine.
fn follow(
    state: State,
    held: Held,
    left_front: &[u8],
    right_front: &[u8],
    left_body: &[u8],
    right_body: &[u8],
    out: &mut [u8],
) -> Turn {
    next(
        state,
        front_of(left_front, held.left.front),
        front_of(right_front, held.right.front),
        front_of(left_body, held.left.body),
        front_of(right_body, held.right.body),
        out,
    )
}

// The first n bytes of a buffer, or all where it has fewer.
fn front_of(buffer: &[u8], n: usize) -> &[u8]
    ensures { result.now ≡ take n buffer.now }
{
    if n < buffer.len() {
        return &buffer[..n];
    }
    buffer
}
