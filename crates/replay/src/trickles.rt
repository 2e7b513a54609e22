// The cases of a body that trickles in (R70 to R75): how the buffers are read, a state started or made by hand, fed
// chunk by chunk and asked, and what it left compared.
ghost use Rattle.std.specs.Prelude.{◌≤◌};

use crate::file_cases::judge;
use crate::wire::{read_bytes, read_eights, read_words};
use crate::{t8, t64};
use stream::elements::Streamed;
use stream::{Head, Reply, Step};
use trickle::{Fed, Started, State, TrickleAnswer, ask, feed, start};

// The bytes that a state has room for: a state made by hand has them at the front of what the case gives.
const ROOM: usize = 8192;

// A case after its head. The buffers are made here: the bytes that are fed, the lengths of the chunks and then c, and
// the bytes of what is read last.
pub fn case(head: Head) -> Step {
    let mut fed = [0u8; 2_200_000];
    let mut numbers = [0u64; 275_000];
    let mut bytes = [0u8; 2_200_000];
    lend(head, &mut fed, &mut numbers, &mut bytes)
}

fn lend(
    head: Head,
    fed: &mut [u8; 2_200_000],
    numbers: &mut [u64; 275_000],
    bytes: &mut [u8; 2_200_000],
) -> Step {
    made(head, fed, numbers, bytes)
}

// Reads the bytes and the lengths and feeds them.
fn made(head: Head, fed: &mut [u8], numbers: &mut [u64], bytes: &mut [u8]) -> Step {
    if !read_bytes(head.n_a, fed) {
        return Step::Bad;
    }
    if !read_words(head.n_b, bytes, numbers) {
        return Step::Bad;
    }
    let trickled = feed_case(head, fed, numbers);
    asked(head, trickled, numbers, bytes)
}

// What came of the start and of the chunks: the answer to the start, the bytes taken in all, and the state.
#[derive(Clone, Copy)]
struct Trickled {
    first: TrickleAnswer,
    taken: usize,
    state: State,
}

// Begins with a state and feeds it.
fn feed_case(head: Head, fed: &[u8], lengths: &[u64]) -> Trickled {
    let begun = begin(head, fed);
    let first = begun.answer;
    let state = begun.state;
    let done = feed_parts(head, state, fed, lengths);
    let after = done.state;
    Trickled {
        first,
        taken: done.taken,
        state: after,
    }
}

// Reads c, asks and compares. Where the start is refused by call 26, nothing is asked.
fn asked(head: Head, trickled: Trickled, c: &mut [u64], bytes: &mut [u8]) -> Step {
    if !read_words(head.n_c, bytes, c) {
        return Step::Bad;
    }
    if !read_eights(head.n_c, bytes) {
        return Step::Bad;
    }
    let first = trickled.first;
    if (head.op == 26) & (first.number() != 0) {
        return judge(head, given(head, first, 0), c, bytes);
    }
    let state = trickled.state;
    let answer = ask_part(head, state, c);
    judge(head, given(head, answer, trickled.taken), c, bytes)
}

// The state that the case begins with: by call 30 with reference 0 one that is made by hand, and else the one that
// start gives, which is an answer of its own by call 26 alone.
fn begin(head: Head, fed: &[u8]) -> Started {
    if by_hand(head) {
        let room = room_of(fed);
        return Started {
            answer: TrickleAnswer::Done,
            state: State {
                width: head.width as usize,
                held: head.index as usize,
                room,
            },
        };
    }
    start(head.width as usize)
}

fn by_hand(head: Head) -> bool {
    (head.op == 30) & (head.reference == 0)
}

// The first bytes as the room of a state.
fn room_of(bytes: &[u8]) -> [u8; 8192] {
    let mut room = [0u8; 8192];
    for i in 0..8192 {
        room[i] = Streamed::read(bytes, i);
    }
    room
}

// Feeds the bytes that the case gives, behind the room of a state that is made by hand, in chunks of the lengths that
// it gives.
fn feed_parts(head: Head, state: State, fed: &[u8], lengths: &[u64]) -> Fed {
    let n = t8::within(head.n_a, fed);
    let m = t64::within(head.n_b, lengths);
    let from = if by_hand(head) { ROOM } else { 0 };
    feed_all(state, &fed[..n], from, &lengths[..m])
}

// Feeds one chunk after another, from byte `from` on. Where the bytes end, a chunk does.
fn feed_all(state: State, bytes: &[u8], from: usize, lengths: &[u64]) -> Fed {
    let mut now = state;
    let mut taken = 0;
    let mut at = end_of(0, from, bytes.len());
    for i in 0..lengths.len() {
        let end = end_of(at, lengths[i] as usize, bytes.len());
        let fed = feed(now, &bytes[at..end]);
        let next = fed.state;
        now = next;
        taken = std::num::wrapping_add_usize(taken, fed.taken);
        at = end;
    }
    Fed { taken, state: now }
}

// Where a chunk of n bytes ends that begins at `at`, of so many bytes in all.
fn end_of(at: usize, n: usize, all: usize) -> usize
    requires { at ≤ all }
    ensures { (at ≤ result) × (result ≤ all) }
{
    if n < all - at {
        return at + n;
    }
    all
}

fn ask_part(head: Head, state: State, c: &mut [u64]) -> TrickleAnswer {
    let m = t64::within(head.n_c, c);
    ask(state, &mut c[..m])
}

// The reply: the bytes taken in all are its value, and reference and index are as they were given.
fn given(head: Head, answer: TrickleAnswer, taken: usize) -> Reply {
    Reply::Given {
        number: answer.number() as u64,
        place: answer.place() as u64,
        value: taken as u64,
        reference: head.reference,
        index: head.index,
    }
}
