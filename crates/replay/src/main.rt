// Replays a case stream: reads it on standard input, makes each call through the public functions, compares everything
// that the call gives back and leaves with what the stream expects, and prints how many cases differ. The format of the
// stream and of what is printed is docs/CASES.md.
//
// The calls are of two sorts. Those on blocks have small buffers, and what a call does not take may be there; a record
// of the others, on column files, drawers and a body that comes in chunks, ends the reading as a bad stream where it
// gives something that its call does not take. Of what is expected nothing is impossible: a value, a place or a
// reference that a call does not give back is expected to be 0, and a case that expects something else differs.
//
// Here stand the loop over the cases and the way to each. Of the modules, wire reads the stream. block_calls says what
// the calls on blocks take, and block_cases has their cases: t8, t16, t32 and t64 make the calls, with the help of
// indices, and bit_block those on bit blocks; outcome compares. file_calls says what the others take; file_cases makes
// the calls on files but for the one that rewrites a file, which rewrites makes, and the one that renumbers one, which
// renumberings makes; the module drawer of each size makes those on drawers, and trickles those on a body that comes in
// chunks. print prints. The crate stream has the head of a record, the judge and the counts.
#![tactic(auto)]

mod bit_block;
mod block_calls;
mod block_cases;
mod file_calls;
mod file_cases;
mod indices;
mod outcome;
mod print;
mod renumberings;
mod rewrites;
mod t16;
mod t32;
mod t64;
mod t8;
mod trickles;
mod wire;

use block_calls::is_block;
use file_calls::{is_drawer, is_trickle, renumbers, rewrites};
use print::{print_bad, print_tally};
use stream::{Head, Step, Tally};
use wire::{Beginning, read_head};

// How the reading ended.
#[derive(Clone, Copy)]
enum Ending {
    // at a record's end, with the counts of all cases
    Good(Tally),
    // in the case with this number
    Bad(u64),
}

fn main() {
    let ending = replay();
    match ending {
        Ending::Good(tally) => print_tally(tally),
        Ending::Bad(at) => print_bad(at),
    }
}

// All cases, one after another. A proved loop has to end, and nothing says that the stream does, so the loop counts
// its turns down from a number that no stream uses up.
fn replay() -> Ending {
    let mut tally = Tally::new();
    let mut turns = u64::MAX;
    while turns > 0 {
        let step = next();
        match step {
            Step::End => return Ending::Good(tally),
            Step::Bad => return Ending::Bad(tally.cases),
            Step::Same => {
                let counted = tally.same();
                tally = counted;
            }
            Step::Differs(head) => {
                let counted = tally.differs(head);
                tally = counted;
            }
        }
        turns -= 1;
    }
    Ending::Good(tally)
}

// The next case: its head, and the rest of it by the sort of its call.
fn next() -> Step {
    let beginning = read_head();
    match beginning {
        Beginning::End => Step::End,
        Beginning::Cut => Step::Bad,
        Beginning::Whole(head) => {
            if is_block(head.op) {
                block_case(head)
            } else {
                other_case(head)
            }
        }
    }
}

// The case of a call on blocks, where a record can have this head.
fn block_case(head: Head) -> Step {
    if block_calls::is_possible(head) {
        block_cases::case(head)
    } else {
        Step::Bad
    }
}

// The same of the other calls, those that there are not among them.
fn other_case(head: Head) -> Step {
    if file_calls::is_possible(head) {
        case(head)
    } else {
        Step::Bad
    }
}

// A case after its head. The buffers of a case are large, and each way makes its own: those that are never there
// together share their room on the stack.
fn case(head: Head) -> Step {
    if is_drawer(head.op) {
        return drawer_case(head);
    }
    if is_trickle(head.op) {
        return trickles::case(head);
    }
    if rewrites(head.op) {
        return rewrites::case(head);
    }
    if renumbers(head.op) {
        return renumberings::case(head);
    }
    file_cases::case(head)
}

// The case of a call on a drawer, at the size of its elements.
fn drawer_case(head: Head) -> Step {
    let t = head.t;
    match t {
        8 => t8::drawer::case(head),
        16 => t16::drawer::case(head),
        32 => t32::drawer::case(head),
        _ => t64::drawer::case(head),
    }
}
