// A packed u64 body that comes in chunks (R70 to R75): chunks of any length are fed to a state, and when the bytes of
// the body are all there, the state is asked for the values.
//
// A state is a struct with public fields, so that one may be handed in that no start gave. One that cannot be the state
// of a body counts as the state that a refused start gives, and feed and ask go by the state that counts.
#![tactic(auto)]

ghost use Rattle.std.specs.Prelude.{◌≡◌, ◌+◌, ◌*◌, ◌≤◌, min, length, take};
ghost use Rattle.lists.specs.Tab.{over};
ghost use Rattle.places.specs.Sizes.{t64};
ghost use Rattle.packing.specs.Packed.{unpack_of};
ghost use Rattle.little.specs.Little.{numbers_of};
ghost use Rattle.trickle.specs.Answers.{number_of, place_of};
ghost use Rattle.trickle.specs.Trickle.{can_be, counts_as, started_of, fed_of, ask_answer, ask_leaves};

use little::read_words;
use packing::unpack;

// What start and ask answer: that the call is done, or why it is refused.
#[derive(Clone, Copy)]
pub enum TrickleAnswer {
    Done,
    // the width is above 64
    Width,
    // the output is not 1,024 long
    Block,
    // the values are asked for too early; the bytes held so far
    Early(usize),
}

impl TrickleAnswer {
    // The number that stands for the answer: 0 where the call is done.
    pub fn number(self) -> usize
        ensures { result ≡ number_of self }
    {
        match self {
            TrickleAnswer::Done => 0,
            TrickleAnswer::Width => 1,
            TrickleAnswer::Block => 2,
            TrickleAnswer::Early(_) => 16,
        }
    }

    // The place that is given back with the number.
    pub fn place(self) -> usize
        ensures { result ≡ place_of self }
    {
        match self {
            TrickleAnswer::Early(p) => p,
            TrickleAnswer::Done => 0,
            TrickleAnswer::Width => 0,
            TrickleAnswer::Block => 0,
        }
    }
}

// A body on its way: its width, how many bytes of it are held, and room for the longest body. The bytes held stand at
// the front of the room, and what stands behind them plays no part.
#[derive(Clone, Copy)]
pub struct State {
    pub width: usize,
    pub held: usize,
    pub room: [u8; 8192],
}

// What start gives.
#[derive(Clone, Copy)]
pub struct Started {
    pub answer: TrickleAnswer,
    pub state: State,
}

// What feed gives: how many bytes of the chunk it took, and the state with them.
#[derive(Clone, Copy)]
pub struct Fed {
    pub taken: usize,
    pub state: State,
}

// The state of a body of this width with nothing held; of width 0 where the call is refused.
pub fn start(width: usize) -> Started
    ensures { result ≡ started_of width }
{
    let room = [0u8; 8192];
    if 64 < width {
        return Started {
            answer: TrickleAnswer::Width,
            state: State {
                width: 0,
                held: 0,
                room,
            },
        };
    }
    Started {
        answer: TrickleAnswer::Done,
        state: State {
            width,
            held: 0,
            room,
        },
    }
}

// Takes the chunk, or what the body still lacks, whichever is shorter.
pub fn feed(state: State, chunk: &[u8]) -> Fed
    ensures { result ≡ fed_of state chunk.now }
{
    let counts = counted(state);
    let width = counts.width;
    let held = counts.held;
    let taken = shorter(chunk.len(), 128 * width - held);
    let mut room = counts.room;
    copy_in(&mut room, held, chunk, taken);
    Fed {
        taken,
        state: State {
            width,
            held: held + taken,
            room,
        },
    }
}

// Lays down the 1,024 values when the bytes of the body are all there.
pub fn ask(state: State, output: &mut [u64]) -> TrickleAnswer
    ensures value { result ≡ ask_answer state output.old }
    ensures output_after { output.new ≡ ask_leaves state output.old }
{
    let counts = counted(state);
    let width = counts.width;
    let held = counts.held;
    if output.len() != 1024 {
        return TrickleAnswer::Block;
    }
    if held < 128 * width {
        return TrickleAnswer::Early(held);
    }
    let room = counts.room;
    values_out(width, &room[..held], output);
    TrickleAnswer::Done
}

// The state that this one counts as: itself, or that of a refused start where there can be no such state.
fn counted(state: State) -> State
    ensures { result ≡ counts_as state }
{
    if can_be(state.width, state.held) {
        return state;
    }
    let none = start(0);
    none.state
}

// Whether there can be a state of this width with so many bytes held.
fn can_be(width: usize, held: usize) -> bool
    ensures { result ≡ can_be width held }
{
    (width <= 64) && (held <= 128 * width)
}

fn shorter(a: usize, b: usize) -> usize
    ensures { result ≡ min a b }
{
    if a < b {
        return a;
    }
    b
}

// Writes the first n bytes of `from` over those of `to` from place `at` on.
fn copy_in(to: &mut [u8], at: usize, from: &[u8], n: usize)
    requires n_in_bounds { at + n ≤ length to.old }
    requires n_in_bounds_2 { n ≤ length from.now }
    ensures { to.new ≡ over at (take n from.now) to.old }
{
    for i in 0..n {
        to[at + i] = from[i];
    }
}

// The values of a whole body. Its words go by way of an array, of which the part that they fill is lent.
fn values_out(width: usize, body: &[u8], output: &mut [u64])
    requires width_bound { width ≤ 64 }
    requires body_len { length body.now ≡ 128 * width }
    requires output_len { length output.old ≡ 1024 }
    ensures { output.new ≡ unpack_of t64 width (numbers_of 8 body.now (16 * width)) }
{
    let mut words = [0u64; 1024];
    let n = width * 16;
    values_through(width, body, &mut words[..n], output);
}

fn values_through(width: usize, body: &[u8], words: &mut [u64], output: &mut [u64])
    requires width_bound { width ≤ 64 }
    requires body_len { length body.now ≡ 128 * width }
    requires words_len { length words.old ≡ 16 * width }
    requires output_len { length output.old ≡ 1024 }
    ensures { output.new ≡ unpack_of t64 width (numbers_of 8 body.now (16 * width)) }
{
    read_words(body, words);
    unpack(width, words, output);
}
