// A packed u64 body that comes in chunks (R70 to R75), for programs in C and in Rust. The program keeps the state,
// which is three things: the width, how many bytes are held, and the room for them. The calls are lent these one by
// one.
ghost use Rattle.std.specs.Prelude.{◌≡◌};
ghost use Rattle.trickle.specs.Trickle.{started_of, fed_of, ask_answer, ask_leaves};
ghost use Rattle.exports.specs.ChunksHanded.{AskHanded, StartHanded, FedHanded, state_of};

use trickle::{Fed, Started, State, TrickleAnswer, ask, feed, start};

// Room for the longest body.
pub type Room = [u8; 8192];

// Begins a body of the width that is asked for, with nothing held; refused, the state is that of width 0.
#[unsafe(no_mangle)]
pub extern "C" fn fascjoldi_trickle_start(
    asked: usize,
    width: &mut usize,
    held: &mut usize,
    room: &mut Room,
    place: &mut usize,
) -> usize
    ensures { StartHanded (started_of asked) result width.new held.new room.new place.new }
{
    hand_started(start(asked), width, held, room, place)
}

// Feeds a chunk to a state, and gives how many of its bytes were taken: all, or what the body still lacked. A state
// that no call has left, of a width above 64 or with more bytes held than its body has, counts as that of width 0, and
// is left so.
#[unsafe(no_mangle)]
pub extern "C" fn fascjoldi_trickle_feed(
    width: &mut usize,
    held: &mut usize,
    room: &mut Room,
    chunk: &[u8],
) -> usize
    ensures { FedHanded (fed_of (state_of width.old held.old room.old) chunk.now) result
        width.new held.new room.new }
{
    let state = State {
        width: *width,
        held: *held,
        room: *room,
    };
    hand_fed(feed(state, chunk), width, held, room)
}

// Lays down the 1,024 values of a state when the bytes of its body are all there.
#[unsafe(no_mangle)]
pub extern "C" fn fascjoldi_trickle_ask(
    width: usize,
    held: usize,
    room: &Room,
    output: &mut [u64],
    place: &mut usize,
) -> usize
    ensures ask_handed { AskHanded (ask_answer (state_of width held room.now) output.old) result place.new }
    ensures output_after { output.new ≡ ask_leaves (state_of width held room.now) output.old }
{
    let state = State {
        width,
        held,
        room: *room,
    };
    hand(ask(state, output), place)
}

// Hands the answer over: its place through the lent number, and its number as the result.
fn hand(answer: TrickleAnswer, place: &mut usize) -> usize
    ensures { AskHanded answer result place.new }
{
    *place = answer.place();
    answer.number()
}

// Hands over what a start gives.
fn hand_started(
    started: Started,
    width: &mut usize,
    held: &mut usize,
    room: &mut Room,
    place: &mut usize,
) -> usize
    ensures { StartHanded started result width.new held.new room.new place.new }
{
    let state = started.state;
    *width = state.width;
    *held = state.held;
    let bytes = state.room;
    *room = bytes;
    let answer = started.answer;
    hand(answer, place)
}

// Hands over what a feed gives.
fn hand_fed(fed: Fed, width: &mut usize, held: &mut usize, room: &mut Room) -> usize
    ensures { FedHanded fed result width.new held.new room.new }
{
    let state = fed.state;
    *width = state.width;
    *held = state.held;
    let bytes = state.room;
    *room = bytes;
    fed.taken
}
