// The machine that lists what two column files differ in (R127, R131), for programs in C and in Rust. The program keeps
// the state, which is eight numbers that it lends to each call as the call before left them; it reads and writes what
// the calls wish for.
ghost use Rattle.std.specs.Prelude.{◌≡◌};
ghost use Rattle.wishes.specs.Runs.{held};
ghost use Rattle.listing.specs.Machine.{start_of, most_turns, turn_of, next_of};
ghost use Rattle.exports.specs.MachineHanded.{side_number, side_of, part_number, stage_number, stage_side, stage_of, state_numbers, state_of, wish_number, wish_side, wish_part, wish_start, wish_length, TurnHanded};

use listing::{Place, Stage, State, Turn, next, turns};
use wishes::{Part, Side, Wish};

// A state in numbers.
pub type Numbers = [u64; 8];

// Begins the list for files of these sizes in bytes, and gives the first wish.
#[unsafe(no_mangle)]
pub extern "C" fn fascjoldi_listing_start(
    left_size: usize,
    right_size: usize,
    state: &mut Numbers,
    side: &mut usize,
    part: &mut usize,
    start: &mut usize,
    length: &mut usize,
) -> usize
    ensures { TurnHanded (start_of left_size right_size) state.new result side.new part.new
        start.new length.new }
{
    hand_turn(
        listing::start(left_size, right_size),
        state,
        side,
        part,
        start,
        length,
    )
}

// Gives the next wish, after the last one was granted. The four buffers are what the last read into each gave, cut
// short where the file has fewer bytes, and of no bytes where nothing was read into it yet. The output is lent to each
// call as the call before left it; one that is shorter than 65,536 bytes ends the list.
#[unsafe(no_mangle)]
pub extern "C" fn fascjoldi_listing_next(
    state: &mut Numbers,
    left_front: &[u8],
    right_front: &[u8],
    left_body: &[u8],
    right_body: &[u8],
    output: &mut [u8],
    side: &mut usize,
    part: &mut usize,
    start: &mut usize,
    length: &mut usize,
) -> usize
    ensures turn_handed { TurnHanded (turn_of (next_of (state_of state.old) (held left_front.now
        right_front.now left_body.now right_body.now) output.old))
        state.new result side.new part.new start.new length.new }
    ensures output_after { output.new
        ≡ (next_of (state_of state.old) (held left_front.now right_front.now
        left_body.now right_body.now) output.old).out }
{
    hand_turn(
        next(
            told(*state),
            left_front,
            right_front,
            left_body,
            right_body,
            output,
        ),
        state,
        side,
        part,
        start,
        length,
    )
}

// Says after how many wishes every list has ended.
#[unsafe(no_mangle)]
pub extern "C" fn fascjoldi_listing_turns() -> usize
    ensures { result ≡ most_turns }
{
    turns()
}

// ---- a turn

// Hands over a turn: its state and its wish in numbers.
fn hand_turn(
    turn: Turn,
    state: &mut Numbers,
    side: &mut usize,
    part: &mut usize,
    start: &mut usize,
    length: &mut usize,
) -> usize
    ensures { TurnHanded turn state.new result side.new part.new start.new
        length.new }
{
    let behind = turn.state;
    *state = numbers(behind);
    let wish = turn.wish;
    *side = wish_side(wish);
    *part = wish_part(wish);
    *start = wish_start(wish);
    *length = wish_length(wish);
    wish_number(wish)
}

// ---- a state

// The state that the numbers tell.
fn told(numbers: Numbers) -> State
    ensures { result ≡ state_of numbers }
{
    State {
        stage: stage_of(numbers[0], side_of(numbers[1])),
        number: numbers[2] as usize,
        left: Place {
            size: numbers[3] as usize,
            at: numbers[4] as usize,
        },
        right: Place {
            size: numbers[5] as usize,
            at: numbers[6] as usize,
        },
        differences: numbers[7],
    }
}

// The numbers of a state.
fn numbers(state: State) -> Numbers
    ensures { result ≡ state_numbers state }
{
    let stage = state.stage;
    [
        stage_number(stage),
        stage_side(stage),
        state.number as u64,
        state.left.size as u64,
        state.left.at as u64,
        state.right.size as u64,
        state.right.at as u64,
        state.differences,
    ]
}

// The stage that a number and a side tell.
fn stage_of(number: u64, side: Side) -> Stage
    ensures { result ≡ stage_of number side }
{
    match number {
        0 => Stage::Head(side),
        1 => Stage::Front(side),
        2 => Stage::Checking(side),
        3 => Stage::Checked,
        4 => Stage::Between,
        5 => Stage::Again(side),
        _ => Stage::End,
    }
}

// The number of a stage,
fn stage_number(stage: Stage) -> u64
    ensures { result ≡ stage_number stage }
{
    match stage {
        Stage::Head(_) => 0,
        Stage::Front(_) => 1,
        Stage::Checking(_) => 2,
        Stage::Checked => 3,
        Stage::Between => 4,
        Stage::Again(_) => 5,
        Stage::End => 6,
    }
}

// and that of its side; 0 where it has none.
fn stage_side(stage: Stage) -> u64
    ensures { result ≡ stage_side stage }
{
    match stage {
        Stage::Head(side) => side_number(side) as u64,
        Stage::Front(side) => side_number(side) as u64,
        Stage::Checking(side) => side_number(side) as u64,
        Stage::Checked => 0,
        Stage::Between => 0,
        Stage::Again(side) => side_number(side) as u64,
        Stage::End => 0,
    }
}

// The side that a number tells,
fn side_of(number: u64) -> Side
    ensures { result ≡ side_of number }
{
    if number == 0 {
        return Side::Left;
    }
    Side::Right
}

// and the number of a side.
fn side_number(side: Side) -> usize
    ensures { result ≡ side_number side }
{
    match side {
        Side::Left => 0,
        Side::Right => 1,
    }
}

// ---- a wish

// What is wished for.
fn wish_number(wish: Wish) -> usize
    ensures { result ≡ wish_number wish }
{
    match wish {
        Wish::Read(_, _, _, _) => 1,
        Wish::Write(_) => 2,
        Wish::Done => 0,
    }
}

// Of a read: of which file,
fn wish_side(wish: Wish) -> usize
    ensures { result ≡ wish_side wish }
{
    match wish {
        Wish::Read(side, _, _, _) => side_number(side),
        Wish::Write(_) => 0,
        Wish::Done => 0,
    }
}

// into which of its buffers,
fn wish_part(wish: Wish) -> usize
    ensures { result ≡ wish_part wish }
{
    match wish {
        Wish::Read(_, part, _, _) => part_number(part),
        Wish::Write(_) => 0,
        Wish::Done => 0,
    }
}

// and from where on.
fn wish_start(wish: Wish) -> usize
    ensures { result ≡ wish_start wish }
{
    match wish {
        Wish::Read(_, _, at, _) => at,
        Wish::Write(_) => 0,
        Wish::Done => 0,
    }
}

// Of a read and of a write: how many bytes.
fn wish_length(wish: Wish) -> usize
    ensures { result ≡ wish_length wish }
{
    match wish {
        Wish::Read(_, _, _, n) => n,
        Wish::Write(n) => n,
        Wish::Done => 0,
    }
}

// The number of a buffer.
fn part_number(part: Part) -> usize
    ensures { result ≡ part_number part }
{
    match part {
        Part::Front => 0,
        Part::Body => 1,
    }
}
