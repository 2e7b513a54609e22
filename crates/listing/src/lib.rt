// What the program `changes` does, decided without a read or a write (R127): a machine that says at each turn what is
// wished for next, a part of one file or that bytes of the output are written, and is shown what was read by buffers
// that are lent. It goes through both files twice: once to check them, left before right, and once to compare them,
// block by block.
//
// A lent buffer is just what the last read into it gave: where the file has fewer bytes than were wished for, it is
// shorter.
//
// A file that changes between the walks (R125): a body is tested again when it is read again, and no row is listed from
// one that is refused then. The refusal of its file is the last line.
#![tactic(auto)]

mod text;

ghost use Rattle.std.specs.Prelude.{true, ◌≡◌, ◌+◌, ◌≤◌, ◌<◌, min, length, Err};
ghost use Rattle.lists.specs.Tab.{over};
ghost use Rattle.places.specs.Sizes.{largest_u64};
ghost use Rattle.compare.specs.Changes.{differing as differing_in, changes_in};
ghost use Rattle.wishes.specs.Runs.{held};
ghost use Rattle.listing.specs.InnerSame.{SameBody, same_laid};
ghost use Rattle.listing.specs.Text.{lines_of};
ghost use Rattle.listing.specs.Machine.{turn_of, turn_to, refusal, start_of, most_turns, ask_head, ask_front, body_wish, at_body_lem, at_bodies, between as between_blocks, past as past_block, ask_body, behind as behind_file, go_to, check_front, check_body, after_head, after_front, after_body, begin as beginning, go_on, ask_again, listed, compared, both_laid, both_there, again as after_again, next_of};

use bodywise::{Body, body_at, check_block, first, front_length, held_block, row_count, step};
use compare::{blocks_in_both, change_at, differing, same_range};
use contents::{Entry, FileRefusal, count, entry_or, has_right_entry};
use text::{put_change, put_last, put_refusal};
use wishes::{Part, Side, Wish};

// Where the machine is, named for what was wished for last.
#[derive(Clone, Copy)]
pub enum Stage {
    // the first four bytes of a file
    Head(Side),
    // the front of a file
    Front(Side),
    // a body of a file, to be checked
    Checking(Side),
    // nothing yet: both files are checked
    Checked,
    // that the lines of a block are written
    Between,
    // a body of a file again, to be compared
    Again(Side),
    // that the last lines are written
    End,
}

// How long a file is, and where the body of the block begins in it.
#[derive(Clone, Copy)]
pub struct Place {
    pub size: usize,
    pub at: usize,
}

// How far the machine is: the number of the block, where it is in both files, and how many rows before it differ.
#[derive(Clone, Copy)]
pub struct State {
    pub stage: Stage,
    pub number: usize,
    pub left: Place,
    pub right: Place,
    pub differences: u64,
}

// Where the machine is, and what it wishes for.
#[derive(Clone, Copy)]
pub struct Turn {
    pub state: State,
    pub wish: Wish,
}

// The first turn, for files of these sizes.
pub fn start(left_size: usize, right_size: usize) -> Turn
    ensures { result ≡ start_of left_size right_size }
{
    Turn {
        state: State {
            stage: Stage::Head(Side::Left),
            number: 0,
            left: Place {
                size: left_size,
                at: 0,
            },
            right: Place {
                size: right_size,
                at: 0,
            },
            differences: 0,
        },
        wish: Wish::Read(Side::Left, Part::Front, 0, 4),
    }
}

// After so many turns the machine is done.
pub fn turns() -> usize
    ensures { result ≡ most_turns }
{
    1300
}

// The turn behind this one. The buffers hold what the last reads into them gave. An output that is shorter than 65,536
// bytes ends it at once.
pub fn next(
    state: State,
    left_front: &[u8],
    right_front: &[u8],
    left_body: &[u8],
    right_body: &[u8],
    out: &mut [u8],
) -> Turn
    ensures value { result
        ≡ turn_of (next_of state (held left_front.now right_front.now left_body.now
        right_body.now) out.old) }
    ensures out_after { out.new
        ≡ (next_of state (held left_front.now right_front.now left_body.now
        right_body.now) out.old).out }
{
    if out.len() < 65536 {
        return Turn {
            state,
            wish: Wish::Done,
        };
    }
    let stage = state.stage;
    match stage {
        Stage::Head(side) => after_head(state, side, left_front, right_front),
        Stage::Front(side) => after_front(state, side, left_front, right_front, out),
        Stage::Checking(side) => after_body(
            state,
            side,
            left_front,
            right_front,
            left_body,
            right_body,
            out,
        ),
        Stage::Checked => begin(state, left_front, right_front),
        Stage::Between => go_on(state, left_front, right_front, out),
        Stage::Again(side) => again(
            state,
            side,
            left_front,
            right_front,
            left_body,
            right_body,
            out,
        ),
        Stage::End => Turn {
            state,
            wish: Wish::Done,
        },
    }
}

// The same state at another stage, with a wish.
fn turn_to(state: State, stage: Stage, wish: Wish) -> Turn
    ensures { result ≡ turn_to state stage wish }
{
    let left = state.left;
    let right = state.right;
    Turn {
        state: State {
            stage,
            number: state.number,
            left,
            right,
            differences: state.differences,
        },
        wish,
    }
}

// A file is refused: its line is the last one.
fn refuse(state: State, side: Side, reason: FileRefusal, out: &mut [u8]) -> Turn
    requires { 65536 ≤ length out.old }
    ensures value { result ≡ turn_of (refusal state side (Err reason) out.old) }
    ensures out_after { out.new ≡ (refusal state side (Err reason) out.old).out }
{
    let line = put_refusal(side, reason, out);
    turn_to(state, Stage::End, Wish::Write(line))
}

// ---- the check

// The first four bytes of a file are wished for.
fn ask_head(state: State, side: Side) -> Turn
    ensures { result ≡ ask_head state side }
{
    turn_to(
        state,
        Stage::Head(side),
        Wish::Read(side, Part::Front, 0, 4),
    )
}

// They are there: the front is wished for.
fn after_head(state: State, side: Side, left_front: &[u8], right_front: &[u8]) -> Turn
    ensures { result ≡ after_head state side left_front.now right_front.now }
{
    match side {
        Side::Left => ask_front(state, Side::Left, left_front),
        Side::Right => ask_front(state, Side::Right, right_front),
    }
}

fn ask_front(state: State, side: Side, head: &[u8]) -> Turn
    ensures { result ≡ ask_front state side head.now }
{
    let n = front_length(head);
    turn_to(
        state,
        Stage::Front(side),
        Wish::Read(side, Part::Front, 0, n),
    )
}

// The front is there: it is checked.
fn after_front(
    state: State,
    side: Side,
    left_front: &[u8],
    right_front: &[u8],
    out: &mut [u8],
) -> Turn
    requires { 65536 ≤ length out.old }
    ensures value { result
        ≡ turn_of (after_front state side left_front.now right_front.now out.old) }
    ensures out_after { out.new
        ≡ (after_front state side left_front.now right_front.now out.old).out }
{
    match side {
        Side::Left => check_front(state, Side::Left, state.left.size, left_front, out),
        Side::Right => check_front(state, Side::Right, state.right.size, right_front, out),
    }
}

fn check_front(state: State, side: Side, size: usize, front: &[u8], out: &mut [u8]) -> Turn
    requires { 65536 ≤ length out.old }
    ensures value { result ≡ turn_of (check_front state side size front.now out.old) }
    ensures out_after { out.new ≡ (check_front state side size front.now out.old).out }
{
    if let Err(reason) = contents::check(front, size) {
        return refuse(state, side, reason, out);
    }
    go_to(state, side, front, first(front))
}

// A body is there: it is checked.
fn after_body(
    state: State,
    side: Side,
    left_front: &[u8],
    right_front: &[u8],
    left_body: &[u8],
    right_body: &[u8],
    out: &mut [u8],
) -> Turn
    requires { 65536 ≤ length out.old }
    ensures value { result
        ≡ turn_of (after_body state side left_front.now right_front.now
        left_body.now right_body.now out.old) }
    ensures out_after { out.new
        ≡ (after_body state side left_front.now right_front.now left_body.now
        right_body.now out.old).out }
{
    match side {
        Side::Left => check_body(state, Side::Left, state.left.at, left_front, left_body, out),
        Side::Right => check_body(
            state,
            Side::Right,
            state.right.at,
            right_front,
            right_body,
            out,
        ),
    }
}

fn check_body(
    state: State,
    side: Side,
    at: usize,
    front: &[u8],
    body: &[u8],
    out: &mut [u8],
) -> Turn
    requires { 65536 ≤ length out.old }
    ensures value { result
        ≡ turn_of (check_body state side at front.now body.now out.old) }
    ensures out_after { out.new
        ≡ (check_body state side at front.now body.now out.old).out }
{
    if let Err(reason) = step(Ok(()), front, state.number, body) {
        return refuse(state, side, reason, out);
    }
    let checked = body_at(front, state.number, at);
    go_to(state, side, front, bodywise::next(front, checked))
}

// The check goes to a body of a file, or is behind the last one.
fn go_to(state: State, side: Side, front: &[u8], body: Body) -> Turn
    ensures { result ≡ go_to state side front.now body }
{
    if body.number < count(front) {
        return ask_body(state, side, body);
    }
    behind(state, side)
}

fn ask_body(state: State, side: Side, body: Body) -> Turn
    ensures { result ≡ ask_body state side body }
{
    let there = at_body(state, side, body);
    turn_to(there, Stage::Checking(side), body_wish(side, body))
}

// The state at a body of one file.
fn at_body(state: State, side: Side, body: Body) -> State
    ensures { result ≡ at_body_lem state side body }
{
    match side {
        Side::Left => at_bodies(state, body.number, body.at, state.right.at),
        Side::Right => at_bodies(state, body.number, state.left.at, body.at),
    }
}

// The state at a block, by where its body begins in each file.
fn at_bodies(state: State, number: usize, left_at: usize, right_at: usize) -> State
    ensures { result ≡ at_bodies state number left_at right_at }
{
    let stage = state.stage;
    State {
        stage,
        number,
        left: Place {
            size: state.left.size,
            at: left_at,
        },
        right: Place {
            size: state.right.size,
            at: right_at,
        },
        differences: state.differences,
    }
}

// The same with so many rows before the block that differ, with the wish to write so many bytes.
fn between(state: State, differences: u64, bytes: usize) -> Turn
    ensures { result ≡ between_blocks state differences bytes }
{
    let left = state.left;
    let right = state.right;
    Turn {
        state: State {
            stage: Stage::Between,
            number: state.number,
            left,
            right,
            differences,
        },
        wish: Wish::Write(bytes),
    }
}

// A body is wished for: as many bytes as its entry says, and no more than the buffer has room for.
fn body_wish(side: Side, body: Body) -> Wish
    ensures { result ≡ body_wish side body }
{
    Wish::Read(
        side,
        Part::Body,
        body.at,
        least(body.entry.length as usize, 10240),
    )
}

// Behind the left file the right one is checked, and behind that both are.
fn behind(state: State, side: Side) -> Turn
    ensures { result ≡ behind_file state side }
{
    match side {
        Side::Left => ask_head(state, Side::Right),
        Side::Right => turn_to(state, Stage::Checked, Wish::Write(0)),
    }
}

// ---- the list

// Both files are checked: the list begins, before the first block.
fn begin(state: State, left_front: &[u8], right_front: &[u8]) -> Turn
    ensures { result ≡ beginning state left_front.now right_front.now }
{
    let left = first(left_front);
    let right = first(right_front);
    between(at_bodies(state, 0, left.at, right.at), 0, 0)
}

// The lines of the blocks so far are written: the next block is read, and behind the last one that both files have come
// the last lines.
fn go_on(state: State, left_front: &[u8], right_front: &[u8], out: &mut [u8]) -> Turn
    requires { 65536 ≤ length out.old }
    ensures value { result
        ≡ turn_of (go_on state left_front.now right_front.now out.old) }
    ensures out_after { out.new
        ≡ (go_on state left_front.now right_front.now out.old).out }
{
    if state.number < blocks_in_both(left_front, right_front) as usize {
        return ask_again(state, Side::Left, state.left.at, left_front);
    }
    let n = put_last(
        row_count(left_front),
        row_count(right_front),
        state.differences,
        out,
    );
    turn_to(state, Stage::End, Wish::Write(n))
}

// The body of the block is wished for again, of one file.
fn ask_again(state: State, side: Side, at: usize, front: &[u8]) -> Turn
    ensures { result ≡ ask_again state side at front.now }
{
    let body = body_at(front, state.number, at);
    turn_to(state, Stage::Again(side), body_wish(side, body))
}

// A body is there again: behind the left one comes the right one, and then both are compared.
fn again(
    state: State,
    side: Side,
    left_front: &[u8],
    right_front: &[u8],
    left_body: &[u8],
    right_body: &[u8],
    out: &mut [u8],
) -> Turn
    requires { 65536 ≤ length out.old }
    ensures value { result
        ≡ turn_of (after_again state side left_front.now right_front.now
        left_body.now right_body.now out.old) }
    ensures out_after { out.new
        ≡ (after_again state side left_front.now right_front.now left_body.now
        right_body.now out.old).out }
{
    match side {
        Side::Left => ask_again(state, Side::Right, state.right.at, right_front),
        Side::Right => both_there(state, left_front, right_front, left_body, right_body, out),
    }
}

// Both bodies are there. No state of a run has a block that is not in both files: there is nothing to be done then.
fn both_there(
    state: State,
    left_front: &[u8],
    right_front: &[u8],
    left_body: &[u8],
    right_body: &[u8],
    out: &mut [u8],
) -> Turn
    requires { 65536 ≤ length out.old }
    ensures value { result
        ≡ turn_of (both_there state left_front.now right_front.now left_body.now
        right_body.now out.old) }
    ensures out_after { out.new
        ≡ (both_there state left_front.now right_front.now left_body.now
        right_body.now out.old).out }
{
    let n = blocks_in_both(left_front, right_front) as usize;
    if n <= state.number {
        return Turn {
            state,
            wish: Wish::Done,
        };
    }
    if same_body(state.number, left_front, right_front, left_body, right_body) {
        return pass_same(state, left_front, right_front, left_body, out);
    }
    let mut left = [0u64; 1024];
    let mut right = [0u64; 1024];
    let mut places = [0u16; 1024];
    lay_both(
        state,
        left_front,
        right_front,
        left_body,
        right_body,
        &mut left,
        &mut right,
        &mut places,
        out,
    )
}

// Goes behind a block that both files have with the same entry and the same body: no row of it differs, and it is not
// laid down. A body that is not as its entry says stands in files that have changed since they were checked.
fn pass_same(
    state: State,
    left_front: &[u8],
    right_front: &[u8],
    left_body: &[u8],
    out: &mut [u8],
) -> Turn
    requires { 65536 ≤ length out.old }
    ensures value { result
        ≡ turn_of (same_laid state left_front.now right_front.now left_body.now
        out.old) }
    ensures out_after { out.new
        ≡ (same_laid state left_front.now right_front.now left_body.now
        out.old).out }
{
    if let Err(reason) = bodywise::check_body(left_front, state.number, left_body) {
        return refuse(state, Side::Left, reason, out);
    }
    let there = past(state, left_front, right_front);
    between(there, plus(state.differences, 0), 0)
}

// Lays both blocks down. A file that has changed since it was checked is refused.
fn lay_both(
    state: State,
    left_front: &[u8],
    right_front: &[u8],
    left_body: &[u8],
    right_body: &[u8],
    left: &mut [u64],
    right: &mut [u64],
    places: &mut [u16],
    out: &mut [u8],
) -> Turn
    requires in_bounds { 65536 ≤ length out.old }
    requires left_len { length left.old ≡ 1024 }
    requires right_len { length right.old ≡ 1024 }
    requires places_len { length places.old ≡ 1024 }
    requires number_bound { state.number < 65536 }
    ensures value { result
        ≡ turn_of (both_laid state left_front.now right_front.now left_body.now
        right_body.now out.old) }
    ensures out_after { out.new
        ≡ (both_laid state left_front.now right_front.now left_body.now
        right_body.now out.old).out }
{
    if let Err(reason) = held_block(left_front, state.number, left_body, left) {
        return refuse(state, Side::Left, reason, out);
    }
    if let Err(reason) = held_block(right_front, state.number, right_body, right) {
        return refuse(state, Side::Right, reason, out);
    }
    compare_laid(state, left_front, right_front, left, right, places, out)
}

// Whether both files say the same of block i, and it has the same body in both.
fn same_body(
    i: usize,
    left_front: &[u8],
    right_front: &[u8],
    left_body: &[u8],
    right_body: &[u8],
) -> bool
    ensures { result ≡ true → SameBody i left_front.now right_front.now left_body.now
        right_body.now }
{
    if !has_right_entry(left_front, i) {
        return false;
    }
    if !has_right_entry(right_front, i) {
        return false;
    }
    if !same_entry(entry_or(left_front, i), entry_or(right_front, i)) {
        return false;
    }
    if !same_range(left_front, right_front, i) {
        return false;
    }
    same_bytes(left_body, right_body)
}

// Whether two entries are the same. The tests are joined by `&`, which makes no branch.
fn same_entry(a: Entry, b: Entry) -> bool
    ensures { result ≡ true → a ≡ b }
{
    (a.kind == b.kind)
        & ((a.width == b.width)
            & ((a.zero == b.zero) & ((a.length == b.length) & (a.reference == b.reference))))
}

// Whether two buffers hold the same bytes. What is apart at each place is joined by `|`, so that there is no branch for
// a place.
fn same_bytes(a: &[u8], b: &[u8]) -> bool
    ensures { result ≡ true → a.now ≡ b.now }
{
    if a.len() != b.len() {
        return false;
    }
    let mut any: u8 = 0;
    for i in 0..a.len() {
        any = any | (a[i] ^ b[i]);
    }
    any == 0
}

// Compares both blocks, which are laid down. Their ranges are looked at again where a row is listed, and where the
// files do not say the same one: equal blocks with equal ranges are both right or both wrong, so that a change of one
// file does not hide there.
fn compare_laid(
    state: State,
    left_front: &[u8],
    right_front: &[u8],
    left: &[u64],
    right: &[u64],
    places: &mut [u16],
    out: &mut [u8],
) -> Turn
    requires in_bounds { 65536 ≤ length out.old }
    requires left_len { length left.now ≡ 1024 }
    requires right_len { length right.now ≡ 1024 }
    requires places_len { length places.old ≡ 1024 }
    requires number_bound { state.number < 65536 }
    ensures value { result
        ≡ turn_of (compared state left_front.now right_front.now left.now
        right.now out.old) }
    ensures out_after { out.new
        ≡ (compared state left_front.now right_front.now left.now
        right.now out.old).out }
{
    let n = differing(left, right, places).unwrap_or(0);
    if n == 0 {
        if same_range(left_front, right_front, state.number) {
            return list(state, left_front, right_front, left, right, places, n, out);
        }
    }
    if let Err(reason) = check_block(left_front, state.number, left) {
        return refuse(state, Side::Left, reason, out);
    }
    if let Err(reason) = check_block(right_front, state.number, right) {
        return refuse(state, Side::Right, reason, out);
    }
    list(state, left_front, right_front, left, right, places, n, out)
}

// Lists the rows of the block that differ, and goes behind it.
fn list(
    state: State,
    left_front: &[u8],
    right_front: &[u8],
    left: &[u64],
    right: &[u64],
    places: &[u16],
    n: usize,
    out: &mut [u8],
) -> Turn
    requires in_bounds { 65536 ≤ length out.old }
    requires n_value { n ≡ length (differing_in left.now right.now) }
    requires n_in_bounds { n ≤ length places.now }
    requires places_value { over 0 (differing_in left.now right.now) places.now ≡ places.now }
    requires number_bound { state.number < 65536 }
    ensures value { result
        ≡ turn_of (listed state left_front.now right_front.now left.now
        right.now out.old) }
    ensures out_after { out.new
        ≡ (listed state left_front.now right_front.now left.now right.now
        out.old).out }
{
    let bytes = put_lines(state.number as u16, left, right, places, n, out);
    let there = past(state, left_front, right_front);
    between(there, plus(state.differences, n as u64), bytes)
}

// The state behind the block.
fn past(state: State, left_front: &[u8], right_front: &[u8]) -> State
    ensures { result ≡ past_block state left_front.now right_front.now }
{
    let left = bodywise::next(left_front, body_at(left_front, state.number, state.left.at));
    let right = bodywise::next(
        right_front,
        body_at(right_front, state.number, state.right.at),
    );
    at_bodies(state, left.number, left.at, right.at)
}

// A line for each of the n places of block i that differ.
fn put_lines(i: u16, left: &[u64], right: &[u64], places: &[u16], n: usize, out: &mut [u8]) -> usize
    requires in_bounds { 65536 ≤ length out.old }
    requires n_value { n ≡ length (differing_in left.now right.now) }
    requires n_in_bounds { n ≤ length places.now }
    requires places_value { over 0 (differing_in left.now right.now) places.now ≡ places.now }
    ensures value { result ≡ length (lines_of (changes_in i left.now right.now)) }
    ensures out_after { out.new
        ≡ over 0 (lines_of (changes_in i left.now right.now)) out.old }
{
    let mut at = 0;
    for k in 0..n {
        let next = put_change(change_at(i, left, right, places[k]), out, at);
        at = next;
    }
    at
}

// A count with n more, and the largest number where they do not fit. There are never so many: it is so that any state
// can be given.
fn plus(count: u64, n: u64) -> u64
    ensures { result ≡ min (count + n) largest_u64 }
{
    if n <= u64::MAX - count {
        return count + n;
    }
    u64::MAX
}

// The smaller of two numbers.
fn least(a: usize, b: usize) -> usize
    ensures { result ≡ min a b }
{
    if a < b {
        return a;
    }
    b
}
