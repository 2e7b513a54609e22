// The walk over the bodies of a column file (R94, R95), for a program that holds the contents and one body at a time: a
// cursor that says which body comes next and where it begins, how many bytes of a file are its front, and the check of
// the file body by body. The front is the first bytes of the file, with the contents; the whole file is its own front.
#![tactic(auto)]

ghost use Rattle.std.specs.Prelude.{◌≡◌, [], ◌∷◌, ◌+◌, ◌*◌, min, Ok};
ghost use Rattle.places.specs.Sizes.{largest_u64};
ghost use Rattle.contents.specs.Answers.{file_answer};
ghost use Rattle.contents.specs.Contents.{count_or, entry_or};
ghost use Rattle.bodies.specs.Bodies.{block_of};
ghost use Rattle.bodywise.specs.Cursor.{body_at, first_body, next_body};
ghost use Rattle.bodywise.specs.InnerPlaced.{in_block};
ghost use Rattle.bodywise.specs.Steps.{entry_test, body_tests, held_tests, held_leaves, range_tests, step_of, front_size};

use contents::{
    Entry, FileAnswer, FileRefusal, contents_length, edition, entry_or, has_right_entry, range_or,
};
use little::pair;

// A body of a file: its number, where it begins, and its entry.
#[derive(Clone, Copy)]
pub struct Body {
    pub number: usize,
    pub at: usize,
    pub entry: Entry,
}

// Body `number`, which begins at `at`, with its entry.
pub fn body_at(front: &[u8], number: usize, at: usize) -> Body
    ensures { result ≡ body_at front.now number at }
{
    Body {
        number,
        at,
        entry: entry_or(front, number),
    }
}

// The first body.
pub fn first(front: &[u8]) -> Body
    ensures { result ≡ first_body front.now }
{
    body_at(front, 0, contents_length(front))
}

// The body behind a body.
pub fn next(front: &[u8], body: Body) -> Body
    ensures { result ≡ next_body front.now body }
{
    body_at(
        front,
        plus(body.number, 1),
        plus(body.at, body.entry.length as usize),
    )
}

// The sum of two numbers, and the largest number where it is larger. No file is so long: it is so that any body can be
// given.
fn plus(a: usize, b: usize) -> usize
    ensures { result ≡ min (a + b) largest_u64 }
{
    if a <= usize::MAX - b {
        return a + b;
    }
    usize::MAX
}

// How many bytes of a file are its front, by its first four: the contents, and no more than the four where these say
// contents of more than 8,196 bytes.
pub fn front_length(head: &[u8]) -> usize
    ensures { result ≡ front_size head.now }
{
    let size = contents_length(head);
    if size <= 8196 {
        return size;
    }
    4
}

// The answer to a file with one body more. It begins with that to the contents, takes the bodies in their order, and is
// after the last of them the answer to the whole file. A refusal stays.
pub fn step(answer: FileAnswer, front: &[u8], i: usize, body: &[u8]) -> FileAnswer
    ensures { result ≡ step_of answer front.now i body.now }
{
    answer?;
    check_body(front, i, body)?;
    check_range(front, i, body)
}

// Whether entry i is there and right in its edition.
fn check_entry(front: &[u8], i: usize) -> FileAnswer
    ensures { result ≡ file_answer (entry_test front.now i ∷ []) }
{
    if has_right_entry(front, i) {
        return Ok(());
    }
    Err(FileRefusal::BadEntry(i))
}

// Body i against its entry, which has to be right in its edition. Nothing is laid down, so the range of its block is not
// looked at.
pub fn check_body(front: &[u8], i: usize, body: &[u8]) -> FileAnswer
    ensures { result ≡ file_answer (body_tests front.now i body.now) }
{
    check_entry(front, i)?;
    in_block(i, bodies::check(entry_or(front, i), body))
}

// The range of block i, whose body is as its entry says.
fn check_range(front: &[u8], i: usize, body: &[u8]) -> FileAnswer
    requires { file_answer (body_tests front.now i body.now) ≡ Ok tt }
    ensures { result
        ≡ file_answer (range_tests front.now i (block_of (entry_or front.now i) body.now)) }
{
    if edition(front) != 2 {
        return Ok(());
    }
    let mut block = [0u64; 1024];
    let _ = bodies::block_of(entry_or(front, i), body, &mut block);
    check_block(front, i, &block)
}

// A refusal of body i with its place: the tests of one body know no other.
fn in_block(i: usize, answer: FileAnswer) -> FileAnswer
    ensures { result ≡ in_block i answer }
{
    match answer {
        Err(FileRefusal::Runs(_)) => Err(FileRefusal::Runs(i)),
        _ => answer,
    }
}

// Lays block i down from its body. The entry has to be right in its edition.
pub fn held_block(front: &[u8], i: usize, body: &[u8], block: &mut [u64]) -> FileAnswer
    ensures value { result ≡ file_answer (held_tests front.now i body.now block.old) }
    ensures block_after { block.new ≡ held_leaves front.now i body.now block.old }
{
    if block.len() != 1024 {
        return Err(FileRefusal::Block);
    }
    check_entry(front, i)?;
    in_block(i, bodies::block_of(entry_or(front, i), body, block))
}

// The range of block i, which was laid down, against what its entry says. The entry has to be right in its edition.
pub fn check_block(front: &[u8], i: usize, block: &[u64]) -> FileAnswer
    ensures { result ≡ file_answer (range_tests front.now i block.now) }
{
    check_entry(front, i)?;
    if edition(front) != 2 {
        return Ok(());
    }
    if bodies::is_range(range_or(front, i), block) {
        return Ok(());
    }
    Err(FileRefusal::Range(i))
}

// How many rows a file has, by its contents.
pub fn row_count(front: &[u8]) -> u64
    ensures { result ≡ count_or front.now * 1024 }
{
    pair(front, 2) as u64 * 1024
}
