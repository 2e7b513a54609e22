// Whether a column file that another program wrote is, byte for byte, what our writer would give for the rows that it
// holds (R115). The reader's check up to the run indices comes first. Then each block is laid down once, in room for
// one block, and what the writer would measure of it is held to its entry: the range, which is the last of the reader's
// tests, and kind, width, length and reference. Nothing is packed again. Unpacking and packing at one width restores
// every word, so a body whose entry is the writer's is the writer's body; of a body of differences the base is looked
// at as well.
#![tactic(auto)]

ghost use Rattle.std.specs.Prelude.{◌≡◌, true, [], ◌∷◌, ◌≤◌, ◌<◌, eqb, length, Ok, Err};
ghost use Rattle.lists.specs.Pick.{pick, both};
ghost use Rattle.contents.specs.declared.FileRefusal.TheVariants.{Range as FalseRange, Foreign};
ghost use Rattle.contents.specs.Answers.{file_answer};
ghost use Rattle.contents.specs.Contents.{edition as edition_in, count as count_in, body_start};
ghost use Rattle.bodies.specs.Bodies.{words_from};
ghost use Rattle.candidates.specs.Candidates.{chosen, base_of};
ghost use Rattle.files.specs.Files.{block_in, has_true_range, bad_range, runs_tests};
ghost use Rattle.canonical.specs.Canonical.{is_same_entry, is_ours, foreign, canonical_tests};

use candidates::measure;
use contents::{Entry, FileAnswer, FileRefusal, Range, count, edition, entry_or, range_or};
use files::{block_from, body_from, check_runs};
use little::word;

// What was seen of a block: whether its range is the true one, and whether it is as our writer would write it.
#[derive(Clone, Copy)]
struct Seen {
    ranged: bool,
    ours: bool,
}

// Checks that the file is what our writer would give for its rows.
pub fn check(file: &[u8]) -> FileAnswer
    ensures { result ≡ file_answer (canonical_tests file.now) }
{
    check_runs(file)?;
    if edition(file) != 2 {
        return Err(FileRefusal::Edition);
    }
    check_blocks(file)
}

// Checks the blocks of an edition 2 file that is right up to its run indices. A false range is the reader's refusal, so
// it comes first, in whatever block it is.
fn check_blocks(file: &[u8]) -> FileAnswer
    requires file_value { file_answer (runs_tests file.now) ≡ Ok tt }
    requires file_value_2 { edition_in file.now ≡ 2 }
    ensures { result
        ≡ file_answer
        ((
          eqb (bad_range file.now) (count_in file.now),
          Err (FalseRange
              (bad_range file.now)),
        ) ∷ (
          eqb (foreign file.now) (count_in file.now),
          Err (Foreign
              (foreign file.now)),
        ) ∷ []) }
{
    let n = count(file);
    let mut block = [0u64; 1024];
    let mut lowest = n;
    let mut body = bodywise::first(file);
    while body.number < n {
        let seen = look(file, body.number, body.at, &mut block);
        if !seen.ranged {
            return Err(FileRefusal::Range(body.number));
        }
        lowest = lower(lowest, n, seen.ours, body.number);
        let next = bodywise::next(file, body);
        body = next;
    }
    if lowest == n {
        return Ok(());
    }
    Err(FileRefusal::Foreign(lowest))
}

// The lowest block that is not ours, when one more is looked at; before any is found it is n.
fn lower(lowest: usize, n: usize, ours: bool, number: usize) -> usize
    ensures { result ≡ pick ours lowest (pick (eqb lowest n) number lowest) }
{
    if ours {
        return lowest;
    }
    if lowest == n {
        return number;
    }
    lowest
}

// Lays block i down, whose body begins at `at`, and looks at it.
fn look(file: &[u8], i: usize, at: usize, block: &mut [u64]) -> Seen
    requires file_value { file_answer (runs_tests file.now) ≡ Ok tt }
    requires file_value_2 { edition_in file.now ≡ 2 }
    requires i_bound { i < count_in file.now }
    requires at_value { at ≡ body_start file.now i }
    requires block_len { length block.old ≡ 1024 }
    ensures ranged_value { result.ranged ≡ has_true_range file.now i }
    ensures ours_value { result.ours ≡ is_ours file.now i }
{
    let _ = block_from(file, i, at, block);
    let m = measure(block);
    let entry = m.entry;
    let range = m.range;
    Seen {
        ranged: same_range(range_or(file, i), range),
        ours: is_ours(file, i, at, entry, block),
    }
}

// Whether block i is as our writer would write it, which would give it this entry.
fn is_ours(file: &[u8], i: usize, at: usize, entry: Entry, block: &[u64]) -> bool
    requires file_value { file_answer (runs_tests file.now) ≡ Ok tt }
    requires i_bound { i < count_in file.now }
    requires at_value { at ≡ body_start file.now i }
    requires value { entry ≡ (chosen (block_in file.now i)).entry }
    requires block_value { block.now ≡ block_in file.now i }
    ensures { result ≡ is_ours file.now i }
{
    let e = entry_or(file, i);
    if !same_entry(e, entry) {
        return false;
    }
    if e.kind != 2 {
        return true;
    }
    is_base(body_from(file, i, at), block)
}

// Whether a body of differences begins with the block's first row, which is the base that our writer would give it.
fn is_base(body: &[u8], block: &[u64]) -> bool
    requires in_bounds { 128 ≤ length body.now }
    requires block_len { length block.now ≡ 1024 }
    ensures { (result ≡ true → words_from body.now 0 16 ≡ base_of block.now)
        × (words_from body.now 0 16 ≡ base_of block.now → result ≡ true) }
{
    for l in 0..16 {
        if word(body, l * 8) != block[l] {
            return false;
        }
    }
    true
}

// Whether two ranges are the same.
fn same_range(a: Range, b: Range) -> bool
    ensures { result ≡ both (eqb a.smallest b.smallest) (eqb a.largest b.largest) }
{
    (a.smallest == b.smallest) & (a.largest == b.largest)
}

// Whether two entries are the same. The tests are joined by `&`, which makes no branch.
fn same_entry(a: Entry, b: Entry) -> bool
    ensures { result ≡ is_same_entry a b }
{
    (a.kind == b.kind)
        & ((a.width == b.width)
            & ((a.zero == b.zero) & ((a.length == b.length) & (a.reference == b.reference))))
}
