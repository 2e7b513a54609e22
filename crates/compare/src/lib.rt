// What two column files differ in (R118, R126): the blocks that are in both files, and the places at which two blocks
// differ, for a program that holds the contents and one block of each file at a time.
#![tactic(auto)]

ghost use Rattle.std.specs.Prelude.{◌≡◌, min, length, get_or};
ghost use Rattle.lists.specs.Tab.{over};
ghost use Rattle.contents.specs.Answers.{file_answer};
ghost use Rattle.contents.specs.Contents.{count_or};
ghost use Rattle.compare.specs.Changes.{differing as differing_in, differing_tests, compared_of, differing_leaves, change_at};
ghost use Rattle.compare.specs.InnerSame.{same_of};
ghost use Rattle.compare.specs.Ranges.{same_range};

use contents::{FileAnswer, FileRefusal, edition, range_or};
use little::pair;

// A row whose numbers differ.
#[derive(Clone, Copy)]
pub struct Change {
    pub row: u64,
    pub left: u64,
    pub right: u64,
}

// Whether two files say the same of the range of block i. Where they do, a block that is the same in both has its true
// range in both or in neither.
pub fn same_range(left: &[u8], right: &[u8], i: usize) -> bool
    ensures { result ≡ same_range left.now right.now i }
{
    let a = range_or(left, i);
    let b = range_or(right, i);
    (edition(left) == edition(right)) & ((a.smallest == b.smallest) & (a.largest == b.largest))
}

// How many blocks are in both files, by their contents.
pub fn blocks_in_both(left: &[u8], right: &[u8]) -> u16
    ensures { result ≡ min (count_or left.now) (count_or right.now) }
{
    let a = pair(left, 2);
    let b = pair(right, 2);
    if a <= b {
        return a;
    }
    b
}

// Lists the places at which two blocks differ, rising, from the front of `places` on, and says how many they are. Both
// blocks and the room for places have to be 1,024 long. Equal blocks are not gone through place by place.
pub fn differing(left: &[u64], right: &[u64], places: &mut [u16]) -> Result<usize, FileRefusal>
    ensures value { result ≡ compared_of left.now right.now places.old }
    ensures places_after { places.new
        ≡ differing_leaves left.now right.now places.old }
{
    check_lengths(left, right, places)?;
    if are_same(left, right) {
        return Ok(0);
    }
    Ok(list_places(left, right, places))
}

// Whether both blocks and the room for places are 1,024 long.
fn check_lengths(left: &[u64], right: &[u64], places: &[u16]) -> FileAnswer
    ensures { result ≡ file_answer (differing_tests left.now right.now places.now) }
{
    if left.len() != 1024 {
        return Err(FileRefusal::Block);
    }
    if right.len() != 1024 {
        return Err(FileRefusal::Block);
    }
    if places.len() != 1024 {
        return Err(FileRefusal::Block);
    }
    Ok(())
}

// Whether two blocks are the same. What is apart at each place is joined by `|`, so that there is no branch for a
// place.
fn are_same(left: &[u64], right: &[u64]) -> bool
    requires left_len { length left.now ≡ 1024 }
    requires right_len { length right.now ≡ 1024 }
    ensures { result ≡ same_of left.now right.now }
{
    let mut any: u64 = 0;
    for i in 0..1024 {
        any = any | (left[i] ^ right[i]);
    }
    any == 0
}

// The places at which two blocks differ, with a branch for each place.
fn list_places(left: &[u64], right: &[u64], places: &mut [u16]) -> usize
    requires left_len { length left.now ≡ 1024 }
    requires right_len { length right.now ≡ 1024 }
    requires places_len { length places.old ≡ 1024 }
    ensures value { result ≡ length (differing_in left.now right.now) }
    ensures places_after { places.new
        ≡ over 0 (differing_in left.now right.now) places.old }
{
    let mut n = 0;
    for i in 0..left.len() {
        if left[i] != right[i] {
            places[n] = i as u16;
            n += 1;
        }
    }
    n
}

// What is said of place p of block i: its row, and both numbers.
pub fn change_at(i: u16, left: &[u64], right: &[u64], p: u16) -> Change
    ensures { result ≡ change_at i left.now right.now p }
{
    Change {
        row: i as u64 * 1024 + p as u64,
        left: number_at(left, p as usize),
        right: number_at(right, p as usize),
    }
}

// The number at a place; 0 where there is none.
fn number_at(block: &[u64], p: usize) -> u64
    ensures { result ≡ get_or block.now p 0 }
{
    if p < block.len() {
        return block[p];
    }
    0
}
