// The search of a column file by value (R107 to R110): it lists, rising, the rows whose value lies between two bounds,
// both included. A block is opened exactly when the range that its entry says and the bounds have a number in common,
// or the edition is 1; of a block that is not opened no byte of the body is read.
//
// Whether there is room is known before the first row is written, so a refused search writes nothing. Where the room
// would do for every row of the opened blocks, nothing is counted for that, and each of them is laid down once for its
// rows.
//
// A program that does not hold the file makes the same search by steps (R111): `opens` says by the contents which
// bodies to read, and `rows_in` lists the rows of one block.
#![tactic(auto)]

ghost use Rattle.std.specs.Prelude.{◌≡◌, ◌+◌, ◌*◌, ◌<◌, ◌≤◌, true, false, map, length, take, nat_le};
ghost use Rattle.lists.specs.Numbers.{plus};
ghost use Rattle.lists.specs.Tab.{tab, over};
ghost use Rattle.contents.specs.Answers.{file_answer};
ghost use Rattle.contents.specs.Contents.{edition as edition_in, count as count_in, body_start, ContentsTaken};
ghost use Rattle.files.specs.Files.{block_in};
ghost use Rattle.search.specs.Search.{between, meets as meets_in, opened, found, opened_tests, found_of, search_leaves};
ghost use Rattle.search.specs.InnerBlocks.{asked, bad_in, within_by};
ghost use Rattle.search.specs.Steps.{opens_by, found_in, listed_of, listed_leaves};

use contents::{FileAnswer, FileRefusal, Range, count, edition, range_or};
use files::{block_from, is_good_from, is_true_in};
use rows::{splat, store, wrapping_add};
use std::num::{wrapping_add_u64, wrapping_sub_u64};

// How many rows were listed, and how many blocks were opened for them.
#[derive(Clone, Copy)]
pub struct Found {
    pub rows: usize,
    pub opened: usize,
}

// Lists the rows of the file whose value lies between the bounds.
pub fn search(file: &[u8], low: u64, high: u64, rows: &mut [u64]) -> Result<Found, FileRefusal>
    ensures value { result ≡ found_of file.now low high rows.old }
    ensures rows_after { rows.new ≡ search_leaves file.now low high rows.old }
{
    contents::check(file, file.len())?;
    let k = count_opened(file, low, high);
    if k == 0 {
        return Ok(Found { rows: 0, opened: 0 });
    }
    check_opened(file, low, high)?;
    if !has_room(file, low, high, k, rows.len()) {
        return Err(FileRefusal::Room);
    }
    let n = list_rows(file, low, high, rows);
    Ok(Found { rows: n, opened: k })
}

// Whether a range and the bounds have a number in common.
fn meets(r: Range, low: u64, high: u64) -> bool
    ensures { result ≡ meets_in r low high }
{
    let from = if r.smallest < low { low } else { r.smallest };
    let to = if high < r.largest { high } else { r.largest };
    from <= to
}

// Whether a value lies between the bounds. The two tests are joined by `&`, which makes no branch.
fn lies(v: u64, low: u64, high: u64) -> bool
    ensures { result ≡ between low high v }
{
    (low <= v) & (v <= high)
}

// Whether block i is opened, by the contents alone: a program that holds no more of the file reads the bodies of these
// blocks, and of no other. An entry that is not there says no range, so its block is opened where the bounds have a
// number between them.
pub fn opens(front: &[u8], i: usize, low: u64, high: u64) -> bool
    ensures { result ≡ opens_by front.now low high i }
{
    let edition = edition(front);
    if edition == 1 {
        return true;
    }
    meets(range_or(front, i), low, high)
}

// How many blocks are opened, in a file whose contents are right.
fn count_opened(file: &[u8], low: u64, high: u64) -> usize
    requires { ContentsTaken file.now }
    ensures { result ≡ length (opened file.now low high) }
{
    let n = count(file);
    let mut k = 0;
    for i in 0..n {
        if opens(file, i, low, high) {
            k += 1;
        }
    }
    k
}

// Checks the blocks that are opened, in a file whose contents are right: the run indices of all, and then the ranges. A
// file of edition 1 says no ranges.
fn check_opened(file: &[u8], low: u64, high: u64) -> FileAnswer
    requires { ContentsTaken file.now }
    ensures { result ≡ file_answer (opened_tests file.now low high) }
{
    let n = count(file);
    let bad = lowest_bad(file, low, high, false);
    if bad < n {
        return Err(FileRefusal::Runs(bad));
    }
    if edition(file) == 1 {
        return Ok(());
    }
    let other = lowest_bad(file, low, high, true);
    if other < n {
        return Err(FileRefusal::Range(other));
    }
    Ok(())
}

// The lowest opened block that is not as asked, and the count where there is none, in a file whose contents are right.
// The ranges are asked for in edition 2, where the opened blocks have their run indices in range.
fn lowest_bad(file: &[u8], low: u64, high: u64, ranges: bool) -> usize
    requires contents_taken { ContentsTaken file.now }
    requires file_value { ranges ≡ true → (edition_in file.now ≡ 2) × (bad_in file.now low high false ≡ count_in file.now) }
    ensures { result ≡ bad_in file.now low high ranges }
{
    let n = count(file);
    let mut block = [0u64; 1024];
    let mut body = bodywise::first(file);
    while body.number < n {
        if opens(file, body.number, low, high) {
            if !is_as_asked(file, body.number, body.at, ranges, &mut block) {
                return body.number;
            }
        }
        let next = bodywise::next(file, body);
        body = next;
    }
    n
}

// Whether block i, whose body begins at `at`, is as asked: has the range that its entry says, or its run indices in
// range. `block` is room for it.
fn is_as_asked(file: &[u8], i: usize, at: usize, ranges: bool, block: &mut [u64]) -> bool
    requires contents_taken { ContentsTaken file.now }
    requires i_bound { i < count_in file.now }
    requires at_value { at ≡ body_start file.now i }
    requires file_value { ranges ≡ true → (edition_in file.now ≡ 2) × (asked file.now false i ≡ true) }
    requires block_len { length block.old ≡ 1024 }
    ensures value { result ≡ asked file.now ranges i }
    ensures block_len_2 { length block.new ≡ 1024 }
{
    if ranges {
        return is_true_in(file, i, at, block);
    }
    is_good_from(file, i, at)
}

// Whether there is room for the rows. The k opened blocks have at most 1,024 rows each, and where that many fit nothing
// is counted.
fn has_room(file: &[u8], low: u64, high: u64, k: usize, room: usize) -> bool
    requires contents_taken { ContentsTaken file.now }
    requires false_value { bad_in file.now low high false ≡ count_in file.now }
    requires k_value { k ≡ length (opened file.now low high) }
    ensures { result ≡ nat_le (length (found file.now low high)) room }
{
    if k * 1024 <= room {
        return true;
    }
    count_rows(file, low, high) <= room
}

// How many rows are listed, in a file whose contents are right and whose opened blocks have their run indices in range.
fn count_rows(file: &[u8], low: u64, high: u64) -> usize
    requires contents_taken { ContentsTaken file.now }
    requires false_value { bad_in file.now low high false ≡ count_in file.now }
    ensures { result ≡ length (found file.now low high) }
{
    let n = count(file);
    let mut body = bodywise::first(file);
    let mut sum = 0;
    while body.number < n {
        if opens(file, body.number, low, high) {
            sum += count_from(file, body.number, body.at, low, high);
        }
        let next = bodywise::next(file, body);
        body = next;
    }
    sum
}

// Lists the rows at the front of the room, where there is room for all of them, and gives how many they are.
fn list_rows(file: &[u8], low: u64, high: u64, rows: &mut [u64]) -> usize
    requires contents_taken { ContentsTaken file.now }
    requires false_value { bad_in file.now low high false ≡ count_in file.now }
    requires true_value { bad_in file.now low high true ≡ count_in file.now }
    requires high_in_bounds { length (found file.now low high) ≤ length rows.old }
    ensures value { result ≡ length (found file.now low high) }
    ensures rows_after { rows.new ≡ over 0 (found file.now low high) rows.old }
{
    let n = count(file);
    let mut block = [0u64; 1024];
    let mut found = [0u64; 1024];
    let mut body = bodywise::first(file);
    let mut k = 0;
    while body.number < n {
        if opens(file, body.number, low, high) {
            k = list_from(
                file,
                body.number,
                body.at,
                low,
                high,
                k,
                &mut block,
                &mut found,
                rows,
            );
        }
        let next = bodywise::next(file, body);
        body = next;
    }
    k
}

// Lists the rows of block i, which was laid down, whose value lies between the bounds: for a program that does not hold
// the file, and has the block from bodywise. No file has block 256 or a higher one, so such a number is refused. The
// answer is how many rows they are, and one opened block: these add up to the answer of the search.
pub fn rows_in(
    block: &[u64],
    i: usize,
    low: u64,
    high: u64,
    rows: &mut [u64],
) -> Result<Found, FileRefusal>
    ensures value { result ≡ listed_of block.now i low high rows.old }
    ensures rows_after { rows.new ≡ listed_leaves block.now i low high rows.old }
{
    if block.len() != 1024 {
        return Err(FileRefusal::Block);
    }
    if 256 <= i {
        return Err(FileRefusal::Beyond);
    }
    if !block_fits(block, low, high, rows.len()) {
        return Err(FileRefusal::Room);
    }
    let mut found = [0u64; 1024];
    let n = list_block(block, i * 1024, low, high, 0, &mut found, rows);
    Ok(Found { rows: n, opened: 1 })
}

// Whether there is room for the rows of a block. It has at most 1,024, and where that many fit nothing is counted.
fn block_fits(block: &[u64], low: u64, high: u64, room: usize) -> bool
    requires { length block.now ≡ 1024 }
    ensures { result ≡ nat_le (length (found_in block.now 0 low high)) room }
{
    if 1024 <= room {
        return true;
    }
    count_block(block, low, high) <= room
}

// How many rows are found in block i, whose body begins at `at`.
fn count_from(file: &[u8], i: usize, at: usize, low: u64, high: u64) -> usize
    requires contents_taken { ContentsTaken file.now }
    requires i_bound { i < count_in file.now }
    requires at_value { at ≡ body_start file.now i }
    requires i_value { asked file.now false i ≡ true }
    ensures { result ≡ length (found_in (block_in file.now i) (i * 1024) low high) }
{
    let mut block = [0u64; 1024];
    let _ = block_from(file, i, at, &mut block);
    count_block(&block, low, high)
}

// How many values of the block lie between the bounds.
fn count_block(block: &[u64], low: u64, high: u64) -> usize
    ensures { result ≡ length (found_in block.now 0 low high) }
{
    let mut k = 0;
    for value in block {
        if lies(*value, low, high) {
            k += 1;
        }
    }
    k
}

// Whether the range that the contents say of block i lies within the bounds, in edition 2. Edition 1 says none.
fn is_within(front: &[u8], i: usize, low: u64, high: u64) -> bool
    ensures { result ≡ within_by front.now low high i }
{
    let edition = edition(front);
    let range = range_or(front, i);
    (edition == 2) & ((low <= range.smallest) & (range.largest <= high))
}

// Lists the rows that are found in block i, whose body begins at `at`, from place k of the room on, and gives the place
// behind them. A block whose range lies within the bounds is not laid down again: every row of it is found. `block` and
// `found` are room for one block and for the rows of one.
fn list_from(
    file: &[u8],
    i: usize,
    at: usize,
    low: u64,
    high: u64,
    k: usize,
    block: &mut [u64],
    found: &mut [u64],
    rows: &mut [u64],
) -> usize
    requires contents_taken { ContentsTaken file.now }
    requires i_bound { i < count_in file.now }
    requires at_value { at ≡ body_start file.now i }
    requires i_value { asked file.now false i ≡ true }
    requires i_value_2 { asked file.now true i ≡ true }
    requires block_len { length block.old ≡ 1024 }
    requires found_len { length found.old ≡ 1024 }
    requires high_in_bounds { k + length (found_in (block_in file.now i) (i * 1024) low high) ≤ length rows.old }
    ensures value { result ≡ k + length (found_in (block_in file.now i) (i * 1024) low high) }
    ensures block_len_2 { length block.new ≡ 1024 }
    ensures found_len_2 { length found.new ≡ 1024 }
    ensures rows_after { rows.new
        ≡ over k (found_in (block_in file.now i) (i * 1024) low high) rows.old }
{
    if is_within(file, i, low, high) {
        list_all(i * 1024, k, rows);
        return k + 1024;
    }
    let _ = block_from(file, i, at, block);
    list_block(block, i * 1024, low, high, k, found, rows)
}

// Lists all rows of a block that begins with row `first`, from place k of the room on: sixteen at a time, each sixteen
// above those before.
fn list_all(first: usize, k: usize, rows: &mut [u64])
    requires k_in_bounds { k + 1024 ≤ length rows.old }
    requires first_bound { first + 2048 < 18446744073709551616 }
    ensures { rows.new ≡ over k (tab 1024 (λ j. first + j)) rows.old }
{
    let step = splat(16);
    let mut run = sixteen(first);
    let mut j = 0;
    while j < 1024 {
        put_sixteen(run, k + j, rows);
        let next = wrapping_add(run, step);
        run = next;
        j += 16;
    }
}

// Sixteen rows from one on.
fn sixteen(first: usize) -> [u64; 16]
    requires { first + 16 < 18446744073709551616 }
    ensures { result ≡ tab 16 (λ l. first + l) }
{
    let mut x = [0u64; 16];
    for l in 0..16 {
        x[l] = (first + l) as u64;
    }
    x
}

// Writes sixteen rows into the room, from place a on.
fn put_sixteen(run: [u64; 16], a: usize, rows: &mut [u64])
    requires { a + 16 ≤ length rows.old }
    ensures { rows.new ≡ over a run rows.old }
{
    let e = a + 16;
    store(&mut rows[a..e], run);
}

// Lists the rows of a block that begins with row `first` whose value lies between the bounds, from place k of the room
// on. What stands behind the last of them has to stay, so they are gathered in `found` and then copied.
fn list_block(
    block: &[u64],
    first: usize,
    low: u64,
    high: u64,
    k: usize,
    found: &mut [u64],
    rows: &mut [u64],
) -> usize
    requires block_len { length block.now ≡ 1024 }
    requires found_len { length found.old ≡ 1024 }
    requires first_bound { first + 1024 < 18446744073709551616 }
    requires high_in_bounds { k + length (found_in block.now first low high) ≤ length rows.old }
    ensures value { result ≡ k + length (found_in block.now first low high) }
    ensures found_len_2 { length found.new ≡ 1024 }
    ensures rows_after { rows.new ≡ over k (found_in block.now first low high) rows.old }
{
    let n = gather(block, low, high, found);
    put_rows(&found[..n], first, k, rows);
    k + n
}

// Gathers the places of the block whose value lies between the bounds at the front of `found`, and gives how many they
// are. Every place is written, and the next one over it where its value does not lie there: so there is no branch for a
// place. A value lies between the bounds where it is no further above the lower one, modulo 2^64, than the upper one is.
fn gather(block: &[u64], low: u64, high: u64, found: &mut [u64]) -> usize
    requires block_len { length block.now ≡ 1024 }
    requires found_len { length found.old ≡ 1024 }
    ensures value { result ≡ length (found_in block.now 0 low high) }
    ensures found_after { take result found.new ≡ found_in block.now 0 low high }
    ensures found_len_2 { length found.new ≡ 1024 }
{
    if high < low {
        return 0;
    }
    let span = high - low;
    let mut n = 0;
    for o in 0..128 {
        for i in 0..8 {
            let j = o * 8 + i;
            found[n] = j as u64;
            n += (wrapping_sub_u64(block[j], low) <= span) as usize;
        }
    }
    n
}

// Writes the rows of these places of a block that begins with row `first` into the room, from place k on.
fn put_rows(places: &[u64], first: usize, k: usize, rows: &mut [u64])
    requires { k + length places.now ≤ length rows.old }
    ensures { rows.new ≡ over k (map (plus 64 first) places.now) rows.old }
{
    for (q, place) in places.iter().enumerate() {
        rows[k + q] = wrapping_add_u64(first as u64, *place);
    }
}
