// The column file (R89, R90, R97): a check of the whole file, one block out, and the value at a file row. A file is
// lent as bytes. check, block_out and row_at check the whole file before they answer for a block or a row, by the steps
// that stand in crates of their own: the contents against the file's length, each body against its entry, and in
// edition 2 the smallest and the largest value of each block against what its entry says. Of an edition 1 file none of
// them reads a body twice, but one of runs for a row; of an edition 2 file each lays every block down once for its
// smallest and largest value, and one block out lays its block down once more. A row is looked up in its body. The
// calls whose names end in from are for a walk over the bodies, behind a check (R93): they look at one body, and check
// nothing else.
#![tactic(auto)]

mod lookup;

ghost use Rattle.std.specs.Prelude.{◌≡◌, ◌+◌, ◌<◌, true, [], ◌∷◌, length, ◌==◌, nat_le, nat_lt, slice_index, Ok, Err, IfErr, OnOk};
ghost use Rattle.lists.specs.Pick.{pick, either};
ghost use Rattle.lists.specs.Search.{first_bad};
ghost use Rattle.places.specs.Sizes.{t64};
ghost use Rattle.access.specs.Counts.{count_at};
ghost use Rattle.contents.specs.declared.FileRefusal.TheVariants.{Runs, Range};
ghost use Rattle.contents.specs.Answers.{file_answer};
ghost use Rattle.contents.specs.Contents.{edition as edition_in, count as count_in, entry_of, entry_or, range_or, has_right_entry, body_start, contents_tests, ContentsTaken, is_laid_out};
ghost use Rattle.bodies.specs.Bodies.{block_of, has_good_runs};
ghost use Rattle.bodies.specs.Ranges.{is_range};
ghost use Rattle.files.specs.Files.{body_of, block_in, bad_range, runs_tests, file_tests, block_out_tests, block_out_leaves};
ghost use Rattle.files.specs.Froms.{body_from, good_from, from_tests, from_leaves, true_from};
ghost use Rattle.files.specs.Rows.{counted, uncounted, given, row_of, row_from_lem};

use access::Words;
use bodies::is_range;
use contents::{Entry, FileAnswer, FileRefusal, count, edition, entry_or, range_or};
use lookup::{look_up, run_value, sum_up};
use std::num::wrapping_add_u64;

// Checks the whole file.
pub fn check(file: &[u8]) -> FileAnswer
    ensures { result ≡ file_answer (file_tests file.now) }
{
    check_runs(file)?;
    check_ranges(file)
}

// Checks the ranges of a file that is right up to its run indices.
fn check_ranges(file: &[u8]) -> FileAnswer
    requires { file_answer (runs_tests file.now) ≡ Ok tt }
    ensures { result
        ≡ file_answer
        (((bad_range file.now == count_in file.now), Err (Range (bad_range file.now))) ∷
        []) }
{
    if edition(file) != 2 {
        return Ok(());
    }
    let bad = false_range(file);
    let n = count(file);
    if bad == n {
        return Ok(());
    }
    Err(FileRefusal::Range(bad))
}

// The lowest block whose range is not the true one, and the count where there is none, in an edition 2 file that is
// right up to its run indices.
fn false_range(file: &[u8]) -> usize
    requires file_value { file_answer (runs_tests file.now) ≡ Ok tt }
    requires file_value_2 { edition_in file.now ≡ 2 }
    ensures { result ≡ bad_range file.now }
{
    let n = count(file);
    let mut block = [0u64; 1024];
    let mut body = bodywise::first(file);
    while body.number < n {
        if !is_true_in(file, body.number, body.at, &mut block) {
            return body.number;
        }
        let next = bodywise::next(file, body);
        body = next;
    }
    n
}

// Checks the file up to the run indices: behind this the ranges are left, for a caller that lays each block down anyhow.
// No block has the count for its number, so none is left out.
pub fn check_runs(file: &[u8]) -> FileAnswer
    ensures { result ≡ file_answer (runs_tests file.now) }
{
    check_but(file, count(file))
}

// The same but for the run indices of block b, which are looked at where that block is laid down. A refusal is that of
// all these tests: where a later block is bad nothing is laid down, so block b is looked at here, and the lower one is
// reported.
fn check_but(file: &[u8], b: usize) -> FileAnswer
    ensures refusal { IfErr result (λ refusal. Err refusal ≡ file_answer (runs_tests file.now)) }
    ensures file_value { OnOk result (file_answer (contents_tests file.now (length file.now)) ≡ Ok tt) }
    ensures i_value { OnOk result (first_bad (count_in file.now)
        (λ i. either (i == b) (has_good_runs (entry_of file.now i) (body_of file.now i))) ≡
        count_in file.now) }
{
    contents::check(file, file.len())?;
    let bad = first_bad_but(file, b);
    let n = count(file);
    if bad == n {
        return Ok(());
    }
    if b < bad {
        if !is_good_from(file, b, body_start(file, b)) {
            return Err(FileRefusal::Runs(b));
        }
    }
    Err(FileRefusal::Runs(bad))
}

// The lowest block other than b that has a run index out of range, and the count where there is none, in a file whose
// contents are right. The body of block b is not read. In edition 2 no block has run indices, and no body is read.
fn first_bad_but(file: &[u8], b: usize) -> usize
    requires { ContentsTaken file.now }
    ensures { result
        ≡ first_bad (count_in file.now)
        (λ i. either (i == b) (has_good_runs (entry_of file.now i) (body_of file.now i))) }
{
    let n = count(file);
    if edition(file) == 2 {
        return n;
    }
    let mut body = bodywise::first(file);
    while body.number < n {
        if body.number != b {
            if !is_good_from(file, body.number, body.at) {
                return body.number;
            }
        }
        let next = bodywise::next(file, body);
        body = next;
    }
    n
}

// The body that begins at `at` and is as long as entry i says; no bytes where it does not all stand in the file.
pub fn body_from(file: &[u8], i: usize, at: usize) -> &[u8]
    ensures { result.now ≡ body_from file.now i at }
{
    let e = entry_or(file, i);
    let size = e.length as usize;
    if file.len() < size {
        return &file[..0];
    }
    if file.len() - size < at {
        return &file[..0];
    }
    let end = at + size;
    &file[at..end]
}

// Whether the body that begins at `at` is as entry i says. Where the contents of the file are right, only its run
// indices can be wrong.
pub fn is_good_from(file: &[u8], i: usize, at: usize) -> bool
    ensures { result ≡ good_from file.now i at }
{
    bodies::check(entry_or(file, i), body_from(file, i, at)).is_ok()
}

// Lays down the block of entry i and of the body that begins at `at`. There is one body here, so the place of 10 and of
// 13 is 0.
pub fn block_from(file: &[u8], i: usize, at: usize, output: &mut [u64]) -> FileAnswer
    ensures value { result ≡ file_answer (from_tests file.now i at output.old) }
    ensures output_after { output.new ≡ from_leaves file.now i at output.old }
{
    bodies::block_of(entry_or(file, i), body_from(file, i, at), output)
}

// Whether that block has the range that entry i says.
pub fn is_true_from(file: &[u8], i: usize, at: usize) -> bool
    ensures { result ≡ true_from file.now i at }
{
    let mut block = [0u64; 1024];
    is_true_in(file, i, at, &mut block)
}

// The same in a lent block, so that a walk over the bodies sets one to zeros and not one for each.
pub fn is_true_in(file: &[u8], i: usize, at: usize, block: &mut [u64]) -> bool
    ensures value { result ≡ is_range (range_or file.now i) (from_leaves file.now i at block.old) }
    ensures block_after { block.new ≡ from_leaves file.now i at block.old }
{
    let _ = block_from(file, i, at, block);
    is_range(range_or(file, i), block)
}

// Where body b begins, in a file whose contents are right.
fn body_start(file: &[u8], b: usize) -> usize
    requires contents_taken { ContentsTaken file.now }
    requires b_bound { b < count_in file.now }
    ensures { result ≡ body_start file.now b }
{
    let mut body = bodywise::first(file);
    while body.number < b {
        let next = bodywise::next(file, body);
        body = next;
    }
    body.at
}

// Lays block b of the file down.
pub fn block_out(file: &[u8], b: usize, output: &mut [u64]) -> FileAnswer
    ensures value { result ≡ file_answer (block_out_tests file.now b output.old) }
    ensures output_after { output.new ≡ block_out_leaves file.now b output.old }
{
    if output.len() != 1024 {
        return Err(FileRefusal::Block);
    }
    check_for(file, b)?;
    if count(file) <= b {
        return Err(FileRefusal::Beyond);
    }
    lay_numbered(file, b, output)
}

// Checks the file for one block out of it. The ranges are looked at behind all the run indices; where a file has no
// ranges the run indices of block b can wait until that block is laid down.
fn check_for(file: &[u8], b: usize) -> FileAnswer
    ensures refusal { IfErr result (λ refusal. Err refusal ≡ file_answer (file_tests file.now)) }
    ensures file_value { OnOk result (file_answer (contents_tests file.now (length file.now)) ≡ Ok tt) }
    ensures i_value { OnOk result (first_bad (count_in file.now)
        (λ i. either (i == b) (has_good_runs (entry_of file.now i) (body_of file.now i))) ≡
        count_in file.now) }
    ensures file_value_2 { OnOk result (bad_range file.now ≡ count_in file.now) }
{
    if edition(file) != 2 {
        return check_but(file, b);
    }
    check(file)
}

// Lays block b down, in a file whose contents are right. Where a run index is out of range, block_of finds it and
// writes nothing.
fn lay_numbered(file: &[u8], b: usize, output: &mut [u64]) -> FileAnswer
    requires contents_taken { ContentsTaken file.now }
    requires b_bound { b < count_in file.now }
    requires output_len { length output.old ≡ 1024 }
    ensures value { result
        ≡ pick (has_good_runs (entry_of file.now b) (body_of file.now b)) (Ok tt) (Err (Runs b)) }
    ensures output_after { output.new
        ≡ pick (has_good_runs (entry_of file.now b) (body_of file.now b))
        (block_in file.now b) output.old }
{
    let at = body_start(file, b);
    if block_from(file, b, at, output).is_err() {
        return Err(FileRefusal::Runs(b));
    }
    Ok(())
}

// The value at a file row, with how many packed words its bits stand in where its block is of kind 0 or 1, and without
// where it is of kind 2 or 3.
#[derive(Clone, Copy)]
pub struct Row {
    pub value: u64,
    pub words: Option<Words>,
}

// The value at row p of the file, place p mod 1,024 of block p / 1,024, and its count of packed words: the check, and
// then the lookup in the row's body.
pub fn row_at(file: &[u8], p: usize) -> Result<Row, FileRefusal>
    ensures { result ≡ row_of file.now p }
{
    let b = p / 1024;
    check_for(file, b)?;
    if count(file) <= b {
        return Err(FileRefusal::Beyond);
    }
    row_from(file, b, body_start(file, b), p)
}

// The value at row p, out of the body of entry i that begins at `at`, with its count of packed words where the kind has
// one (R93). This is for a file that was checked before, with a number and a place that the walk over its bodies gives.
// It looks at the entry, its range and the edition, and in the body at the words that hold the value; in a body of
// differences at the base of its lane and at the rows up to its own, and in a body of runs at every run index.
pub fn row_from(file: &[u8], i: usize, at: usize, p: usize) -> Result<Row, FileRefusal>
    ensures { result ≡ row_from_lem file.now i at p }
{
    let e = entry_or(file, i);
    let size = e.length as usize;
    if !holds(file.len(), at, size) {
        return Err(FileRefusal::Cut);
    }
    if !is_right(file, i, e) {
        return Err(FileRefusal::BadEntry(i));
    }
    if p / 1024 != i {
        return Err(FileRefusal::Beyond);
    }
    let end = at + size;
    row_in(e, &file[at..end], i, p % 1024)
}

// Whether entry i, which was read, is right in its edition. It is not read again, as contents::has_right_entry would.
fn is_right(file: &[u8], i: usize, e: Entry) -> bool
    requires { e ≡ entry_or file.now i }
    ensures { result ≡ has_right_entry file.now i }
{
    e.is_laid_out() & (takes(edition(file), e.kind) & range_or(file, i).is_ordered())
}

// Whether an edition takes a kind.
fn takes(edition: usize, kind: u8) -> bool
    ensures { result ≡ pick (edition == 2) (nat_lt kind 3) true }
{
    (edition != 2) | (kind < 3)
}

// Whether `size` bytes from `at` on lie within n bytes.
fn holds(n: usize, at: usize, size: usize) -> bool
    ensures { result ≡ nat_le (at + size) n }
{
    (size <= n) && (at <= n - size)
}

// The value at a place of block i, whose entry is as laid out and whose body is as long as that says.
fn row_in(e: Entry, body: &[u8], i: usize, place: usize) -> Result<Row, FileRefusal>
    requires e_value { is_laid_out e ≡ true }
    requires body_len { length body.now ≡ e.length }
    requires place_bound { place < 1024 }
    ensures { result
        ≡ pick (has_good_runs e body.now)
        (Ok (given e place (slice_index (block_of e body.now) place))) (Err (Runs i)) }
{
    let kind = e.kind;
    match kind {
        2 => Ok(Row {
            value: sum_up(e.width as usize, body, place),
            words: None,
        }),
        3 => run_row(e, body, i, place),
        _ => Ok(packed_row(e, body, place)),
    }
}

// The value at a place of a body that is packed or a frame: what the lookup gives, and the reference is added. A packed
// block has the reference 0.
fn packed_row(e: Entry, body: &[u8], place: usize) -> Row
    requires e_value { is_laid_out e ≡ true }
    requires kind_bound { e.kind < 2 }
    requires body_len { length body.now ≡ e.length }
    requires place_bound { place < 1024 }
    ensures { result ≡ counted (slice_index (block_of e body.now) place) (count_at t64 e.width place) }
{
    let found = look_up(e.width as usize, body, place);
    Row {
        value: wrapping_add_u64(found.value, e.reference),
        words: Some(found.words),
    }
}

// The value at a place of a body of runs, all of whose run indices are looked at.
fn run_row(e: Entry, body: &[u8], i: usize, place: usize) -> Result<Row, FileRefusal>
    requires e_value { is_laid_out e ≡ true }
    requires kind_value { e.kind ≡ 3 }
    requires body_len { length body.now ≡ e.length }
    requires place_bound { place < 1024 }
    ensures { result
        ≡ pick (has_good_runs e body.now)
        (Ok (uncounted (slice_index (block_of e body.now) place))) (Err (Runs i)) }
{
    if bodies::check(e, body).is_err() {
        return Err(FileRefusal::Runs(i));
    }
    Ok(Row {
        value: run_value(body, place),
        words: None,
    })
}
