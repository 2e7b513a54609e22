// One body of a column file against its entry, and the block that it stands for (R84, R92), with the smallest and the
// largest value of a block (R87). A program that holds the contents of a file and one body at a time needs no more than
// this and the crate contents.
#![tactic(auto)]

mod walks;

ghost use Rattle.std.specs.Prelude.{◌≡◌, true, [], ◌∷◌, ◌+◌, ◌*◌, ◌≤◌, ◌<◌, min, max, eqb, length, Err, IfErr, OnOk};
ghost use Rattle.lists.specs.Pick.{pick, both};
ghost use Rattle.lists.specs.Ends.{highest_of, lowest_of};
ghost use Rattle.places.specs.Answers.{is_done};
ghost use Rattle.places.specs.Sizes.{t64, lanes};
ghost use Rattle.deltas.specs.Deltas.{undelta_pack_of};
ghost use Rattle.runs.specs.Runs.{decode_of};
ghost use Rattle.contents.specs.declared.FileRefusal.TheVariants.{Runs};
ghost use Rattle.contents.specs.Answers.{file_answer};
ghost use Rattle.contents.specs.Contents.{is_laid_out};
ghost use Rattle.bodies.specs.Ranges.{is_range};
ghost use Rattle.bodies.specs.Bodies.{run_indices, words_from, packed_from, block_of, indexed, has_good_runs, body_tests, block_tests, block_leaves};

use contents::{Entry, FileAnswer, FileRefusal, Range};
use little::{read_pairs, read_words};
use places::Answer;
use runs::{decode, highest};
use walks::{raised_out, row_of, summed_out};

// Whether the body is as its entry says.
pub fn check(e: Entry, body: &[u8]) -> FileAnswer
    ensures { result ≡ file_answer (body_tests e body.now) }
{
    check_length(e, body)?;
    if !has_good_runs(e, body) {
        return Err(FileRefusal::Runs(0));
    }
    Ok(())
}

// Lays down the block that the entry and its body stand for.
pub fn block_of(e: Entry, body: &[u8], output: &mut [u64]) -> FileAnswer
    ensures value { result ≡ file_answer (block_tests e body.now output.old) }
    ensures output_after { output.new ≡ block_leaves e body.now output.old }
{
    if output.len() != 1024 {
        return Err(FileRefusal::Block);
    }
    check_length(e, body)?;
    lay_down(e, body, output)
}

// The smallest and the largest of the values, in one walk. Of no values they are the highest and the lowest of 64 bits.
// Two values are joined first, so that half as many steps wait for the ones before them.
pub fn range_of(values: &[u64]) -> Range
    ensures { (result.smallest ≡ lowest_of values.now) × (result.largest ≡ highest_of values.now) }
{
    let n = values.len() / 2;
    let mut low: u64 = u64::MAX;
    let mut high: u64 = 0;
    for i in 0..n {
        let a = values[i * 2];
        let b = values[i * 2 + 1];
        low = lower(low, lower(a, b));
        high = higher(high, higher(a, b));
    }
    if n * 2 < values.len() {
        let value = values[n * 2];
        low = lower(low, value);
        high = higher(high, value);
    }
    Range {
        smallest: low,
        largest: high,
    }
}

// The smaller of two numbers.
fn lower(a: u64, b: u64) -> u64
    ensures { result ≡ min a b }
{
    if a < b { a } else { b }
}

// The larger of two numbers.
fn higher(a: u64, b: u64) -> u64
    ensures { result ≡ max a b }
{
    if a < b { b } else { a }
}

// Whether a range is the true one of the values. A block is lent by its length, which the compiler then knows: its walk
// has 267 instructions less.
pub fn is_range(range: Range, values: &[u64]) -> bool
    ensures { result ≡ is_range range values.now }
{
    if values.len() == 1024 {
        return is_same(range, range_of(&values[..1024]));
    }
    is_same(range, range_of(values))
}

// Whether two ranges have the same ends.
fn is_same(range: Range, found: Range) -> bool
    ensures { result ≡ both (eqb range.smallest found.smallest) (eqb range.largest found.largest) }
{
    (range.smallest == found.smallest) & (range.largest == found.largest)
}

// Whether the entry is as laid out and the body as long as it says. After this only the run indices are left to test.
fn check_length(e: Entry, body: &[u8]) -> FileAnswer
    ensures refusal { IfErr result (λ refusal. Err refusal ≡ file_answer (body_tests e body.now)) }
    ensures e_value { OnOk result ((is_laid_out e ≡ true) × (length body.now ≡ e.length)) }
{
    if !e.is_laid_out() {
        return Err(FileRefusal::BadEntry(0));
    }
    let size = e.length as usize;
    if body.len() < size {
        return Err(FileRefusal::Cut);
    }
    if size < body.len() {
        return Err(FileRefusal::Over);
    }
    Ok(())
}

// Whether every run index is in range, in a body of as many bytes as its entry says.
fn has_good_runs(e: Entry, body: &[u8]) -> bool
    requires e_value { is_laid_out e ≡ true }
    requires body_len { length body.now ≡ e.length }
    ensures { result ≡ has_good_runs e body.now }
{
    if e.kind != 3 {
        return true;
    }
    let n = (e.length - 2048) / 8;
    highest_index(body) < n
}

// The highest run index of a body of runs.
fn highest_index(body: &[u8]) -> u32
    requires { 2048 ≤ length body.now }
    ensures { result ≡ highest_of (run_indices body.now) }
{
    let mut indices = [0u16; 1024];
    read_pairs(body, &mut indices);
    highest(&indices) as u32
}

// The block of a body that is as its entry says, up to the run indices, which decode looks at.
fn lay_down(e: Entry, body: &[u8], output: &mut [u64]) -> FileAnswer
    requires e_value { is_laid_out e ≡ true }
    requires body_len { length body.now ≡ e.length }
    requires output_len { length output.old ≡ 1024 }
    ensures value { result ≡ file_answer ((has_good_runs e body.now, Err (Runs 0)) ∷ []) }
    ensures output_after { output.new
        ≡ pick (has_good_runs e body.now) (block_of e body.now) output.old }
{
    let kind = e.kind;
    match kind {
        2 => {
            differences_out(e.width as usize, body, output);
            Ok(())
        }
        3 => runs_out(((e.length - 2048) / 8) as usize, body, output),
        _ => {
            raised_out(e.width as usize, body, e.reference, output);
            Ok(())
        }
    }
}

// The block of a body of sixteen base words and packed differences.
fn differences_out(width: usize, body: &[u8], output: &mut [u64])
    requires width_bound { width ≤ 64 }
    requires body_len { length body.now ≡ 128 + 128 * width }
    requires output_len { length output.old ≡ 1024 }
    ensures { output.new
        ≡ undelta_pack_of t64 width (packed_from body.now 128 width)
        (words_from body.now 0 (lanes t64)) }
{
    let base = row_of(body, 0);
    summed_out(width, &body[128..], &base, output);
}

// The block of a body of run indices and n run values. Decode looks at the indices, and writes nothing where one is out
// of range. To set an array for 1,024 values to zeros is a sixth of the work, so a few values have a smaller one.
fn runs_out(n: usize, body: &[u8], output: &mut [u64]) -> FileAnswer
    requires n_bound { n ≤ 1024 }
    requires body_len { length body.now ≡ 2048 + 8 * n }
    requires output_len { length output.old ≡ 1024 }
    ensures value { result ≡ file_answer ((indexed n body.now, Err (Runs 0)) ∷ []) }
    ensures output_after { output.new
        ≡ pick (indexed n body.now)
        (decode_of (words_from body.now 2048 n) (run_indices body.now)) output.old }
{
    if n <= 64 {
        return runs_few(n, body, output);
    }
    runs_many(n, body, output)
}

fn runs_few(n: usize, body: &[u8], output: &mut [u64]) -> FileAnswer
    requires n_bound { n ≤ 64 }
    requires body_len { length body.now ≡ 2048 + 8 * n }
    requires output_len { length output.old ≡ 1024 }
    ensures value { result ≡ file_answer ((indexed n body.now, Err (Runs 0)) ∷ []) }
    ensures output_after { output.new
        ≡ pick (indexed n body.now)
        (decode_of (words_from body.now 2048 n) (run_indices body.now)) output.old }
{
    let mut indices = [0u16; 1024];
    let mut values = [0u64; 64];
    runs_through(body, &mut indices, &mut values[..n], output)
}

fn runs_many(n: usize, body: &[u8], output: &mut [u64]) -> FileAnswer
    requires n_bound { n ≤ 1024 }
    requires body_len { length body.now ≡ 2048 + 8 * n }
    requires output_len { length output.old ≡ 1024 }
    ensures value { result ≡ file_answer ((indexed n body.now, Err (Runs 0)) ∷ []) }
    ensures output_after { output.new
        ≡ pick (indexed n body.now)
        (decode_of (words_from body.now 2048 n) (run_indices body.now)) output.old }
{
    let mut indices = [0u16; 1024];
    let mut values = [0u64; 1024];
    runs_through(body, &mut indices, &mut values[..n], output)
}

fn runs_through(
    body: &[u8],
    indices: &mut [u16],
    values: &mut [u64],
    output: &mut [u64],
) -> FileAnswer
    requires body_len { length body.now ≡ 2048 + 8 * length values.old }
    requires indices_len { length indices.old ≡ 1024 }
    requires output_len { length output.old ≡ 1024 }
    ensures value { result ≡ file_answer ((indexed (length values.old) body.now, Err (Runs 0)) ∷ []) }
    ensures output_after { output.new
        ≡ pick (indexed (length values.old) body.now) (decode_of
        (words_from body.now 2048 (length values.old)) (run_indices body.now)) output.old }
{
    read_pairs(body, indices);
    read_words(&body[2048..], values);
    runs_answer(decode(values, indices, output))
}

// What decode's answer says of the run indices: its lengths are right, so a refusal is of an index.
fn runs_answer(answer: Answer) -> FileAnswer
    ensures { result ≡ file_answer ((is_done answer, Err (Runs 0)) ∷ []) }
{
    if answer.number() == 0 {
        return Ok(());
    }
    Err(FileRefusal::Runs(0))
}
