// What the writer lays down for one block (R100, R101). There are three candidates: the packed block, the frame over
// its lowest number, and the differences from row to row, with each lane's number in row 0 as base. Each is at the
// least width that restores the block. The shortest is chosen, and of two that are equally long the one of the lower
// kind.
//
// A body is a list of words until it is chosen, and the chosen one alone becomes bytes. A program that has to know how
// long all bodies are before it lays one down measures each block first (R106), and keeps of it the range and the width
// of the differences: with these the block is laid down without being measured again.
#![tactic(auto)]

mod differences;

ghost use Rattle.std.specs.Prelude.{◌≡◌, ◌+◌, ◌*◌, ◌≤◌, ◌++◌, length, take};
ghost use Rattle.lists.specs.Tab.{over};
ghost use Rattle.places.specs.Sizes.{t64};
ghost use Rattle.packing.specs.Packed.{pack_of};
ghost use Rattle.deltas.specs.Deltas.{for_pack_of};
ghost use Rattle.little.specs.Little.{write_leaves};
ghost use Rattle.contents.specs.Answers.{file_answer};
ghost use Rattle.candidates.specs.Calls.{entry_for, laid_of, lay_leaves, measured_of, entry_with, is_ready, by_tests, plain_leaves, frame_leaves, steps_leaves, by_leaves};
ghost use Rattle.candidates.specs.Candidates.{packed_entry, base_of, differences as differences_of};
ghost use Rattle.candidates.specs.Measures.{widths_by, entry_by, shorter_entry, shorter_part};
ghost use Rattle.candidates.specs.Widths.{bits};

use bodies::range_of;
use contents::{Entry, FileAnswer, FileRefusal, Range, any_range, no_entry};
use deltas::for_pack;
use differences::{pack_steps, step_bits};
use little::write_words;
use packing::pack;
use rows::{load, store};
use std::num::wrapping_sub_u64;

const T: usize = 64;

// What is said of a block that was laid down: its entry, and its smallest and its largest number.
#[derive(Clone, Copy)]
pub struct Laid {
    pub entry: Entry,
    pub range: Range,
}

// What is measured of a block: the entry of the candidate that is chosen, the smallest and the largest number, and the
// width of the differences, which an entry of another kind does not say.
#[derive(Clone, Copy)]
pub struct Measured {
    pub entry: Entry,
    pub range: Range,
    pub steps: usize,
}

// The lowest number, which is the frame's reference, and the widths of the three candidates.
#[derive(Clone, Copy)]
struct Measures {
    low: u64,
    plain: usize,
    frame: usize,
    steps: usize,
}

// The entry of the candidate that is chosen for a block; one of no kind where there are not 1,024 numbers.
pub fn entry_for(values: &[u64]) -> Entry
    ensures { result ≡ entry_for values.now }
{
    let m = measure(values);
    m.entry
}

// Lays the body of the chosen candidate down at the front of the output, and gives its entry and the block's range.
pub fn lay_block(values: &[u64], output: &mut [u8]) -> Result<Laid, FileRefusal>
    ensures value { result ≡ laid_of values.now output.old }
    ensures output_after { output.new ≡ lay_leaves values.now output.old }
{
    if values.len() != 1024 {
        return Err(FileRefusal::Block);
    }
    let m = measure(values);
    let entry = m.entry;
    let range = m.range;
    let mut plain = [0u64; 1024];
    let mut frame = [0u64; 1024];
    let mut rest = [0u64; 1040];
    lay_by(
        range, m.steps, values, &mut plain, &mut frame, &mut rest, output,
    )?;
    Ok(Laid { entry, range })
}

// Measures a block; where there are not 1,024 numbers the entry is one of no kind.
pub fn measure(values: &[u64]) -> Measured
    ensures { result ≡ measured_of values.now }
{
    if values.len() != 1024 {
        return Measured {
            entry: no_entry(),
            range: any_range(),
            steps: 0,
        };
    }
    let range = range_of(values);
    let steps = width_of(step_bits(values));
    let m = widths_by(range, steps);
    Measured {
        entry: entry_by(m),
        range: range,
        steps: steps,
    }
}

// The entry of the candidate that is chosen by a range and a width of the differences; one of no kind where the width
// is above 64.
pub fn entry_with(range: Range, steps: usize) -> Entry
    ensures { result ≡ entry_with range steps }
{
    if T < steps {
        return no_entry();
    }
    let m = widths_by(range, steps);
    entry_by(m)
}

// Lays the three candidates of a block down by its range and the width of its differences, each in a room of its own,
// and writes the bytes of the shortest at the front of the output. A caller with many blocks lends the same rooms for
// all of them.
pub fn lay_by(
    range: Range,
    steps: usize,
    values: &[u64],
    plain: &mut [u64],
    frame: &mut [u64],
    rest: &mut [u64],
    output: &mut [u8],
) -> FileAnswer
    ensures value { result
        ≡ file_answer
        (by_tests range steps values.now plain.old frame.old rest.old
        output.old) }
    ensures plain_after { plain.new ≡ plain_leaves result range steps values.now plain.old }
    ensures frame_after { frame.new ≡ frame_leaves result range steps values.now frame.old }
    ensures rest_after { rest.new ≡ steps_leaves result range steps values.now rest.old }
    ensures output_after { output.new ≡ by_leaves result range steps values.now output.old }
{
    if values.len() != 1024 {
        return Err(FileRefusal::Block);
    }
    if !is_ready(steps, plain, frame, rest) {
        return Err(FileRefusal::Room);
    }
    let m = widths_by(range, steps);
    let e = entry_by(m);
    if output.len() < e.length as usize {
        return Err(FileRefusal::Room);
    }
    fill_plain(m.plain, values, plain);
    fill_frame(m.frame, values, m.low, frame);
    fill_steps(m.steps, values, rest);
    write_shortest(m, plain, frame, rest, output);
    Ok(())
}

// Whether the rooms are those for the longest bodies, and the width is one.
fn is_ready(steps: usize, plain: &[u64], frame: &[u64], rest: &[u64]) -> bool
    ensures { result ≡ is_ready steps plain.now frame.now rest.now }
{
    ((plain.len() == 1024) & (frame.len() == 1024)) & ((rest.len() == 1040) & (steps <= T))
}

// The widths of the candidates. No number is below the smallest, so the highest number of the frame is the largest less
// the smallest; of any other range it wraps.
fn widths_by(range: Range, steps: usize) -> Measures
    ensures value { result ≡ widths_by range steps }
    ensures plain_bound { (result.plain ≤ 64) × (result.frame ≤ 64) }
{
    Measures {
        low: range.smallest,
        plain: width_of(range.largest),
        frame: width_of(wrapping_sub_u64(range.largest, range.smallest)),
        steps: steps,
    }
}

// The least width that holds m.
fn width_of(m: u64) -> usize
    ensures { (result ≡ bits m) × (result ≤ 64) }
{
    (64 - u64::leading_zeros(m)) as usize
}

// The entry of the shortest candidate. The entries are compared two at a time, and so are the bodies in
// `write_shortest`; both go by the length, so they choose the same one.
fn entry_by(m: Measures) -> Entry
    requires { (m.plain ≤ 64) × ((m.frame ≤ 64) × (m.steps ≤ 64)) }
    ensures { result ≡ entry_by m }
{
    let plain = packed_entry(0, m.plain, 0, 0);
    let frame = packed_entry(1, m.frame, 0, m.low);
    let steps = packed_entry(2, m.steps, 128, 0);
    shorter_entry(shorter_entry(plain, frame), steps)
}

// The entry of a packed body of this width, with `more` bytes in front.
fn packed_entry(kind: u8, width: usize, more: u32, reference: u64) -> Entry
    requires { (width ≤ 64) × (more ≤ 128) }
    ensures { result ≡ packed_entry kind width more reference }
{
    Entry {
        kind: kind,
        width: width as u8,
        zero: 0,
        length: more + 128 * (width as u32),
        reference: reference,
    }
}

// The entry of the shorter body, and of two that are equally long the first.
fn shorter_entry(a: Entry, b: Entry) -> Entry
    ensures { result ≡ shorter_entry a b }
{
    if a.length <= b.length {
        return a;
    }
    b
}

// Packs the numbers at the front of the words.
fn fill_plain(width: usize, values: &[u64], words: &mut [u64])
    requires width_bound { width ≤ 64 }
    requires values_len { length values.now ≡ 1024 }
    requires width_in_bounds { 16 * width ≤ length words.old }
    ensures { words.new ≡ over 0 (pack_of t64 width values.now) words.old }
{
    let n = 16 * width;
    pack(width, values, &mut words[..n]);
}

// Packs the numbers less the reference at the front of the words.
fn fill_frame(width: usize, values: &[u64], reference: u64, words: &mut [u64])
    requires width_bound { width ≤ 64 }
    requires values_len { length values.now ≡ 1024 }
    requires width_in_bounds { 16 * width ≤ length words.old }
    ensures { words.new
        ≡ over 0 (for_pack_of t64 width values.now reference) words.old }
{
    let n = 16 * width;
    for_pack(width, values, reference, &mut words[..n]);
}

// Puts the base at the front of the words, and packs the differences behind it. Row 0 of lane l stands at place l, so
// the base is the first row.
fn fill_steps(width: usize, values: &[u64], words: &mut [u64])
    requires width_bound { width ≤ 64 }
    requires values_len { length values.now ≡ 1024 }
    requires width_in_bounds { 16 + 16 * width ≤ length words.old }
    ensures { words.new
        ≡ over 0 (base_of values.now ++ pack_of t64 width (differences_of values.now)) words.old }
{
    store(words, load(values));
    let end = 16 + 16 * width;
    pack_steps(width, values, &mut words[16..end]);
}

// Writes the bytes of the shortest of three candidates, which are the fronts of three lists.
fn write_shortest<'a>(
    m: Measures,
    plain: &'a [u64],
    frame: &'a [u64],
    steps: &'a [u64],
    output: &mut [u8],
)
    requires plain_bound { (m.plain ≤ 64) × ((m.frame ≤ 64) × (m.steps ≤ 64)) }
    requires plain_in_bounds { 16 * m.plain ≤ length plain.now }
    requires frame_in_bounds { 16 * m.frame ≤ length frame.now }
    requires steps_in_bounds { 16 + 16 * m.steps ≤ length steps.now }
    ensures { output.new
        ≡ write_leaves 8 (shorter_part
        (shorter_part (take (16 * m.plain) plain.now) (take (16 * m.frame) frame.now))
        (take (16 + 16 * m.steps) steps.now)) output.old }
{
    let first = shorter(plain, 16 * m.plain, frame, 16 * m.frame);
    let body = shorter(first, first.len(), steps, 16 + 16 * m.steps);
    write_words(body, output);
}

// Two bodies, of n and of k words, stand at the front of two lists. Hands back the part of its list that is the shorter
// one, and of two that are equally long the first, which has the lower kind. Nothing is copied.
fn shorter<'a>(a: &'a [u64], n: usize, b: &'a [u64], k: usize) -> &'a [u64]
    requires n_in_bounds { n ≤ length a.now }
    requires k_in_bounds { k ≤ length b.now }
    ensures { result.now ≡ shorter_part (take n a.now) (take k b.now) }
{
    if n <= k {
        return &a[..n];
    }
    &b[..k]
}
