// The column file is written (R99): 1,024·N numbers become an edition 2 file. Each block is laid down as the crate
// candidates chooses (R100, R101), and its entry says its smallest and its largest number. The file's length is known
// before the first byte is written, so a refused call writes nothing. For that all blocks are measured first, and of
// each three numbers are kept, by which it is laid down later: its smallest number, its largest, and the width of its
// differences. The rooms for the three candidates are made once for a file.
#![tactic(auto)]

ghost use Rattle.std.specs.Prelude.{◌≡◌, ◌++◌, ◌+◌, ◌*◌, ◌≤◌, ◌<◌, length, set};
ghost use Rattle.lists.specs.Tab.{over};
ghost use Rattle.candidates.specs.Candidates.{chosen, body_for};
ghost use Rattle.contents.specs.Bytes.{entry_bytes};
ghost use Rattle.contents.specs.Contents.{contents_size};
ghost use Rattle.bodies.specs.Ranges.{true_range};
ghost use Rattle.writer.specs.InnerKept.{KeptAt, Kept, Rooms};
ghost use Rattle.writer.specs.Writer.{written_of, file_leaves, file_of, block_count, block_at, entries_for, bodies_for};

use candidates::{entry_with, lay_by, measure};
use contents::{FileRefusal, Range, put_entry, put_head};

// Writes the file of the numbers at the front of the output, and gives its length.
pub fn write(values: &[u64], output: &mut [u8]) -> Result<usize, FileRefusal>
    ensures value { result ≡ written_of values.now output.old }
    ensures output_after { output.new ≡ file_leaves values.now output.old }
{
    if values.len() % 1024 != 0 {
        return Err(FileRefusal::Block);
    }
    if 262144 < values.len() {
        return Err(FileRefusal::Block);
    }
    let mut kept = [0u64; 768];
    let size = measure_blocks(values, &mut kept);
    if output.len() < size {
        return Err(FileRefusal::Room);
    }
    lay_file(values, &kept, output);
    Ok(size)
}

// Measures all blocks, keeps of each what it is laid down by, and gives how many bytes the file has.
fn measure_blocks(values: &[u64], kept: &mut [u64]) -> usize
    requires values_len_bound { length values.now ≤ 262144 }
    requires kept_len { length kept.old ≡ 768 }
    ensures value { result ≡ length (file_of values.now) }
    ensures kept { Kept (block_at values.now) kept.new (block_count values.now) }
{
    let n = values.len() / 1024;
    let mut size = 4 + n * 32;
    for i in 0..n {
        let from = i * 1024;
        let to = from + 1024;
        let m = measure(&values[from..to]);
        let range = m.range;
        keep(range, m.steps, i, kept);
        let e = m.entry;
        size += e.length as usize;
    }
    size
}

// Keeps what block i is laid down by.
fn keep(range: Range, steps: usize, i: usize, kept: &mut [u64])
    requires i_bound { i < 256 }
    requires kept_len { length kept.old ≡ 768 }
    ensures { kept.new
        ≡ set (set (set kept.old (i * 3) range.smallest) (i * 3 + 1) range.largest) (i * 3 + 2) steps }
{
    let at = i * 3;
    kept[at] = range.smallest;
    kept[at + 1] = range.largest;
    kept[at + 2] = steps as u64;
}

// Writes the file to an output that has room for it.
fn lay_file(values: &[u64], kept: &[u64], output: &mut [u8])
    requires values_len_bound { length values.now ≤ 262144 }
    requires kept_len { (length kept.now ≡ 768) × Kept (block_at values.now) kept.now (block_count values.now) }
    requires values_in_bounds { length (file_of values.now) ≤ length output.old }
    ensures { output.new ≡ over 0 (file_of values.now) output.old }
{
    let n = values.len() / 1024;
    put_head(n as u16, output);
    lay_blocks(values, kept, output);
}

// Writes the entries and the bodies of all blocks, behind the first four bytes.
fn lay_blocks(values: &[u64], kept: &[u64], output: &mut [u8])
    requires values_len_bound { length values.now ≤ 262144 }
    requires kept_len { (length kept.now ≡ 768) × Kept (block_at values.now) kept.now (block_count values.now) }
    requires values_in_bounds { length (file_of values.now) ≤ length output.old }
    ensures { output.new
        ≡ over 4 (entries_for values.now (block_count values.now) ++ bodies_for values.now
        (block_count values.now)) output.old }
{
    let n = values.len() / 1024;
    let mut plain = [0u64; 1024];
    let mut frame = [0u64; 1024];
    let mut rest = [0u64; 1040];
    let mut at = 4 + n * 32;
    for i in 0..n {
        let from = i * 1024;
        let to = from + 1024;
        at += lay_one(
            &values[from..to],
            kept,
            i,
            at,
            &mut plain,
            &mut frame,
            &mut rest,
            output,
        );
    }
}

// Writes the body of block i from place `at` on, and its entry with its range, and gives the length of the body. There
// is room, so the body is not refused.
fn lay_one(
    block: &[u64],
    kept: &[u64],
    i: usize,
    at: usize,
    plain: &mut [u64],
    frame: &mut [u64],
    rest: &mut [u64],
    output: &mut [u8],
) -> usize
    requires block_len { length block.now ≡ 1024 }
    requires i_bound { (i < 256) × (length kept.now ≡ 768) }
    requires kept_at { KeptAt block.now kept.now i }
    requires rooms { Rooms plain.old frame.old rest.old }
    requires i_bound_2 { (contents_size 2 (i + 1) ≤ at) × (at + (chosen block.now).entry.length ≤ length output.old) }
    ensures value { result ≡ (chosen block.now).entry.length }
    ensures output_after { output.new
        ≡ over (contents_size 2 i)
        (entry_bytes (chosen block.now).entry (true_range block.now))
        (over at (body_for block.now) output.old) }
{
    let k = i * 3;
    let range = Range {
        smallest: kept[k],
        largest: kept[k + 1],
    };
    let steps = kept[k + 2] as usize;
    let _ = lay_by(range, steps, block, plain, frame, rest, &mut output[at..]);
    let e = entry_with(range, steps);
    put_entry(e, range, 4 + i * 32, output);
    e.length as usize
}
