// What is said of a block to a person (ours): its kind, width, reference and body bytes, as its entry has them, and its
// smallest and largest value. These two are taken from the block itself, since the contents of an edition 1 file say
// none; in a file of edition 2 that the reader accepts they are those that the entry says.
#![tactic(auto)]

ghost use Rattle.std.specs.Prelude.{◌≡◌};
ghost use Rattle.contents.specs.Contents.{entry_or};
ghost use Rattle.summary.specs.Summary.{summary_of, thousandths_of, marks_of, place_in};

use bodies::range_of;
use contents::entry_or;

// A block in a line.
#[derive(Clone, Copy)]
pub struct Summary {
    pub kind: u8,
    pub width: u8,
    pub length: u32,
    pub reference: u64,
    pub smallest: u64,
    pub largest: u64,
}

// The summary of block i, which was laid down.
pub fn of_block(front: &[u8], i: usize, block: &[u64]) -> Summary
    ensures { result ≡ summary_of (entry_or front.now i) block.now }
{
    let e = entry_or(front, i);
    let range = range_of(block);
    Summary {
        kind: e.kind,
        width: e.width,
        length: e.length,
        reference: e.reference,
        smallest: range.smallest,
        largest: range.largest,
    }
}

// How many thousandths of a byte a row takes, where so many rows take so many bytes: no part of a thousandth is
// counted. Of no rows it is 0.
pub fn thousandths(bytes: u32, rows: u32) -> u64
    ensures { result ≡ thousandths_of bytes rows }
{
    if rows == 0 {
        return 0;
    }
    bytes as u64 * 1000 / rows as u64
}

// How many marks the bar of a width has: one for each four bits that are begun.
pub fn marks(width: u8) -> usize
    ensures { result ≡ marks_of width }
{
    (width as usize + 3) / 4
}

// The place of block i at which a row stands: 0 where it stands in a block before it, and 1,024 where it stands in one
// behind it. So of the rows from a to before b block i has those from the place of a to before the place of b.
pub fn place_in(row: u64, i: usize) -> usize
    ensures { result ≡ place_in row i }
{
    let block = (row / 1024) as usize;
    if block < i {
        return 0;
    }
    if i < block {
        return 1024;
    }
    (row % 1024) as usize
}
