// A column file is renumbered (R132 to R136): by a list of pairs, old and new, every row whose number is listed gets its
// new number, and every other row stays. The new file is what the writer gives for these rows. Beside the file, the
// lists and the output there is room for one block of numbers, for the candidates of one block, and for four numbers of
// each block.
//
// The blocks are gone through twice behind the check of contents and run indices. First each is laid down and measured,
// held to the range that its entry says, which is the last of the reader's tests, searched for a number that would
// become one with another, and renumbered; and of it is kept what it is laid down by, and how many of its numbers
// change. Then, where there is room, each is laid down again, renumbered where something changes, and written by what
// was kept. So the new file's length is known before the first byte is written, and a refused call writes nothing. Where
// the lists or a row are refused, the whole file is checked once more, since a false range stands before them.
//
// A number is looked up by halving. A block with no old number between its smallest and its largest is not replaced, and
// one with no new number between them has none that is taken; where both hold, nothing is looked up. A block in which
// nothing changes is measured once.
#![tactic(auto)]

mod pairs;

ghost use Rattle.std.specs.Prelude.{◌≡◌, ◌++◌, ◌+◌, ◌*◌, ◌≤◌, ◌<◌, length, get_or, set, Ok};
ghost use Rattle.lists.specs.Members.{Rising};
ghost use Rattle.lists.specs.Tab.{over};
ghost use Rattle.contents.specs.Answers.{file_answer};
ghost use Rattle.contents.specs.Bytes.{entry_bytes};
ghost use Rattle.contents.specs.Contents.{count as count_in, contents_size, body_start};
ghost use Rattle.bodies.specs.Ranges.{true_range};
ghost use Rattle.candidates.specs.Calls.{measured_of};
ghost use Rattle.candidates.specs.Candidates.{chosen, body_for};
ghost use Rattle.files.specs.Files.{block_in, has_true_range, file_tests, runs_tests, FileTaken};
ghost use Rattle.writer.specs.InnerKept.{KeptAt, Rooms};
ghost use Rattle.writer.specs.Writer.{entries_for, bodies_for};
ghost use Rattle.renumber.specs.declared.RenumberRefusal.TheVariants.{File};
ghost use Rattle.renumber.specs.InnerBlocks.{first_of, new_block, taken_in, changed_in, kept_with, Ready, BlockFound, FileFound};
ghost use Rattle.renumber.specs.InnerPairs.{Paired};
ghost use Rattle.renumber.specs.Renumber.{refusal_number, refusal_place, new_rows, new_file, list_answer, renumbered_of, renumber_leaves};

use candidates::{entry_with, lay_by, measure};
use contents::{FileRefusal, Range, count, edition, put_entry, put_head, range_or};
use files::{block_from, check_runs};

// Why a renumbering is refused: as the file's own calls are, or for what is wrong with the lists.
#[derive(Clone, Copy, Debug, PartialEq, Eq)]
pub enum RenumberRefusal {
    // a refusal of the file, or that the output is too short
    File(FileRefusal),
    // the three lists are not of one length
    Lengths,
    // an old number is not above the one before it; the lowest such place
    Unrising(usize),
    // a place of the order says no pair, or one that does not come behind the pair before it; the lowest such place
    Disordered(usize),
    // a new number stands at another place too; the lowest such place
    Twice(usize),
    // a number that is not listed stands among the new numbers; the lowest row that has one
    Taken(usize),
}

impl RenumberRefusal {
    // The number that stands for the refusal.
    pub fn number(self) -> usize
        ensures { result ≡ refusal_number self }
    {
        match self {
            RenumberRefusal::File(refusal) => refusal.number(),
            RenumberRefusal::Lengths => 18,
            RenumberRefusal::Unrising(_) => 19,
            RenumberRefusal::Disordered(_) => 20,
            RenumberRefusal::Twice(_) => 21,
            RenumberRefusal::Taken(_) => 22,
        }
    }

    // The place that is given back with the number.
    pub fn place(self) -> usize
        ensures { result ≡ refusal_place self }
    {
        match self {
            RenumberRefusal::File(refusal) => refusal.place(),
            RenumberRefusal::Lengths => 0,
            RenumberRefusal::Unrising(p) => p,
            RenumberRefusal::Disordered(p) => p,
            RenumberRefusal::Twice(p) => p,
            RenumberRefusal::Taken(p) => p,
        }
    }
}

impl From<FileRefusal> for RenumberRefusal {
    ghost from_gives = { λ refusal own. own ≡ File refusal };

    fn from(refusal: FileRefusal) -> RenumberRefusal {
        RenumberRefusal::File(refusal)
    }
}

// The length of the file that was written, and how many rows changed.
#[derive(Clone, Copy)]
pub struct Renumbered {
    pub length: usize,
    pub changed: usize,
}

// What is found of a block, or of the blocks of a file: whether it passes, which is that no range is false and no number
// taken; the lowest place or row that is taken, or the end of the block where none is; the bytes of what is to be
// written; and how many numbers change.
#[derive(Clone, Copy)]
struct Found {
    passes: bool,
    taken: usize,
    size: usize,
    changed: usize,
}

// Writes the file's rows, renumbered by the pairs, as a new file at the front of the output. The order has the places
// of the pairs by rising new number.
pub fn renumber(
    file: &[u8],
    old: &[u64],
    new: &[u64],
    order: &[u64],
    output: &mut [u8],
) -> Result<Renumbered, RenumberRefusal>
    ensures value { result
        ≡ renumbered_of file.now old.now new.now order.now output.old }
    ensures output_after { output.new
        ≡ renumber_leaves file.now old.now new.now order.now output.old }
{
    check_runs(file)?;
    if let Err(refusal) = check_lists(old, new, order) {
        return Err(refuse(file, refusal));
    }
    let mut kept = [0u64; 768];
    let mut counts = [0u64; 256];
    let found = measure_blocks(file, old, new, order, &mut kept, &mut counts);
    if !found.passes {
        return Err(refuse(file, RenumberRefusal::Taken(found.taken)));
    }
    if output.len() < found.size {
        return Err(RenumberRefusal::File(FileRefusal::Room));
    }
    lay_file(file, old, new, &kept, &counts, output);
    Ok(Renumbered {
        length: found.size,
        changed: found.changed,
    })
}

// The refusal of a file that is right up to its run indices: a false range stands before anything else that is wrong.
fn refuse(file: &[u8], otherwise: RenumberRefusal) -> RenumberRefusal
    ensures { result ≡ first_of (file_answer (file_tests file.now)) otherwise }
{
    match files::check(file) {
        Ok(()) => otherwise,
        Err(refusal) => RenumberRefusal::File(refusal),
    }
}

// The answer to the lists alone.
fn check_lists(old: &[u64], new: &[u64], order: &[u64]) -> Result<(), RenumberRefusal>
    ensures { result ≡ list_answer old.now new.now order.now }
{
    if new.len() != old.len() {
        return Err(RenumberRefusal::Lengths);
    }
    if order.len() != old.len() {
        return Err(RenumberRefusal::Lengths);
    }
    let p = pairs::first_unrising(old);
    if p < old.len() {
        return Err(RenumberRefusal::Unrising(p));
    }
    let q = pairs::first_disordered(new, order);
    if q < order.len() {
        return Err(RenumberRefusal::Disordered(q));
    }
    let t = pairs::first_twice(new, order);
    if t < new.len() {
        return Err(RenumberRefusal::Twice(t));
    }
    Ok(())
}

// Goes through the file, which is right up to its run indices, for a false range, the lowest row that is taken, the new
// file's length and how many rows change, and keeps of each block what it is laid down by and how many of its numbers
// change. It ends at the first block that does not pass.
fn measure_blocks(
    file: &[u8],
    old: &[u64],
    new: &[u64],
    order: &[u64],
    kept: &mut [u64],
    counts: &mut [u64],
) -> Found
    requires file_value { file_answer (runs_tests file.now) ≡ Ok tt }
    requires paired { Paired old.now new.now order.now }
    requires kept_len { (length kept.old ≡ 768) × (length counts.old ≡ 256) }
    ensures { FileFound old.now new.now file.now kept.new counts.new result }
{
    let n = count(file);
    let mut block = [0u64; 1024];
    let mut size = 4 + n * 32;
    let mut changed = 0;
    let mut body = bodywise::first(file);
    while body.number < n {
        let i = body.number;
        let one = measure_one(file, i, body.at, old, new, order, &mut block, kept, counts);
        if !one.passes {
            return Found {
                passes: false,
                taken: i * 1024 + one.taken,
                size: 0,
                changed: 0,
            };
        }
        size += one.size;
        changed += one.changed;
        let next = bodywise::next(file, body);
        body = next;
    }
    Found {
        passes: true,
        taken: n * 1024,
        size,
        changed,
    }
}

// The same of block i, whose body begins at `from`.
fn measure_one(
    file: &[u8],
    i: usize,
    from: usize,
    old: &[u64],
    new: &[u64],
    order: &[u64],
    block: &mut [u64],
    kept: &mut [u64],
    counts: &mut [u64],
) -> Found
    requires file_value { file_answer (runs_tests file.now) ≡ Ok tt }
    requires i_bound { i < count_in file.now }
    requires from_value { from ≡ body_start file.now i }
    requires paired { Paired old.now new.now order.now }
    requires block_len { length block.old ≡ 1024 }
    requires kept_len { (length kept.old ≡ 768) × (length counts.old ≡ 256) }
    ensures block_found { BlockFound old.now new.now file.now i result }
    ensures kept_after { kept.new
        ≡ kept_with (new_block old.now new.now (block_in file.now i)) kept.old i }
    ensures counts_after { counts.new
        ≡ set counts.old i
        (length (changed_in old.now new.now (block_in file.now i))) }
{
    let _ = block_from(file, i, from, block);
    let m = measure(block);
    let range = m.range;
    let ranged = is_told(file, i, range);
    let taken = first_taken(block, range, old, new, order);
    let changed = replace(block, range, old, new);
    let after = measure_again(m, changed, block);
    keep(after.range, after.steps, i, kept);
    counts[i] = changed as u64;
    let e = after.entry;
    Found {
        passes: ranged & (taken == 1024),
        taken,
        size: e.length as usize,
        changed,
    }
}

// Whether entry i says this range. In edition 1 it says none, and the answer is yes.
fn is_told(file: &[u8], i: usize, range: Range) -> bool
    requires file_value { file_answer (runs_tests file.now) ≡ Ok tt }
    requires i_bound { i < count_in file.now }
    requires range_value { range ≡ true_range (block_in file.now i) }
    ensures { result ≡ has_true_range file.now i }
{
    if edition(file) != 2 {
        return true;
    }
    let said = range_or(file, i);
    (said.smallest == range.smallest) & (said.largest == range.largest)
}

// What is measured of a block that was measured before so many of its numbers changed: where none did it stays.
fn measure_again(m: candidates::Measured, changed: usize, block: &[u64]) -> candidates::Measured
    requires { changed ≡ 0 → m ≡ measured_of block.now }
    ensures { result ≡ measured_of block.now }
{
    if changed == 0 {
        return m;
    }
    measure(block)
}

// Keeps what block i is laid down by.
fn keep(range: Range, steps: usize, i: usize, kept: &mut [u64])
    requires i_bound { i < 256 }
    requires kept_len { length kept.old ≡ 768 }
    ensures { kept.new
        ≡ set (set (set kept.old (i * 3) range.smallest) (i * 3 + 1) range.largest) (i * 3 + 2) steps }
{
    let at = i * 3;
    kept[at] = range.smallest;
    kept[at + 1] = range.largest;
    kept[at + 2] = steps as u64;
}

// The lowest place of a block that is taken, and the block's length where there is none. A block that has no new number
// between its smallest and its largest has none.
fn first_taken(block: &[u64], range: Range, old: &[u64], new: &[u64], order: &[u64]) -> usize
    requires range_value { range ≡ true_range block.now }
    requires paired { Paired old.now new.now order.now }
    ensures { result ≡ taken_in old.now new.now block.now }
{
    if !pairs::meets_along(order, new, range.smallest, range.largest) {
        return block.len();
    }
    for (k, x) in block.iter().enumerate() {
        if !pairs::is_free(old, new, order, *x) {
            return k;
        }
    }
    block.len()
}

// Renumbers a block, and gives how many of its numbers changed. In a block that has no old number between its smallest
// and its largest none does.
fn replace(block: &mut [u64], range: Range, old: &[u64], new: &[u64]) -> usize
    requires range_value { range ≡ true_range block.old }
    requires rising { Rising old.now }
    requires len { length new.now ≡ length old.now }
    ensures value { result ≡ length (changed_in old.now new.now block.old) }
    ensures block_after { block.new ≡ new_block old.now new.now block.old }
{
    if !pairs::meets(old, range.smallest, range.largest) {
        return 0;
    }
    replace_all(block, old, new)
}

// The same, number by number.
fn replace_all(block: &mut [u64], old: &[u64], new: &[u64]) -> usize
    requires rising { Rising old.now }
    requires len { length new.now ≡ length old.now }
    ensures value { result ≡ length (changed_in old.now new.now block.old) }
    ensures block_after { block.new ≡ new_block old.now new.now block.old }
{
    let mut changed = 0;
    for k in 0..block.len() {
        let x = block[k];
        let y = pairs::renumber_one(old, new, x);
        if y != x {
            changed += 1;
        }
        block[k] = y;
    }
    changed
}

// Writes the new file to an output that has room for it.
fn lay_file(file: &[u8], old: &[u64], new: &[u64], kept: &[u64], counts: &[u64], output: &mut [u8])
    requires ready { Ready old.now new.now file.now kept.now counts.now }
    requires file_in_bounds { length (new_file old.now new.now file.now) ≤ length output.old }
    ensures { output.new
        ≡ over 0 (new_file old.now new.now file.now) output.old }
{
    let n = count(file);
    put_head(n as u16, output);
    lay_blocks(file, old, new, kept, counts, output);
}

// Writes the entries and the bodies of all blocks, behind the first four bytes.
fn lay_blocks(
    file: &[u8],
    old: &[u64],
    new: &[u64],
    kept: &[u64],
    counts: &[u64],
    output: &mut [u8],
)
    requires ready { Ready old.now new.now file.now kept.now counts.now }
    requires file_in_bounds { length (new_file old.now new.now file.now) ≤ length output.old }
    ensures { output.new
        ≡ over 4 (entries_for (new_rows old.now new.now file.now)
        (count_in file.now) ++ bodies_for
        (new_rows old.now new.now file.now) (count_in file.now))
        output.old }
{
    let n = count(file);
    let mut block = [0u64; 1024];
    let mut plain = [0u64; 1024];
    let mut frame = [0u64; 1024];
    let mut rest = [0u64; 1040];
    let mut at = 4 + n * 32;
    let mut body = bodywise::first(file);
    while body.number < n {
        new_block(file, body.number, body.at, old, new, counts, &mut block);
        at += lay_one(
            &block,
            kept,
            body.number,
            at,
            &mut plain,
            &mut frame,
            &mut rest,
            output,
        );
        let next = bodywise::next(file, body);
        body = next;
    }
}

// Lays block i down, whose body begins at `from`, and renumbers it where the count says that something changes.
fn new_block(
    file: &[u8],
    i: usize,
    from: usize,
    old: &[u64],
    new: &[u64],
    counts: &[u64],
    block: &mut [u64],
)
    requires file_taken { FileTaken file.now }
    requires i_bound { i < count_in file.now }
    requires from_value { from ≡ body_start file.now i }
    requires rising { Rising old.now }
    requires len { length new.now ≡ length old.now }
    requires counts_len { (length counts.now ≡ 256) × (length block.old ≡ 1024) }
    requires i_value { get_or counts.now i 0 ≡ length (changed_in old.now new.now (block_in file.now i)) }
    ensures { block.new ≡ new_block old.now new.now (block_in file.now i) }
{
    let _ = block_from(file, i, from, block);
    if counts[i] == 0 {
        return;
    }
    replace_all(block, old, new);
}

// Writes the body of block i from place `at` on, and its entry with its range, and gives the length of the body. There
// is room, so the body is not refused.
fn lay_one(
    block: &[u64],
    kept: &[u64],
    i: usize,
    at: usize,
    plain: &mut [u64],
    frame: &mut [u64],
    rest: &mut [u64],
    output: &mut [u8],
) -> usize
    requires block_len { length block.now ≡ 1024 }
    requires i_bound { (i < 256) × (length kept.now ≡ 768) }
    requires kept_at { KeptAt block.now kept.now i }
    requires rooms { Rooms plain.old frame.old rest.old }
    requires i_bound_2 { (contents_size 2 (i + 1) ≤ at) × (at + (chosen block.now).entry.length ≤ length output.old) }
    ensures value { result ≡ (chosen block.now).entry.length }
    ensures output_after { output.new
        ≡ over (contents_size 2 i)
        (entry_bytes (chosen block.now).entry (true_range block.now))
        (over at (body_for block.now) output.old) }
{
    let k = i * 3;
    let range = Range {
        smallest: kept[k],
        largest: kept[k + 1],
    };
    let steps = kept[k + 2] as usize;
    let _ = lay_by(range, steps, block, plain, frame, rest, &mut output[at..]);
    let e = entry_with(range, steps);
    put_entry(e, range, 4 + i * 32, output);
    e.length as usize
}
