// The calls on column files of u64 numbers, for programs in C and in Rust. The first ones take a whole file. A program
// that holds only the front of a file, its contents, and one body at a time asks the ones that come after them.
ghost use Rattle.std.specs.Prelude.{◌≡◌, ◌*◌, min};
ghost use Rattle.contents.specs.Answers.{file_answer};
ghost use Rattle.contents.specs.Contents.{contents_size, contents_tests, edition_or, count_or, entry_or, range_or};
ghost use Rattle.files.specs.Files.{file_tests, block_out_tests, block_out_leaves};
ghost use Rattle.files.specs.Rows.{row_of, row_from_lem};
ghost use Rattle.writer.specs.Writer.{written_of, file_leaves};
ghost use Rattle.search.specs.Search.{found_of, search_leaves};
ghost use Rattle.search.specs.Steps.{opens_by, listed_of, listed_leaves};
ghost use Rattle.rewrite.specs.Rewrite.{rewritten_of, rewrite_leaves};
ghost use Rattle.renumber.specs.Renumber.{renumbered_of, renumber_leaves};
ghost use Rattle.canonical.specs.Canonical.{canonical_tests};
ghost use Rattle.bodywise.specs.Cursor.{body_at, first_body, next_body};
ghost use Rattle.bodywise.specs.Steps.{front_size, held_tests as body_tests, held_leaves as body_leaves, range_tests};
ghost use Rattle.compare.specs.Changes.{compared_of, differing_leaves};
ghost use Rattle.compare.specs.Ranges.{same_range};
ghost use Rattle.exports.specs.FileHanded.{FileHanded, RowHanded, WrittenHanded, RenumberedHanded, FoundHanded, ComparedHanded, EntryHanded, RangeHanded, BodyHanded};

use access::{NO_COUNT, Words};
use bodywise::{Body, body_at, check_block, first, front_length, next, row_count};
use compare::{blocks_in_both, differing, same_range};
use contents::{
    Entry, FileAnswer, FileRefusal, Range, contents_length, count, edition, entry_or, number_of,
    place_of, range_or,
};
use files::{Row, block_out, row_at, row_from};
use renumber::{RenumberRefusal, Renumbered, renumber};
use rewrite::rewrite;
use search::{Found, opens, rows_in, search};
use writer::write;

// Checks a column file, whole.
#[unsafe(no_mangle)]
pub extern "C" fn fascjoldi_file_check(file: &[u8], place: &mut usize) -> usize
    ensures { FileHanded (file_answer (file_tests file.now)) result place.new }
{
    hand(files::check(file), place)
}

// Checks a column file, and says whether its bytes are what our writer would have written.
#[unsafe(no_mangle)]
pub extern "C" fn fascjoldi_file_check_canonical(file: &[u8], place: &mut usize) -> usize
    ensures { FileHanded (file_answer (canonical_tests file.now)) result place.new }
{
    hand(canonical::check(file), place)
}

// Checks a column file, and lays down the 1,024 numbers of one of its blocks.
#[unsafe(no_mangle)]
pub extern "C" fn fascjoldi_file_block_out(
    file: &[u8],
    block: usize,
    output: &mut [u64],
    place: &mut usize,
) -> usize
    ensures file_handed { FileHanded (file_answer (block_out_tests file.now block output.old)) result place.new }
    ensures output_after { output.new ≡ block_out_leaves file.now block output.old }
{
    hand(block_out(file, block, output), place)
}

// Checks a column file, and gives the number at one row and in how many packed words it stands, 2^64 - 1 where there is
// no such count; refused, the value is 0.
#[unsafe(no_mangle)]
pub extern "C" fn fascjoldi_file_row_at(
    file: &[u8],
    row: usize,
    value: &mut u64,
    words: &mut Words,
    place: &mut usize,
) -> usize
    ensures { RowHanded (row_of file.now row) result value.new words.new place.new }
{
    hand_row(row_at(file, row), value, words, place)
}

// Writes a column file of whole blocks of numbers, and says how many bytes it has; refused, the length is 0. The output
// behind the file stays as it was.
#[unsafe(no_mangle)]
pub extern "C" fn fascjoldi_file_write(
    values: &[u64],
    output: &mut [u8],
    length: &mut usize,
    place: &mut usize,
) -> usize
    ensures written_handed { WrittenHanded (written_of values.now output.old) result length.new place.new }
    ensures output_after { output.new ≡ file_leaves values.now output.old }
{
    hand_written(write(values, output), length, place)
}

// Writes the rows of any readable column file as our writer would, and says how many bytes the new file has; refused,
// the length is 0. The output behind the new file stays as it was.
#[unsafe(no_mangle)]
pub extern "C" fn fascjoldi_file_rewrite(
    file: &[u8],
    output: &mut [u8],
    length: &mut usize,
    place: &mut usize,
) -> usize
    ensures written_handed { WrittenHanded (rewritten_of file.now output.old) result length.new place.new }
    ensures output_after { output.new ≡ rewrite_leaves file.now output.old }
{
    hand_written(rewrite(file, output), length, place)
}

// Gives the rows of any readable column file new numbers and writes them as our writer would: a row whose number is the
// old number of a pair gets the new number at the same place, and every other row stays. The old numbers have to rise,
// no new number may stand twice, and the order has the places of the pairs by rising new number. A number of the file
// that is no old number may not be a new one: so no two numbers become one. Says how many bytes the new file has and
// how many rows changed; refused, both are 0. The output behind the new file stays as it was.
#[unsafe(no_mangle)]
pub extern "C" fn fascjoldi_file_renumber(
    file: &[u8],
    olds: &[u64],
    news: &[u64],
    order: &[u64],
    output: &mut [u8],
    length: &mut usize,
    changed: &mut usize,
    place: &mut usize,
) -> usize
    ensures renumbered_handed { RenumberedHanded
        (renumbered_of file.now olds.now news.now order.now
        output.old) result length.new changed.new place.new }
    ensures output_after { output.new
        ≡ renumber_leaves file.now olds.now news.now order.now
        output.old }
{
    hand_renumbered(
        renumber(file, olds, news, order, output),
        length,
        changed,
        place,
    )
}

// Lists the rows whose number lies between two bounds, both included, and says how many they are and how many blocks
// were opened; refused, both are 0. The room behind the rows stays as it was.
#[unsafe(no_mangle)]
pub extern "C" fn fascjoldi_file_search(
    file: &[u8],
    low: u64,
    high: u64,
    rows: &mut [u64],
    found: &mut usize,
    opened: &mut usize,
    place: &mut usize,
) -> usize
    ensures found_handed { FoundHanded (found_of file.now low high rows.old) result found.new
        opened.new place.new }
    ensures rows_after { rows.new ≡ search_leaves file.now low high rows.old }
{
    hand_found(search(file, low, high, rows), found, opened, place)
}

// Says how many bytes of a file are its front, by its first four: the front is the head and the contents, and the
// bodies stand behind it. It is 4 where the head is shorter than that, or says contents of more than 8,196 bytes.
#[unsafe(no_mangle)]
pub extern "C" fn fascjoldi_front_length(head: &[u8]) -> usize
    ensures { result ≡ front_size head.now }
{
    front_length(head)
}

// Checks the contents of a file of so many bytes; the bodies are not looked at.
#[unsafe(no_mangle)]
pub extern "C" fn fascjoldi_front_check(front: &[u8], size: usize, place: &mut usize) -> usize
    ensures { FileHanded (file_answer (contents_tests front.now size)) result place.new }
{
    hand(contents::check(front, size), place)
}

// Says the edition of a file, by its front; 0 where that is too short.
#[unsafe(no_mangle)]
pub extern "C" fn fascjoldi_front_edition(front: &[u8]) -> usize
    ensures { result ≡ edition_or front.now }
{
    edition(front)
}

// Says how many blocks a file has, by its front; 0 where that is too short.
#[unsafe(no_mangle)]
pub extern "C" fn fascjoldi_front_count(front: &[u8]) -> usize
    ensures { result ≡ count_or front.now }
{
    count(front)
}

// Says how many rows a file has, by its front; 0 where that is too short.
#[unsafe(no_mangle)]
pub extern "C" fn fascjoldi_front_row_count(front: &[u8]) -> u64
    ensures { result ≡ count_or front.now * 1024 }
{
    row_count(front)
}

// Says where the first body of a file begins, by its front.
#[unsafe(no_mangle)]
pub extern "C" fn fascjoldi_front_contents_length(front: &[u8]) -> usize
    ensures { result ≡ contents_size (edition_or front.now) (count_or front.now) }
{
    contents_length(front)
}

// Gives what the contents say of a block: its kind, its width, the two bytes that are to be 0, the bytes of its body,
// and its reference. Where the front that is lent ends before the end of such an entry the kind is 255 and all else 0.
#[unsafe(no_mangle)]
pub extern "C" fn fascjoldi_front_entry(
    front: &[u8],
    block: usize,
    kind: &mut u8,
    width: &mut u8,
    zero: &mut u16,
    length: &mut u32,
    reference: &mut u64,
)
    ensures { EntryHanded (entry_or front.now block) kind.new width.new zero.new
        length.new reference.new }
{
    hand_entry(entry_or(front, block), kind, width, zero, length, reference);
}

// Gives the smallest and the largest number that the contents say of a block; 0 and 2^64 - 1 where they say none: in an
// edition that is not 2, and where the front that is lent has no such entry.
#[unsafe(no_mangle)]
pub extern "C" fn fascjoldi_front_range(
    front: &[u8],
    block: usize,
    smallest: &mut u64,
    largest: &mut u64,
)
    ensures { RangeHanded (range_or front.now block) smallest.new largest.new }
{
    hand_range(range_or(front, block), smallest, largest);
}

// Says whether the fronts of two files say the same of the smallest and the largest number of a block; no where their
// editions differ.
#[unsafe(no_mangle)]
pub extern "C" fn fascjoldi_front_same_range(left: &[u8], right: &[u8], block: usize) -> bool
    ensures { result ≡ same_range left.now right.now block }
{
    same_range(left, right, block)
}

// Says how many blocks are in both of two files, by their fronts.
#[unsafe(no_mangle)]
pub extern "C" fn fascjoldi_front_blocks_in_both(left: &[u8], right: &[u8]) -> u16
    ensures { result ≡ min (count_or left.now) (count_or right.now) }
{
    blocks_in_both(left, right)
}

// Checks one body against the contents, and lays down its 1,024 numbers. Of 8 and 11 it is the body that is cut short
// or too long; 10, also where the front has no such entry, and 13 have the block as place.
#[unsafe(no_mangle)]
pub extern "C" fn fascjoldi_body_block_out(
    front: &[u8],
    block: usize,
    body: &[u8],
    output: &mut [u64],
    place: &mut usize,
) -> usize
    ensures file_handed { FileHanded (file_answer (body_tests front.now block body.now output.old)) result
        place.new }
    ensures output_after { output.new
        ≡ body_leaves front.now block body.now output.old }
{
    hand(bodywise::held_block(front, block, body, output), place)
}

// Checks the smallest and the largest of a block's numbers, which were laid down, against what the contents say: 10
// with the block where its entry is not right, then 15 with the block; edition 1 says no smallest and largest number,
// so there 15 is not given. Any length of values is taken.
#[unsafe(no_mangle)]
pub extern "C" fn fascjoldi_body_check_range(
    front: &[u8],
    block: usize,
    values: &[u64],
    place: &mut usize,
) -> usize
    ensures { FileHanded (file_answer (range_tests front.now block values.now)) result place.new }
{
    hand(check_block(front, block, values), place)
}

// Gives the first body of a file, by its front: its number, which is 0, where it begins, and how many bytes its entry
// says. The length is 0 where the front that is lent has no such entry, as that of a file of no blocks has none.
#[unsafe(no_mangle)]
pub extern "C" fn fascjoldi_body_first(
    front: &[u8],
    number: &mut usize,
    start: &mut usize,
    length: &mut u32,
)
    ensures { BodyHanded (first_body front.now) number.new start.new length.new }
{
    hand_body(first(front), number, start, length);
}

// Goes on from a body of a file, whose number and beginning are lent, to the body behind it, by the front of the file.
// Where the contents are right, the number behind the last body is the count of blocks, and the beginning is where the
// file ends; the length is 0 there, since the front has no such entry. Where more than the front is lent, as the whole
// file, it is read from what stands behind the front, and says nothing. A body without an entry counts as one of no
// bytes.
#[unsafe(no_mangle)]
pub extern "C" fn fascjoldi_body_next(
    front: &[u8],
    number: &mut usize,
    start: &mut usize,
    length: &mut u32,
)
    ensures { BodyHanded
        (next_body front.now (body_at front.now number.old start.old))
        number.new start.new length.new }
{
    hand_body(behind(front, *number, *start), number, start, length);
}

// Gives the number at one row of a column file out of the body with that number, which begins at that start, and in how
// many packed words it stands, 2^64 - 1 where there is no such count; refused, the value is 0. The file is not checked:
// of a file that was, and of a body that fascjoldi_body_first and fascjoldi_body_next gave, the answer is that of
// fascjoldi_file_row_at. 8 where the body does not all stand in the file, then 10 with its number where its entry is
// not right, 12 where the row is not of its block, and 13 with its number where one of its run indices is out of range.
#[unsafe(no_mangle)]
pub extern "C" fn fascjoldi_file_row_from(
    file: &[u8],
    number: usize,
    start: usize,
    row: usize,
    value: &mut u64,
    words: &mut Words,
    place: &mut usize,
) -> usize
    ensures { RowHanded (row_from_lem file.now number start row) result value.new words.new
        place.new }
{
    hand_row(row_from(file, number, start, row), value, words, place)
}

// Says whether a search between two bounds opens a block, by the front of the file: the bodies of the other blocks need
// not be read. In edition 1 every block is opened, and a block that the front has no entry of is where the lower bound
// is not above the upper one.
#[unsafe(no_mangle)]
pub extern "C" fn fascjoldi_search_opens(front: &[u8], block: usize, low: u64, high: u64) -> bool
    ensures { result ≡ opens_by front.now low high block }
{
    opens(front, block, low, high)
}

// Lists the rows of a block, whose 1,024 numbers were laid down, that lie between two bounds, both included, and says
// how many they are, and that one block was opened; refused, both are 0. Values that are not 1,024 long are refused
// with 2, a block that no file has, 256 or higher, with 12, and room that is too short with 14. The room behind the
// rows stays as it was.
#[unsafe(no_mangle)]
pub extern "C" fn fascjoldi_search_rows(
    values: &[u64],
    block: usize,
    low: u64,
    high: u64,
    rows: &mut [u64],
    found: &mut usize,
    opened: &mut usize,
    place: &mut usize,
) -> usize
    ensures found_handed { FoundHanded (listed_of values.now block low high rows.old) result found.new
        opened.new place.new }
    ensures rows_after { rows.new ≡ listed_leaves values.now block low high rows.old }
{
    hand_found(
        rows_in(values, block, low, high, rows),
        found,
        opened,
        place,
    )
}

// Lists the places at which two blocks of 1,024 numbers differ, rising, and gives how many they are; refused, the count
// is 0. The places behind these stay as they were. A block or room for places that is not 1,024 long is refused with 2.
#[unsafe(no_mangle)]
pub extern "C" fn fascjoldi_block_differing(
    left: &[u64],
    right: &[u64],
    places: &mut [u16],
    count: &mut usize,
    place: &mut usize,
) -> usize
    ensures compared_handed { ComparedHanded (compared_of left.now right.now places.old) result count.new
        place.new }
    ensures places_after { places.new
        ≡ differing_leaves left.now right.now places.old }
{
    hand_compared(differing(left, right, places), count, place)
}

// Hands the answer of a call on a file over: its place through the lent number, and its number as the result.
fn hand(answer: FileAnswer, place: &mut usize) -> usize
    ensures { FileHanded answer result place.new }
{
    *place = place_of(answer);
    number_of(answer)
}

// Hands over what the lookup of a row gives. The count of words is `NO_COUNT` where there is no count.
fn hand_row(
    found: Result<Row, FileRefusal>,
    value: &mut u64,
    words: &mut Words,
    place: &mut usize,
) -> usize
    ensures { RowHanded found result value.new words.new place.new }
{
    match found {
        Ok(row) => {
            *value = row.value;
            *words = row.words.unwrap_or(NO_COUNT);
            hand(Ok(()), place)
        }
        Err(refusal) => {
            *value = 0;
            *words = NO_COUNT;
            hand(Err(refusal), place)
        }
    }
}

// Hands over what the writing of a file gives.
fn hand_written(written: Result<usize, FileRefusal>, length: &mut usize, place: &mut usize) -> usize
    ensures { WrittenHanded written result length.new place.new }
{
    match written {
        Ok(n) => {
            *length = n;
            hand(Ok(()), place)
        }
        Err(refusal) => {
            *length = 0;
            hand(Err(refusal), place)
        }
    }
}

// Hands over what a renumbering gives.
fn hand_renumbered(
    renumbered: Result<Renumbered, RenumberRefusal>,
    length: &mut usize,
    changed: &mut usize,
    place: &mut usize,
) -> usize
    ensures { RenumberedHanded renumbered result length.new changed.new place.new }
{
    match renumbered {
        Ok(given) => {
            *length = given.length;
            *changed = given.changed;
            *place = 0;
            0
        }
        Err(refusal) => {
            *length = 0;
            *changed = 0;
            *place = refusal.place();
            refusal.number()
        }
    }
}

// Hands over what a search gives.
fn hand_found(
    listed: Result<Found, FileRefusal>,
    found: &mut usize,
    opened: &mut usize,
    place: &mut usize,
) -> usize
    ensures { FoundHanded listed result found.new opened.new place.new }
{
    match listed {
        Ok(given) => {
            *found = given.rows;
            *opened = given.opened;
            hand(Ok(()), place)
        }
        Err(refusal) => {
            *found = 0;
            *opened = 0;
            hand(Err(refusal), place)
        }
    }
}

// Hands over what the comparison of two blocks gives.
fn hand_compared(
    compared: Result<usize, FileRefusal>,
    count: &mut usize,
    place: &mut usize,
) -> usize
    ensures { ComparedHanded compared result count.new place.new }
{
    match compared {
        Ok(n) => {
            *count = n;
            hand(Ok(()), place)
        }
        Err(refusal) => {
            *count = 0;
            hand(Err(refusal), place)
        }
    }
}

// Hands over an entry.
fn hand_entry(
    e: Entry,
    kind: &mut u8,
    width: &mut u8,
    zero: &mut u16,
    length: &mut u32,
    reference: &mut u64,
)
    ensures { EntryHanded e kind.new width.new zero.new length.new
        reference.new }
{
    *kind = e.kind;
    *width = e.width;
    *zero = e.zero;
    *length = e.length;
    *reference = e.reference;
}

// Hands over a range.
fn hand_range(range: Range, smallest: &mut u64, largest: &mut u64)
    ensures { RangeHanded range smallest.new largest.new }
{
    *smallest = range.smallest;
    *largest = range.largest;
}

// The body behind the one with this number that begins here.
fn behind(front: &[u8], number: usize, start: usize) -> Body
    ensures { result ≡ next_body front.now (body_at front.now number start) }
{
    next(front, body_at(front, number, start))
}

// Hands over a body of the walk.
fn hand_body(body: Body, number: &mut usize, start: &mut usize, length: &mut u32)
    ensures { BodyHanded body number.new start.new length.new }
{
    *number = body.number;
    *start = body.at;
    *length = body.entry.length;
}
