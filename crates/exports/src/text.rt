// What a program that prints and reads numbers asks besides, in C and in Rust: numbers in decimal, and what is said of
// a block to a person.
ghost use Rattle.std.specs.Prelude.{◌≡◌};
ghost use Rattle.contents.specs.Contents.{entry_or};
ghost use Rattle.decimal.specs.Calls.{parsed_of, laid_of, lay_leaves};
ghost use Rattle.summary.specs.Summary.{summary_of, thousandths_of, marks_of, place_in};
ghost use Rattle.exports.specs.TextHanded.{parsed_number, parsed_value, parsed_place, ParsedHanded, SummaryHanded};

use decimal::{NoNumber, Parsed, lay, parse};
use summary::{Summary, marks, of_block, place_in, thousandths};

// Reads a text of decimal digits as a number; zeros at the front are taken. The result is 0 and the value is the
// number; or it is 1 for a text of no bytes, 2 for one with a byte that is no digit, with the lowest such place, or 3
// for a number of 2^64 or more, and the value is 0.
#[unsafe(no_mangle)]
pub extern "C" fn fascjoldi_decimal_parse(text: &[u8], value: &mut u64, place: &mut usize) -> usize
    ensures { ParsedHanded (parsed_of text.now) result value.new place.new }
{
    hand_parsed(parse(text), value, place)
}

// Lays the decimal digits of a number at the front of the output, and gives how many bytes they are, from 1 to 20; 0,
// and nothing is laid, where they do not fit.
#[unsafe(no_mangle)]
pub extern "C" fn fascjoldi_decimal_lay(value: u64, output: &mut [u8]) -> usize
    ensures value { result ≡ laid_of value output.old }
    ensures output_after { output.new ≡ lay_leaves value output.old }
{
    lay(value, output)
}

// Gives what is said of a block, whose numbers were laid down: its kind, its width, the bytes of its body and its
// reference, as the front of the file says, and the smallest and the largest of the numbers.
#[unsafe(no_mangle)]
pub extern "C" fn fascjoldi_summary_of_block(
    front: &[u8],
    block: usize,
    values: &[u64],
    kind: &mut u8,
    width: &mut u8,
    length: &mut u32,
    reference: &mut u64,
    smallest: &mut u64,
    largest: &mut u64,
)
    ensures { SummaryHanded (summary_of (entry_or front.now block) values.now) kind.new
        width.new length.new reference.new smallest.new
        largest.new }
{
    hand_summary(
        of_block(front, block, values),
        kind,
        width,
        length,
        reference,
        smallest,
        largest,
    );
}

// Says how many thousandths of a byte a row takes, where so many rows take so many bytes, rounded down; 0 for no rows.
#[unsafe(no_mangle)]
pub extern "C" fn fascjoldi_summary_thousandths(bytes: u32, rows: u32) -> u64
    ensures { result ≡ thousandths_of bytes rows }
{
    thousandths(bytes, rows)
}

// Says how many marks the bar of a width has: one for each four bits that are begun.
#[unsafe(no_mangle)]
pub extern "C" fn fascjoldi_summary_marks(width: u8) -> usize
    ensures { result ≡ marks_of width }
{
    marks(width)
}

// Says at which place of a block a row stands: 0 where it stands in a block before it, and 1,024 where it stands in one
// behind it.
#[unsafe(no_mangle)]
pub extern "C" fn fascjoldi_summary_place_in(row: u64, block: usize) -> usize
    ensures { result ≡ place_in row block }
{
    place_in(row, block)
}

// Hands over what a text is read as.
fn hand_parsed(parsed: Parsed, value: &mut u64, place: &mut usize) -> usize
    ensures { ParsedHanded parsed result value.new place.new }
{
    *value = parsed_value(parsed);
    *place = parsed_place(parsed);
    parsed_number(parsed)
}

// The number of what a text is read as,
fn parsed_number(parsed: Parsed) -> usize
    ensures { result ≡ parsed_number parsed }
{
    match parsed {
        Ok(_) => 0,
        Err(NoNumber::Empty) => 1,
        Err(NoNumber::Other(_)) => 2,
        Err(NoNumber::Large) => 3,
    }
}

// the value that was read,
fn parsed_value(parsed: Parsed) -> u64
    ensures { result ≡ parsed_value parsed }
{
    parsed.unwrap_or(0)
}

// and the place of the byte that is no digit.
fn parsed_place(parsed: Parsed) -> usize
    ensures { result ≡ parsed_place parsed }
{
    match parsed {
        Err(NoNumber::Other(p)) => p,
        _ => 0,
    }
}

// Hands over a summary.
fn hand_summary(
    summary: Summary,
    kind: &mut u8,
    width: &mut u8,
    length: &mut u32,
    reference: &mut u64,
    smallest: &mut u64,
    largest: &mut u64,
)
    ensures { SummaryHanded summary kind.new width.new length.new reference.new
        smallest.new largest.new }
{
    *kind = summary.kind;
    *width = summary.width;
    *length = summary.length;
    *reference = summary.reference;
    *smallest = summary.smallest;
    *largest = summary.largest;
}
