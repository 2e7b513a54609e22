// A tour in a screenful, for a person: a block is packed, a row is looked up, two calls are refused, a budget is kept,
// a width does damage that is too narrow for its numbers, dates are transposed before their differences are taken, and
// a column file is written and read. The program reads nothing. What it must write stands in crates/tour/stdout, worked
// out by hand from the rules (docs/RULES.md).
#![tactic(auto)]

use access::Single;
use contents::{FileAnswer, number_of, place_of};
use places::Answer;

// The number of standard output among the open files.
const STDOUT: i32 = 1;

fn main() {
    let rows = each_its_row();
    let mut packed = [0u8; 384];
    let answer = packing::pack(3, &rows, &mut packed);
    show_block(answer, &packed);
    show_lookup(&packed);
    show_list(&packed);
    show_budget(&packed);
    show_widths();
    show_dates();
    show_file();
}

// The block in which each value is the number of its row: a block of u8 values has 128 lanes, so each 128 places are a
// row.
fn each_its_row() -> [u8; 1024] {
    let mut rows = [0u8; 1024];
    for i in 0..1024 {
        rows[i] = (i / 128) as u8;
    }
    rows
}

// The answer of pack, and the packed bytes of the first lane (P6).
fn show_block(answer: Answer, packed: &[u8; 384]) {
    say(b"A block of 1024 path numbers, in which each lane holds 0 to 7 in its rows,\n");
    say(b"is packed at width 3, from 1024 bytes to 384. Number 0 says that it is done:\n");
    show_answer(answer);
    say(b"These are the packed bytes of lane 0:\n");
    line(b"  ", wide(packed[0]), b" at ", 0);
    line(b"  ", wide(packed[128]), b" at ", 128);
    line(b"  ", wide(packed[256]), b" at ", 256);
}

// One row from the packed block (P7), and the same at a width that there is not.
fn show_lookup(packed: &[u8; 384]) {
    say(b"\nA stub looks up the row at place 256 in the packed block:\n");
    look_up(3, packed);
    say(b"It asks again at width 9, and is refused, since a byte has 8 bits:\n");
    look_up(9, packed);
}

fn look_up(width: usize, packed: &[u8; 384]) {
    let single = access::unpack_single(width, packed, 256);
    match single {
        Single::Value(x, n) => {
            line(b"  ", wide(x), b" at ", 256);
            line(b"  packed words that hold it: ", n, b" of ", 384);
        }
        Single::Refused(answer) => show_answer(answer),
    }
}

// A list of places of which the block does not have the third.
fn show_list(packed: &[u8; 384]) {
    let mut output = [77u8; 3];
    let answer = access::unpack_indices(3, packed, &[0, 256, 1024], &mut output).answer();
    say(b"\nA stub asks for a list of places: 0, 256 and 1024. A block ends at 1023,\n");
    say(b"so the list is refused, and the place is that of the bad entry:\n");
    show_answer(answer);
    say(b"Its output held 77 in every entry, and still does:\n");
    line(b"  ", wide(output[0]), b" at ", 0);
    line(b"  ", wide(output[1]), b" at ", 1);
    line(b"  ", wide(output[2]), b" at ", 2);
}

// Two places under a budget of packed words that is enough for one of them.
fn show_budget(packed: &[u8; 384]) {
    let mut output = [77u8; 2];
    let found = access::unpack_within(3, packed, &[0, 256], 2, &mut output);
    say(b"\nA stub asks for the places 0 and 256 with a budget of 2 packed words. The first\n");
    say(b"stands in one word and the second in two, so only the first is answered:\n");
    line(b"  lookups answered: ", found.answered() as u64, b" of ", 2);
    line(b"  packed words read: ", found.words(), b" of ", 2);
    line(b"  ", wide(output[0]), b" at ", 0);
    line(b"  ", wide(output[1]), b" at ", 1);
}

// Numbers that a width is too narrow for. That is no refusal: they come back as others, and P8 is such a case.
fn show_widths() {
    let mut wider = [0u8; 512];
    let mut narrower = [0u8; 384];
    say(b"\nA path number 9 is packed and unpacked. Width 3 is too narrow for it,\n");
    say(b"and that is not refused: it shows only in what comes back.\n");
    line(b"  ", wide(packed_back(4, 9, &mut wider)), b" at width ", 4);
    line(
        b"  ",
        wide(packed_back(3, 9, &mut narrower)),
        b" at width ",
        3,
    );
    say(b"\nA path number 3 is packed by its difference from 250, which is 9 modulo 256.\n");
    line(
        b"  ",
        wide(framed_back(4, 3, 250, &mut wider)),
        b" at width ",
        4,
    );
    line(
        b"  ",
        wide(framed_back(3, 3, 250, &mut narrower)),
        b" at width ",
        3,
    );
}

// What comes back at place 0 of a block of x that is packed and unpacked.
fn packed_back(width: usize, x: u8, packed: &mut [u8]) -> u8 {
    let values = [x; 1024];
    let mut back = [0u8; 1024];
    packing::pack(width, &values, packed);
    packing::unpack(width, packed, &mut back);
    back[0]
}

// The same by differences from the reference.
fn framed_back(width: usize, x: u8, reference: u8, packed: &mut [u8]) -> u8 {
    let values = [x; 1024];
    let mut back = [0u8; 1024];
    deltas::for_pack(width, &values, reference, packed);
    deltas::unfor_pack(width, packed, reference, &mut back);
    back[0]
}

// A block of dates, whose neighbours meet in a lane where it is transposed first (crates/dates/specs/Dates.antt).
fn show_dates() {
    let days = working_days();
    let mut turned = [0u16; 1024];
    places::transpose(&days, &mut turned);
    say(b"\nA block of 1024 dates has the working days from day 20000 on: each is 1 or 3 days\n");
    say(b"after the one before. Delta stores each row of a lane minus the row before it.\n");
    say(b"Of lane 0 these are rows 1, 5 and 8, as the block stands and transposed first:\n");
    show_rows(differences(&days), differences(&turned));
    say(b"From row 1 on 2 bits are enough for each difference of the transposed block,\n");
    say(b"and those of the block as it stands take all 16.\n");
}

// Rows 1, 5 and 8 of lane 0 stand at the places 128, 640 and 64.
fn show_rows(apart: [u16; 1024], met: [u16; 1024]) {
    line(b"  ", date(apart[128]), b", transposed ", date(met[128]));
    line(b"  ", date(apart[640]), b", transposed ", date(met[640]));
    line(b"  ", date(apart[64]), b", transposed ", date(met[64]));
}

// After each five days two are left out.
fn working_days() -> [u16; 1024] {
    let mut days = [0u16; 1024];
    for i in 0..1024 {
        days[i] = (20000 + i + i / 5 * 2) as u16;
    }
    days
}

// What delta stores of the dates. The base is zeros, so row 0 stores its dates as they are.
fn differences(dates: &[u16; 1024]) -> [u16; 1024] {
    let mut numbers = [0u16; 1024];
    deltas::delta(dates, &[0u16; 64], &mut numbers);
    numbers
}

// A column file of one block. Of the three ways to write it the frame is the shortest: the numbers are at most 2 above
// the smallest, so its width is 2 and its body 256 bytes, behind the 20 bytes of the contents.
fn show_file() {
    let mut values = sevens();
    values[3] = 9;
    let mut file = [77u8; 292];
    let written = writer::write(&values, &mut file);
    say(b"\nA column of 1024 path numbers, sevens but for a 9 in row 3, is written as a\n");
    say(b"file. This is its length in bytes, and then the number of the check:\n");
    line(b"  ", written.unwrap_or(0) as u64, b" bytes of ", 292);
    show_file_answer(files::check(&file));
    say(b"A stub asks the file for row 3, and then for row 1024, which there is not:\n");
    show_row(&file, 3);
    show_row(&file, 1024);
    say(b"With room for one byte less nothing is written, and the room holds 77 as before:\n");
    show_short(&values);
}

fn sevens() -> [u64; 1024] {
    [7; 1024]
}

fn show_row(file: &[u8; 292], row: usize) {
    match files::row_at(file, row) {
        Ok(found) => line(b"  ", found.value, b" in row ", row as u64),
        Err(refusal) => show_file_answer(Err(refusal)),
    }
}

fn show_short(values: &[u64; 1024]) {
    let mut room = [77u8; 275];
    let written = writer::write(values, &mut room);
    show_file_answer(written.and(Ok(())));
    line(b"  ", wide(room[0]), b" at ", 0);
}

fn show_file_answer(answer: FileAnswer) {
    line(
        b"  number ",
        number_of(answer) as u64,
        b", place ",
        place_of(answer) as u64,
    );
}

fn show_answer(answer: Answer) {
    line(
        b"  number ",
        answer.number() as u64,
        b", place ",
        answer.place() as u64,
    );
}

// A line with two numbers.
fn line(before: &[u8], first: u64, between: &[u8], second: u64) {
    say(before);
    io::print_decimal(STDOUT, first);
    say(between);
    io::print_decimal(STDOUT, second);
    say(b"\n");
}

fn say(text: &[u8]) {
    io::write_all(STDOUT, text);
}

// A cast in a function of its own leaves nothing to prove where it is used.
fn wide(x: u8) -> u64 {
    x as u64
}

fn date(x: u16) -> u64 {
    x as u64
}
