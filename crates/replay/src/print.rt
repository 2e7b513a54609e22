// The lines that a run prints.
use stream::Tally;

// The number of standard output among the open files.
const STDOUT: i32 = 1;

// The lines for a stream that was read to its end.
pub fn print_tally(tally: Tally) {
    print_part(b"cases ", tally.cases);
    print_part(b"\ndiffer ", tally.differ);
    if tally.differ != 0 {
        print_part(b"\nfirst ", tally.first);
        print_part(b" op ", tally.op as u64);
        print_part(b" t ", tally.t as u64);
        print_part(b" width ", tally.width as u64);
    }
    io::write_all(STDOUT, b"\n");
}

// The line for a stream that is not one, from the case with this number on.
pub fn print_bad(at: u64) {
    print_part(b"bad stream at ", at);
    io::write_all(STDOUT, b"\n");
}

// A part of a line: words, and a number after them.
fn print_part(words: &[u8], n: u64) {
    io::write_all(STDOUT, words);
    io::print_decimal(STDOUT, n);
}
