// The lines of R118 to R121, laid into the output. Each call gives the place behind what it laid.
ghost use Rattle.std.specs.Prelude.{◌≡◌, ◌+◌, ◌≤◌, length, Err};
ghost use Rattle.lists.specs.Tab.{over};
ghost use Rattle.listing.specs.Text.{field_of, refused_text, refusal_line, change_line, rows_line, last_lines};

use compare::Change;
use contents::FileRefusal;
use wishes::Side;

// A text, from a place on.
fn put_text(text: &[u8], out: &mut [u8], at: usize) -> usize
    requires { at + length text.now ≤ length out.old }
    ensures value { result ≡ at + length text.now }
    ensures out_after { out.new ≡ over at text.now out.old }
{
    for (i, byte) in text.iter().enumerate() {
        out[at + i] = *byte;
    }
    at + text.len()
}

// A number in decimal and the byte that ends it, from a place on.
fn put_field(n: u64, end: u8, out: &mut [u8], at: usize) -> usize
    requires { at + 21 ≤ length out.old }
    ensures value { result ≡ at + length (field_of n end) }
    ensures out_after { out.new ≡ over at (field_of n end) out.old }
{
    let k = decimal::lay(n, &mut out[at..]);
    out[at + k] = end;
    at + k + 1
}

// The line of a row whose numbers differ, from a place on.
pub fn put_change(change: Change, out: &mut [u8], at: usize) -> usize
    requires { at + 63 ≤ length out.old }
    ensures value { result ≡ at + length (change_line change) }
    ensures out_after { out.new ≡ over at (change_line change) out.old }
{
    let second = put_field(change.row, b' ', out, at);
    let third = put_field(change.left, b' ', out, second);
    put_field(change.right, b'\n', out, third)
}

// The line of a file that is refused, at the front.
pub fn put_refusal(side: Side, reason: FileRefusal, out: &mut [u8]) -> usize
    requires { 64 ≤ length out.old }
    ensures value { result ≡ length (refusal_line side (Err reason)) }
    ensures out_after { out.new ≡ over 0 (refusal_line side (Err reason)) out.old }
{
    let second = put_refused(side, out);
    let third = put_field(reason.number() as u64, b' ', out, second);
    put_field(reason.place() as u64, b'\n', out, third)
}

// Its words.
fn put_refused(side: Side, out: &mut [u8]) -> usize
    requires { 64 ≤ length out.old }
    ensures value { result ≡ length (refused_text side) }
    ensures out_after { out.new ≡ over 0 (refused_text side) out.old }
{
    match side {
        Side::Left => put_text(b"refused left ", out, 0),
        Side::Right => put_text(b"refused right ", out, 0),
    }
}

// The last lines, at the front: the row counts where they differ, and how many rows differ.
pub fn put_last(left: u64, right: u64, differences: u64, out: &mut [u8]) -> usize
    requires { 128 ≤ length out.old }
    ensures value { result ≡ length (last_lines left right differences) }
    ensures out_after { out.new ≡ over 0 (last_lines left right differences) out.old }
{
    let second = put_rows(left, right, out);
    let third = put_text(b"differences ", out, second);
    put_field(differences, b'\n', out, third)
}

// The line of the row counts, where they differ.
fn put_rows(left: u64, right: u64, out: &mut [u8]) -> usize
    requires { 64 ≤ length out.old }
    ensures value { result ≡ length (rows_line left right) }
    ensures out_after { out.new ≡ over 0 (rows_line left right) out.old }
{
    if left == right {
        return 0;
    }
    let second = put_text(b"rows ", out, 0);
    let third = put_field(left, b' ', out, second);
    put_field(right, b'\n', out, third)
}
