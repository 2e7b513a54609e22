// Numbers in decimal (ours, for people with files and a shell): a text of digits read as a u64, and a u64 laid out as
// text. The two are inverse: the text of a number is read as that number, and a text that is read, and has no needless
// zero at its front, is the text of what was read. Nothing else is taken: no sign, no space, no point.
#![tactic(auto)]

ghost use Rattle.std.specs.Prelude.{◌≡◌, ◌+◌, ◌≤◌, length};
ghost use Rattle.lists.specs.Search.{first_beyond};
ghost use Rattle.lists.specs.Tab.{over};
ghost use Rattle.decimal.specs.Decimal.{digit_of, digits_of, text_of};
ghost use Rattle.decimal.specs.Calls.{number_or, parsed_of, laid_of, lay_leaves};

// Why a text is no number.
#[derive(Clone, Copy)]
pub enum NoNumber {
    // there are no bytes
    Empty,
    // a byte is no digit; the lowest such place
    Other(usize),
    // the number is 2^64 or more
    Large,
}

// What a text is read as: a number, or why it is none.
pub type Parsed = Result<u64, NoNumber>;

// Reads a text as a number. Zeros at the front are taken.
pub fn parse(text: &[u8]) -> Parsed
    ensures { result ≡ parsed_of text.now }
{
    if text.len() == 0 {
        return Err(NoNumber::Empty);
    }
    let p = first_other(text);
    if p < text.len() {
        return Err(NoNumber::Other(p));
    }
    read_digits(text)
}

// The digit that a byte stands for; 10 or more for a byte that is none.
fn digit(byte: u8) -> u8
    ensures { result ≡ digit_of byte }
{
    if byte < 48 {
        return 10;
    }
    byte - 48
}

// The lowest place of a byte that is no digit, and the length where there is none.
fn first_other(text: &[u8]) -> usize
    ensures { result ≡ first_beyond 10 (digits_of text.now) }
{
    for i in 0..text.len() {
        if 10 <= digit(text[i]) {
            return i;
        }
    }
    text.len()
}

// The number of the digits, where it fits 64 bits. Whether it still fits is asked before each digit is taken.
fn read_digits(text: &[u8]) -> Parsed
    ensures { result ≡ number_or (digits_of text.now) }
{
    let mut v: u64 = 0;
    for i in 0..text.len() {
        let d = digit(text[i]) as u64;
        if (18446744073709551615 - d) / 10 < v {
            return Err(NoNumber::Large);
        }
        v = v * 10 + d;
    }
    Ok(v)
}

// How many bytes the text of a number has: from 1 to 20.
pub fn length_of(n: u64) -> usize
    ensures { result ≡ length (text_of n) }
{
    let mut k = 1;
    let mut rest = n;
    while 9 < rest {
        rest /= 10;
        k += 1;
    }
    k
}

// Lays the text of a number at the front of the output, and gives how many bytes it has; 0, and nothing is laid, where
// it does not fit.
pub fn lay(n: u64, out: &mut [u8]) -> usize
    ensures value { result ≡ laid_of n out.old }
    ensures out_after { out.new ≡ lay_leaves n out.old }
{
    let k = length_of(n);
    if out.len() < k {
        return 0;
    }
    put_digits(n, k, out);
    k
}

// Lays the k digits of a number from the last to the first.
fn put_digits(n: u64, k: usize, out: &mut [u8])
    requires k_value { k ≡ length (text_of n) }
    requires k_in_bounds { k ≤ length out.old }
    ensures { out.new ≡ over 0 (text_of n) out.old }
{
    let mut i = k - 1;
    let mut rest = n;
    while 0 < i {
        out[i] = glyph(rest % 10);
        rest /= 10;
        i -= 1;
    }
    out[0] = glyph(rest);
}

// The byte of a digit.
fn glyph(d: u64) -> u8
    requires { d ≤ 9 }
    ensures { result ≡ 48 + d }
{
    48 + d as u8
}
