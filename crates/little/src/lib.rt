// Little-endian numbers in bytes: one number at a place, and a list of numbers from the front on, read and written. No
// part of the crate fastlanes; column files and case streams are made of such numbers.
//
// A number is read and written by halves: the compiler makes one load and one store of it.
#![tactic(auto)]

ghost use Rattle.std.specs.Prelude.{◌≡◌, ◌+◌, ◌*◌, ◌≤◌, ◌<◌, leb, length};
ghost use Rattle.lists.specs.Tab.{over};
ghost use Rattle.little.specs.Little.{little, little_or, numbers_of, read_leaves, bytes_of, all_bytes, put_leaves, write_leaves};

// The number of the two bytes from `at` on; 0 where they are not all there.
pub fn pair(bytes: &[u8], at: usize) -> u16
    ensures { result ≡ little_or bytes.now at 2 }
{
    if has(bytes, at, 2) {
        return pair_at(bytes, at);
    }
    0
}

// The number of the four bytes from `at` on; 0 where they are not all there.
pub fn quad(bytes: &[u8], at: usize) -> u32
    ensures { result ≡ little_or bytes.now at 4 }
{
    if has(bytes, at, 4) {
        return quad_at(bytes, at);
    }
    0
}

// The number of the eight bytes from `at` on; 0 where they are not all there.
pub fn word(bytes: &[u8], at: usize) -> u64
    ensures { result ≡ little_or bytes.now at 8 }
{
    if has(bytes, at, 8) {
        return word_at(bytes, at);
    }
    0
}

// Fills `pairs` with the numbers of two bytes from the front of `bytes` on; writes nothing where there are too few
// bytes.
pub fn read_pairs(bytes: &[u8], pairs: &mut [u16])
    ensures { pairs.new ≡ read_leaves 2 bytes.now pairs.old }
{
    if pairs.len() <= bytes.len() / 2 {
        fill_pairs(bytes, pairs);
    }
}

// Fills `words` with the numbers of eight bytes from the front of `bytes` on; writes nothing where there are too few
// bytes.
pub fn read_words(bytes: &[u8], words: &mut [u64])
    ensures { words.new ≡ read_leaves 8 bytes.now words.old }
{
    if words.len() <= bytes.len() / 8 {
        fill_words(bytes, words);
    }
}

// Writes the two bytes of a number from `at` on; writes nothing where they do not all fit.
pub fn put_pair(x: u16, at: usize, bytes: &mut [u8])
    ensures { bytes.new ≡ put_leaves 2 x at bytes.old }
{
    if within(at, 2, bytes.len()) {
        put_pair_at(x, at, bytes);
    }
}

// Writes the four bytes of a number from `at` on; writes nothing where they do not all fit.
pub fn put_quad(x: u32, at: usize, bytes: &mut [u8])
    ensures { bytes.new ≡ put_leaves 4 x at bytes.old }
{
    if within(at, 4, bytes.len()) {
        put_quad_at(x, at, bytes);
    }
}

// Writes the eight bytes of a number from `at` on; writes nothing where they do not all fit.
pub fn put_word(x: u64, at: usize, bytes: &mut [u8])
    ensures { bytes.new ≡ put_leaves 8 x at bytes.old }
{
    if within(at, 8, bytes.len()) {
        put_word_at(x, at, bytes);
    }
}

// Writes the eight bytes of each number from the front of `bytes` on; writes nothing where they do not all fit.
pub fn write_words(words: &[u64], bytes: &mut [u8])
    ensures { bytes.new ≡ write_leaves 8 words.now bytes.old }
{
    if bytes.len() / 8 >= words.len() {
        lay_words(words, bytes);
    }
}

// Whether the k bytes from `at` on are all there.
fn has(bytes: &[u8], at: usize, k: usize) -> bool
    ensures { result ≡ leb (at + k) (length bytes.now) }
{
    within(at, k, bytes.len())
}

// Whether k bytes from `at` on lie within n bytes.
fn within(at: usize, k: usize, n: usize) -> bool
    ensures { result ≡ leb (at + k) n }
{
    (k <= n) && (at <= n - k)
}

fn pair_at(bytes: &[u8], at: usize) -> u16
    requires { at + 2 ≤ length bytes.now }
    ensures { result ≡ little bytes.now at 2 }
{
    byte_in_pair(bytes[at]) + byte_in_pair(bytes[at + 1]) * 0x100
}

fn quad_at(bytes: &[u8], at: usize) -> u32
    requires { at + 4 ≤ length bytes.now }
    ensures { result ≡ little bytes.now at 4 }
{
    pair_in_quad(pair_at(bytes, at)) + pair_in_quad(pair_at(bytes, at + 2)) * 0x1_0000
}

fn word_at(bytes: &[u8], at: usize) -> u64
    requires { at + 8 ≤ length bytes.now }
    ensures { result ≡ little bytes.now at 8 }
{
    quad_in_word(quad_at(bytes, at)) + quad_in_word(quad_at(bytes, at + 4)) * 0x1_0000_0000
}

fn byte_in_pair(x: u8) -> u16
    ensures { (result ≡ x) × (result < 256) }
{
    x as u16
}

fn pair_in_quad(x: u16) -> u32
    ensures { (result ≡ x) × (result < 65536) }
{
    x as u32
}

fn quad_in_word(x: u32) -> u64
    ensures { (result ≡ x) × (result < 4294967296) }
{
    x as u64
}

fn fill_pairs(bytes: &[u8], pairs: &mut [u16])
    requires { 2 * length pairs.old ≤ length bytes.now }
    ensures { pairs.new ≡ numbers_of 2 bytes.now (length pairs.old) }
{
    for i in 0..pairs.len() {
        pairs[i] = pair_at(bytes, i * 2);
    }
}

fn fill_words(bytes: &[u8], words: &mut [u64])
    requires { 8 * length words.old ≤ length bytes.now }
    ensures { words.new ≡ numbers_of 8 bytes.now (length words.old) }
{
    for i in 0..words.len() {
        words[i] = word_at(bytes, i * 8);
    }
}

fn put_pair_at(x: u16, at: usize, bytes: &mut [u8])
    requires { at + 2 ≤ length bytes.old }
    ensures { bytes.new ≡ over at (bytes_of 2 x) bytes.old }
{
    bytes[at] = (x % 0x100) as u8;
    bytes[at + 1] = (x / 0x100) as u8;
}

fn put_quad_at(x: u32, at: usize, bytes: &mut [u8])
    requires { at + 4 ≤ length bytes.old }
    ensures { bytes.new ≡ over at (bytes_of 4 x) bytes.old }
{
    put_pair_at((x % 0x1_0000) as u16, at, bytes);
    put_pair_at((x / 0x1_0000) as u16, at + 2, bytes);
}

fn put_word_at(x: u64, at: usize, bytes: &mut [u8])
    requires { at + 8 ≤ length bytes.old }
    ensures { bytes.new ≡ over at (bytes_of 8 x) bytes.old }
{
    put_quad_at((x % 0x1_0000_0000) as u32, at, bytes);
    put_quad_at((x / 0x1_0000_0000) as u32, at + 4, bytes);
}

fn lay_words(words: &[u64], bytes: &mut [u8])
    requires { 8 * length words.now ≤ length bytes.old }
    ensures { bytes.new ≡ over 0 (all_bytes 8 words.now) bytes.old }
{
    for i in 0..words.len() {
        put_word_at(words[i], i * 8, bytes);
    }
}
