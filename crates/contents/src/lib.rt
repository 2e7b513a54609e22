// The contents of a column file (R79 to R82): edition, block count, and an entry for each block, in edition 2 with the
// block's smallest and largest value. Here they are read and tested against the file's length, and nothing else of the
// file is needed for that: a program that holds no more than the front of a file can ask here whether the file's
// contents are right (R91). The calls that begin with put write them, as edition 2 (R106).
//
// FileAnswer, what every call on a column file answers, stands here too, with the refusals.
#![tactic(auto)]

ghost use Rattle.std.specs.Prelude.{◌≡◌, ◌+◌, ◌*◌, ◌≤◌, ◌<◌, leb, length};
ghost use Rattle.lists.specs.Search.{first_bad};
ghost use Rattle.contents.specs.Answers.{refusal_number, refusal_place, number_of, place_of, file_answer};
ghost use Rattle.contents.specs.Contents.{edition as edition_in, count as count_in, contents_size, entry_size, entry_at, entry_or, range_at_lem, range_or, any_range, range_of as range_in, no_entry, edition_or, count_or, is_packed, is_runs, is_of_kind, is_laid_out, is_ordered, is_right, has_right_entry, bodies_size, entries_tests, contents_tests};
ghost use Rattle.contents.specs.Bytes.{head_leaves, first_leaves, entry_leaves};

use little::{pair, put_pair, put_quad, put_word, quad, word};

// Why a call on a file is refused.
#[derive(Clone, Copy, Debug, PartialEq, Eq)]
pub enum FileRefusal {
    // a block or the room for places that is lent is not 1,024 long, or the numbers to be written are no whole blocks
    // or more than 256 of them
    Block,
    // the file is cut short: in its first four bytes, in the entries or in the bodies
    Cut,
    // the edition is neither 1 nor 2, or there are more than 256 blocks; of the canonical check also a readable file of
    // edition 1
    Edition,
    // an entry is not as laid out, or is of kind 3 in edition 2, or its smallest value is above its largest; the lowest
    // such entry
    BadEntry(usize),
    // there are bytes after the last body
    Over,
    // there is no block, or no row, with this number
    Beyond,
    // a run index is out of range; the lowest block that has one
    Runs(usize),
    // the output, or the room for rows, is too short for what is to be written there
    Room,
    // a smallest or largest value is not the body's true one; the lowest block that has one
    Range(usize),
    // a block is not as our writer would write it; the lowest such block
    Foreign(usize),
}

impl FileRefusal {
    // The number that stands for the refusal.
    pub fn number(self) -> usize
        ensures { result ≡ refusal_number self }
    {
        match self {
            FileRefusal::Block => 2,
            FileRefusal::Cut => 8,
            FileRefusal::Edition => 9,
            FileRefusal::BadEntry(_) => 10,
            FileRefusal::Over => 11,
            FileRefusal::Beyond => 12,
            FileRefusal::Runs(_) => 13,
            FileRefusal::Room => 14,
            FileRefusal::Range(_) => 15,
            FileRefusal::Foreign(_) => 17,
        }
    }

    // The place that is given back with the number.
    pub fn place(self) -> usize
        ensures { result ≡ refusal_place self }
    {
        match self {
            FileRefusal::BadEntry(p) => p,
            FileRefusal::Runs(p) => p,
            FileRefusal::Range(p) => p,
            FileRefusal::Foreign(p) => p,
            FileRefusal::Block => 0,
            FileRefusal::Cut => 0,
            FileRefusal::Edition => 0,
            FileRefusal::Over => 0,
            FileRefusal::Beyond => 0,
            FileRefusal::Room => 0,
        }
    }
}

// What a call on a file answers: that it is done, or why it is refused.
pub type FileAnswer = Result<(), FileRefusal>;

// The number that stands for an answer: 0 where the call is done.
pub fn number_of(answer: FileAnswer) -> usize
    ensures { result ≡ number_of answer }
{
    match answer {
        Ok(()) => 0,
        Err(refusal) => refusal.number(),
    }
}

// The place that is given back with the number: 0 where the call is done.
pub fn place_of(answer: FileAnswer) -> usize
    ensures { result ≡ place_of answer }
{
    match answer {
        Ok(()) => 0,
        Err(refusal) => refusal.place(),
    }
}

// What the contents say of a block.
#[derive(Clone, Copy)]
pub struct Entry {
    pub kind: u8,
    pub width: u8,
    pub zero: u16,
    pub length: u32,
    pub reference: u64,
}

impl Entry {
    // Whether the entry is as laid out. The tests are joined by `&`, which makes no branch.
    pub fn is_laid_out(self) -> bool
        ensures { result ≡ is_laid_out self }
    {
        (self.zero == 0) & is_of_kind(self)
    }
}

// What the contents say of the values of a block: the smallest and the largest.
#[derive(Clone, Copy)]
pub struct Range {
    pub smallest: u64,
    pub largest: u64,
}

impl Range {
    // Whether the smallest is not above the largest.
    pub fn is_ordered(self) -> bool
        ensures { result ≡ is_ordered self }
    {
        self.smallest <= self.largest
    }
}

fn is_of_kind(e: Entry) -> bool
    ensures { result ≡ is_of_kind e }
{
    let kind = e.kind;
    match kind {
        0 => (e.reference == 0) & is_packed(0, e),
        1 => is_packed(0, e),
        2 => (e.reference == 0) & is_packed(128, e),
        3 => (e.reference == 0) & is_runs(e),
        _ => false,
    }
}

fn is_packed(more: u32, e: Entry) -> bool
    requires { more ≤ 128 }
    ensures { result ≡ is_packed more e }
{
    (e.width <= 64) & (e.length == more + 128 * (e.width as u32))
}

fn is_runs(e: Entry) -> bool
    ensures { result ≡ is_runs e }
{
    (e.width == 0) & ((2056 <= e.length) & ((e.length <= 10240) & (e.length % 8 == 0)))
}

// The edition; 0 where its bytes are not all there.
pub fn edition(front: &[u8]) -> usize
    ensures { result ≡ edition_or front.now }
{
    pair(front, 0) as usize
}

// The block count; 0 where the first four bytes are not all there.
pub fn count(front: &[u8]) -> usize
    ensures { result ≡ count_or front.now }
{
    pair(front, 2) as usize
}

// How many bytes the contents have, by the edition and the block count: behind them the first body begins.
pub fn contents_length(front: &[u8]) -> usize
    ensures { result ≡ contents_size (edition_or front.now) (count_or front.now) }
{
    contents_size(edition(front), pair(front, 2) as usize)
}

// Entry i. Where it is not all there, an entry of no kind stands for it, which no body is right for.
pub fn entry_or(front: &[u8], i: usize) -> Entry
    ensures { result ≡ entry_or front.now i }
{
    let edition = edition(front);
    if has_entry(front, edition, i) {
        return entry_at(front, contents_size(edition, i));
    }
    no_entry()
}

// The smallest and the largest value that entry i says. Where it says none, or is not all there, every number is
// between them.
pub fn range_or(front: &[u8], i: usize) -> Range
    ensures { result ≡ range_or front.now i }
{
    let edition = edition(front);
    if has_entry(front, edition, i) {
        return range_of(front, edition, i);
    }
    any_range()
}

// Whether entry i is all there and right: as laid out, of a kind that its edition takes, and with a smallest value that
// is not above its largest.
pub fn has_right_entry(front: &[u8], i: usize) -> bool
    ensures { result ≡ has_right_entry front.now i }
{
    let edition = edition(front);
    if has_entry(front, edition, i) {
        return is_right(front, edition, i, contents_size(edition, i));
    }
    false
}

// Whether entry i is all there.
fn has_entry(front: &[u8], edition: usize, i: usize) -> bool
    ensures { result ≡ leb (contents_size edition (i + 1)) (length front.now) }
{
    let bytes = front.len();
    if bytes < 4 {
        return false;
    }
    if edition == 2 {
        return i < (bytes - 4) / 32;
    }
    i < (bytes - 4) / 16
}

// How many bytes contents of n entries have, where that is a number of 64 bits.
fn contents_size(edition: usize, n: usize) -> usize
    requires { contents_size edition n < 18446744073709551616 }
    ensures { result ≡ contents_size edition n }
{
    4 + n * entry_size(edition)
}

// How many bytes an entry has.
fn entry_size(edition: usize) -> usize
    ensures { result ≡ entry_size edition }
{
    if edition == 2 {
        return 32;
    }
    16
}

// An entry of no kind, which stands for one that is not there.
pub fn no_entry() -> Entry
    ensures { result ≡ no_entry }
{
    Entry {
        kind: 255,
        width: 0,
        zero: 0,
        length: 0,
        reference: 0,
    }
}

// The range from 0 to the highest number, which stands for one that is not there.
pub fn any_range() -> Range
    ensures { result ≡ any_range }
{
    Range {
        smallest: 0,
        largest: u64::MAX,
    }
}

// The entry whose first sixteen bytes are there, from place `at` on. They are read through a part of that length: of a
// part whose length the compiler knows no read has to test whether its bytes are there.
fn entry_at(front: &[u8], at: usize) -> Entry
    requires { at + 16 ≤ length front.now }
    ensures { result ≡ entry_at front.now at }
{
    let part = &front[at..at + 16];
    Entry {
        kind: part[0],
        width: part[1],
        zero: pair(part, 2),
        length: quad(part, 4),
        reference: word(part, 8),
    }
}

// The range whose sixteen bytes are there, from place `at` on, read as an entry is.
fn range_at(front: &[u8], at: usize) -> Range
    requires { at + 16 ≤ length front.now }
    ensures { result ≡ range_at_lem front.now at }
{
    let part = &front[at..at + 16];
    Range {
        smallest: word(part, 0),
        largest: word(part, 8),
    }
}

// The range of entry i, which is there.
fn range_of(front: &[u8], edition: usize, i: usize) -> Range
    requires edition_value { edition ≡ edition_in front.now }
    requires i_in_bounds { contents_size edition (i + 1) ≤ length front.now }
    ensures { result ≡ range_in front.now i }
{
    if edition == 2 {
        return range_at(front, contents_size(edition, i) + 16);
    }
    any_range()
}

// Writes edition 2 and the block count at the front of the bytes; nothing where they do not fit.
pub fn put_head(n: u16, bytes: &mut [u8])
    ensures { bytes.new ≡ head_leaves n bytes.old }
{
    if 4 <= bytes.len() {
        put_pair(2, 0, bytes);
        put_pair(n, 2, bytes);
    }
}

// Writes an entry and its range from place `at` on; nothing where they do not fit.
pub fn put_entry(e: Entry, r: Range, at: usize, bytes: &mut [u8])
    ensures { bytes.new ≡ entry_leaves e r at bytes.old }
{
    if bytes.len() < 32 {
        return;
    }
    if bytes.len() - 32 < at {
        return;
    }
    put_first(e, at, bytes);
    put_word(r.smallest, at + 16, bytes);
    put_word(r.largest, at + 24, bytes);
}

// Writes the first sixteen bytes of an entry from place `at` on; nothing where they do not fit.
fn put_first(e: Entry, at: usize, bytes: &mut [u8])
    ensures { bytes.new ≡ first_leaves e at bytes.old }
{
    if bytes.len() < 16 {
        return;
    }
    if bytes.len() - 16 < at {
        return;
    }
    bytes[at] = e.kind;
    bytes[at + 1] = e.width;
    put_pair(e.zero, at + 2, bytes);
    put_quad(e.length, at + 4, bytes);
    put_word(e.reference, at + 8, bytes);
}

// Whether the contents are right, in a file of `size` bytes of which `front` is lent: at least the contents, at most
// all of it.
pub fn check(front: &[u8], size: usize) -> FileAnswer
    ensures { result ≡ file_answer (contents_tests front.now size) }
{
    if front.len() < 4 {
        return Err(FileRefusal::Cut);
    }
    let edition = edition(front);
    if edition != 1 {
        if edition != 2 {
            return Err(FileRefusal::Edition);
        }
    }
    let n = count(front);
    if 256 < n {
        return Err(FileRefusal::Edition);
    }
    if front.len() < contents_size(edition, n) {
        return Err(FileRefusal::Cut);
    }
    check_entries(front, edition, n, size)
}

// The same from the entries on, which are there.
fn check_entries(front: &[u8], edition: usize, n: usize, size: usize) -> FileAnswer
    requires edition_value { edition ≡ edition_in front.now }
    requires n_value { n ≡ count_in front.now }
    requires n_bound { n ≤ 256 }
    requires n_in_bounds { contents_size edition n ≤ length front.now }
    ensures { result ≡ file_answer (entries_tests front.now size) }
{
    let lowest = bad_entry(front, edition, n);
    if lowest < n {
        return Err(FileRefusal::BadEntry(lowest));
    }
    let end = contents_size(edition, n) + bodies_of(front, edition, n);
    if size < end {
        return Err(FileRefusal::Cut);
    }
    if end < size {
        return Err(FileRefusal::Over);
    }
    Ok(())
}

// The lowest of n entries that is not right; n where there is none.
fn bad_entry(front: &[u8], edition: usize, n: usize) -> usize
    requires edition_value { edition ≡ edition_in front.now }
    requires n_in_bounds { contents_size edition n ≤ length front.now }
    ensures { result ≡ first_bad n (is_right front.now) }
{
    let size = entry_size(edition);
    let mut at = 4;
    let mut i = 0;
    let lowest = loop {
        if n <= i {
            break i;
        }
        if !is_right(front, edition, i, at) {
            break i;
        }
        at += size;
        i += 1;
    };
    lowest
}

// Whether entry i, which is there and begins at `at`, is right. In edition 1 it may be of any kind, and says no range.
fn is_right(front: &[u8], edition: usize, i: usize, at: usize) -> bool
    requires edition_value { edition ≡ edition_in front.now }
    requires at_value { at ≡ contents_size edition i }
    requires i_in_bounds { contents_size edition (i + 1) ≤ length front.now }
    ensures { result ≡ is_right front.now i }
{
    let e = entry_at(front, at);
    if edition == 2 {
        return e.is_laid_out() & ((e.kind < 3) & range_at(front, at + 16).is_ordered());
    }
    e.is_laid_out()
}

// How many bytes the bodies of the first n entries have.
fn bodies_of(front: &[u8], edition: usize, n: usize) -> usize
    requires edition_value { edition ≡ edition_in front.now }
    requires n_in_bounds { contents_size edition n ≤ length front.now }
    requires n_bound { n ≤ 256 }
    ensures { (result ≡ bodies_size front.now n) × (result ≤ 4294967296 * n) }
{
    let size = entry_size(edition);
    let mut at = 4;
    let mut sum = 0;
    for i in 0..n {
        let e = entry_at(front, at);
        sum += e.length as usize;
        at += size;
    }
    sum
}
