// What the programs that replay a case stream have in common: the head of a record, whether a call gave back what is
// expected, and the counts of a run. The format of a stream is docs/CASES.md. Reading and printing stand in the
// programs, since no contract can say what is read or printed.
#![tactic(auto)]

pub mod elements;

ghost use Rattle.std.specs.Prelude.{◌≡◌, ◌*◌, ◌<◌, ◌≤◌, true, length};
ghost use Rattle.places.specs.Answers.{number_of, place_of};
ghost use Rattle.little.specs.Little.{numbers_of};
ghost use Rattle.stream.specs.Heads.{head_of};
ghost use Rattle.stream.specs.Expected.{Agree, with_reference, with_index, step_of};
ghost use Rattle.stream.specs.Tallies.{no_case, one_same_lem, one_differs};

use little::{pair, quad, word};
use places::Answer;

// The head of a record: the call, what is expected of it, what it takes besides the buffers, and how many elements
// the buffers have.
#[derive(Clone, Copy)]
pub struct Head {
    pub op: u8,
    pub t: u8,
    pub width: u16,
    pub number: u64,
    pub zero: u64,
    pub place: u64,
    pub value: u64,
    pub reference: u64,
    pub index: u64,
    pub n_a: usize,
    pub n_b: usize,
    pub n_c: usize,
    pub n_d: usize,
}

// The head that the bytes hold.
pub fn head_of(bytes: &[u8; 56]) -> Head
    ensures { result ≡ head_of bytes.now }
{
    Head {
        op: bytes[0],
        t: bytes[1],
        width: pair(bytes, 2),
        number: byte(bytes[4]),
        zero: (quad(bytes, 4) / 0x100) as u64,
        place: word(bytes, 8),
        value: word(bytes, 16),
        reference: word(bytes, 24),
        index: word(bytes, 32),
        n_a: quad(bytes, 40) as usize,
        n_b: quad(bytes, 44) as usize,
        n_c: quad(bytes, 48) as usize,
        n_d: quad(bytes, 52) as usize,
    }
}

fn byte(x: u8) -> u64
    ensures { (result ≡ x) × (result < 256) }
{
    x as u64
}

// What a call gave back besides the buffers. The reference and the index are fields that are expected of some calls and
// that others take: of a call that takes one the reply has it as it was given.
#[derive(Clone, Copy)]
pub enum Reply {
    // nothing, since there is no such call
    Unknown,
    Given {
        number: u64,
        place: u64,
        value: u64,
        reference: u64,
        index: u64,
    },
}

impl Reply {
    // The reply of a call that gives back no value.
    pub fn of(answer: Answer) -> Self
        ensures { result ≡ Reply.Given (number_of answer) (place_of answer) 0 0 0 }
    {
        Self::with_value(answer, 0)
    }

    // The reply of a call that gives back a value.
    pub fn with_value(answer: Answer, value: u64) -> Self
        ensures { result ≡ Reply.Given (number_of answer) (place_of answer) value 0 0 }
    {
        Reply::Given {
            number: answer.number() as u64,
            place: answer.place() as u64,
            value,
            reference: 0,
            index: 0,
        }
    }

    // The same reply with this reference.
    pub fn with_reference(self, reference: u64) -> Self
        ensures { result ≡ with_reference reference self }
    {
        match self {
            Reply::Unknown => Reply::Unknown,
            Reply::Given {
                number,
                place,
                value,
                reference: _,
                index,
            } => Reply::Given {
                number,
                place,
                value,
                reference,
                index,
            },
        }
    }

    // The same reply with this index.
    pub fn with_index(self, index: u64) -> Self
        ensures { result ≡ with_index index self }
    {
        match self {
            Reply::Unknown => Reply::Unknown,
            Reply::Given {
                number,
                place,
                value,
                reference,
                index: _,
            } => Reply::Given {
                number,
                place,
                value,
                reference,
                index,
            },
        }
    }
}

// What comes of a case.
#[derive(Clone, Copy)]
pub enum Step {
    // there is none: the stream is at its end
    End,
    // the stream is cut here, or what stands here is no case
    Bad,
    Same,
    Differs(Head),
}

// What comes of the case with this head, from what its call gave back, and from whether the buffers were left as
// expected.
pub fn judge(head: Head, reply: Reply, buffers: bool) -> Step
    ensures { result ≡ step_of head reply buffers }
{
    let Reply::Given {
        number,
        place,
        value,
        reference,
        index,
    } = reply
    else {
        return Step::Bad;
    };
    let given = (number == head.number)
        & ((place == head.place)
            & ((value == head.value) & ((reference == head.reference) & (index == head.index))));
    if given & buffers {
        return Step::Same;
    }
    Step::Differs(head)
}

// Whether the first n numbers of both lists are the same; no, where there are not so many.
pub fn same_numbers(x: &[u64], y: &[u64], n: usize) -> bool
    ensures n_in_bounds { result ≡ true → (n ≤ length x.now) × (n ≤ length y.now) × Agree n x.now
        y.now }
    ensures value { n ≤ length x.now → n ≤ length y.now → Agree n x.now y.now → result ≡
        true }
{
    if x.len() < n {
        return false;
    }
    if y.len() < n {
        return false;
    }
    for i in 0..n {
        if x[i] != y[i] {
            return false;
        }
    }
    true
}

// Whether the first n numbers are those of eight bytes each that stand from the front of the bytes on; no, where there
// are not so many.
pub fn same_words(words: &[u64], bytes: &[u8], n: usize) -> bool
    ensures n_in_bounds { result ≡ true → (n ≤ length words.now) × (8 * n ≤ length bytes.now) × Agree n
        words.now (numbers_of 8 bytes.now n) }
    ensures value { n ≤ length words.now → 8 * n ≤ length bytes.now → Agree n words.now
        (numbers_of 8 bytes.now n) → result ≡ true }
{
    if words.len() < n {
        return false;
    }
    if bytes.len() / 8 < n {
        return false;
    }
    for i in 0..n {
        if words[i] != word(bytes, i * 8) {
            return false;
        }
    }
    true
}

// Whether the first n bytes of both lists are the same; no, where there are not so many.
pub fn same_bytes(one: &[u8], other: &[u8], n: usize) -> bool
    ensures n_in_bounds { result ≡ true → (n ≤ length one.now) × (n ≤ length other.now) × Agree n one.now
        other.now }
    ensures value { n ≤ length one.now → n ≤ length other.now → Agree n one.now
        other.now → result ≡ true }
{
    if one.len() < n {
        return false;
    }
    if other.len() < n {
        return false;
    }
    check::same(&one[..n], &other[..n])
}

// How many cases were replayed, how many of them differ, and of the first that differs its number and its call.
// The counts are modulo 2^64.
#[derive(Clone, Copy)]
pub struct Tally {
    pub cases: u64,
    pub differ: u64,
    pub first: u64,
    pub op: u8,
    pub t: u8,
    pub width: u16,
}

impl Tally {
    // No case yet.
    pub fn new() -> Self
        ensures { result ≡ no_case }
    {
        Self {
            cases: 0,
            differ: 0,
            first: 0,
            op: 0,
            t: 0,
            width: 0,
        }
    }

    // One more case, which went as expected.
    pub fn same(self) -> Self
        ensures { result ≡ one_same_lem self }
    {
        let mut next = self;
        next.cases = std::num::wrapping_add_u64(self.cases, 1);
        next
    }

    // One more case, which did not. The first such case is kept.
    pub fn differs(self, head: Head) -> Self
        ensures { result ≡ one_differs self head }
    {
        let cases = std::num::wrapping_add_u64(self.cases, 1);
        let differ = std::num::wrapping_add_u64(self.differ, 1);
        if self.differ != 0 {
            return Self {
                cases,
                differ,
                first: self.first,
                op: self.op,
                t: self.t,
                width: self.width,
            };
        }
        Self {
            cases,
            differ,
            first: self.cases,
            op: head.op,
            t: head.t,
            width: head.width,
        }
    }
}
