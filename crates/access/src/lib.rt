// Access to a packed block of 1,024 values: at one place, and by a list of places. From the crate's src/bitpacking.rs.
// The width is given at the call.
//
// What the calls give stands here: a single lookup, a list of them, and a list under a budget.
#![tactic(auto)]

mod indices;
mod lookups;
mod singles;

ghost use Rattle.std.specs.Prelude.{◌≡◌};
ghost use Rattle.access.specs.Budgets as Budgets;
ghost use Rattle.access.specs.Calls.{answer_of, words_of};
ghost use Rattle.access.specs.Singles as Singles;

pub use indices::{unpack_indices, unpack_within};
pub use lookups::Lookup;
use places::{Answer, Element};
pub use singles::{unpack_single, words_at};

// A number of packed words: how many the bits of a value stand in, or the sum of these over a list (R39, R43).
pub type Words = u64;

// What stands for a count where there is none.
pub const NO_COUNT: Words = u64::MAX;

// The value at one place and how many packed words its bits stand in, or the refusal.
#[derive(Clone, Copy)]
pub enum Single<E> {
    Value(E, Words),
    Refused(Answer),
}

impl<E: Copy> Single<E> {
    // The answer in the terms of the other calls.
    pub fn answer(self) -> Answer
        ensures { result ≡ Singles.answer_of self }
    {
        match self {
            Single::Value(_, _) => Answer::Done,
            Single::Refused(a) => a,
        }
    }

    // The value; 0 after a refusal.
    pub fn value<const T: usize, const LANES: usize>(self) -> E
    where
        E: Element<T, LANES>,
        ensures { E.number result ≡ Singles.value_of (Singles.single_number E.number self) }
    {
        match self {
            Single::Value(v, _) => v,
            Single::Refused(_) => E::of(0),
        }
    }

    // The count of words; `NO_COUNT` after a refusal.
    pub fn words(self) -> Words
        ensures { result ≡ Singles.words_of self }
    {
        match self {
            Single::Value(_, n) => n,
            Single::Refused(_) => NO_COUNT,
        }
    }
}

// What access by a list gives: the words of all its lookups, or the refusal.
#[derive(Clone, Copy)]
pub enum Listed {
    Words(Words),
    Refused(Answer),
}

impl Listed {
    // The answer in the terms of the other calls.
    pub fn answer(self) -> Answer
        ensures { result ≡ answer_of self }
    {
        match self {
            Listed::Words(_) => Answer::Done,
            Listed::Refused(a) => a,
        }
    }

    // The words; 0 after a refusal.
    pub fn words(self) -> Words
        ensures { result ≡ words_of self }
    {
        match self {
            Listed::Words(n) => n,
            Listed::Refused(_) => 0,
        }
    }
}

// What access by a list under a budget gives: how many lookups of the list's front it answered and how many words these
// read, or the refusal.
#[derive(Clone, Copy)]
pub enum Afforded {
    Front(usize, Words),
    Refused(Answer),
}

impl Afforded {
    // The answer in the terms of the other calls.
    pub fn answer(self) -> Answer
        ensures { result ≡ Budgets.answer_of self }
    {
        match self {
            Afforded::Front(_, _) => Answer::Done,
            Afforded::Refused(a) => a,
        }
    }

    // How many lookups are answered; 0 after a refusal.
    pub fn answered(self) -> usize
        ensures { result ≡ Budgets.answered_of self }
    {
        match self {
            Afforded::Front(k, _) => k,
            Afforded::Refused(_) => 0,
        }
    }

    // The words that these read; 0 after a refusal.
    pub fn words(self) -> Words
        ensures { result ≡ Budgets.words_of self }
    {
        match self {
            Afforded::Front(_, n) => n,
            Afforded::Refused(_) => 0,
        }
    }
}
