// Places, lanes and rows of a block of 1,024 values, and the value transpose.
//
// From the crate's src/lib.rs (the order list, T and LANES), src/transpose.rs, and the function index of
// src/macros.rs. What knows no element stands here. The trait of the four types of an element has a module of its own,
// and so has the transpose, which is one text over it.
#![tactic(auto)]

mod element;
mod transposes;

ghost use Rattle.std.specs.Prelude.{◌≡◌, ◌+◌, ◌*◌, ◌%◌};
ghost use Rattle.places.specs.Answers.{number_of, place_of};
ghost use Rattle.places.specs.Places as Places;

pub use element::Element;
pub use transposes::{transpose, untranspose};

// What a call answers: that it is done, or why it is refused.
#[derive(Clone, Copy)]
pub enum Answer {
    Done,
    // the width is above T
    Width,
    // a buffer for a block is not 1,024 long
    Block,
    // the packed length is not LANES times the width
    Packed,
    // the base is not LANES long
    Base,
    // an index list and its output differ in length
    Lists,
    // an index is 1,024 or more; the lowest such place of the list, 0 for single access
    Index(usize),
    // a dictionary index is at or beyond the dictionary's length; the lowest such place
    Dictionary(usize),
}

impl Answer {
    // The number that stands for the answer: 0 where the call is done.
    pub fn number(self) -> usize
        ensures { result ≡ number_of self }
    {
        match self {
            Answer::Done => 0,
            Answer::Width => 1,
            Answer::Block => 2,
            Answer::Packed => 3,
            Answer::Base => 4,
            Answer::Lists => 5,
            Answer::Index(_) => 6,
            Answer::Dictionary(_) => 7,
        }
    }

    // The place that is given back with the number.
    pub fn place(self) -> usize
        ensures { result ≡ place_of self }
    {
        match self {
            Answer::Index(p) => p,
            Answer::Dictionary(p) => p,
            Answer::Done => 0,
            Answer::Width => 0,
            Answer::Block => 0,
            Answer::Packed => 0,
            Answer::Base => 0,
            Answer::Lists => 0,
        }
    }
}

// The order list. A match costs one load, and an array would be built anew at each use.
pub fn order(n: usize) -> usize
    ensures { result ≡ Places.order n }
{
    match n {
        0 => 0,
        1 => 4,
        2 => 2,
        3 => 6,
        4 => 1,
        5 => 5,
        6 => 3,
        7 => 7,
        _ => 0,
    }
}

// The place where row i of the o-th eight rows starts, in lane 0: both counted from 0, and both modulo 8.
pub fn row_start(o: usize, i: usize) -> usize
    ensures { result ≡ Places.place (o % 8 * 8 + i % 8) 0 }
{
    order(o % 8) * 16 + i % 8 * 128
}

// The place where row r starts, in lane 0, when the row before it starts at `start`: 128 places on, and at every eighth
// row by the order list. A walk that goes from row to row has less to do so than with `row_start`.
pub fn next_start(start: usize, r: usize) -> usize
    ensures { result ≡ Places.next_start_lem start r }
{
    if r % 8 == 0 {
        return row_start(r / 8, 0);
    }
    start % 1024 + 128
}
