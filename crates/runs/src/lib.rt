// Run-length decode of a block of 1,024 values. From the crate's src/rle.rs. The crate's encode is not taken.
#![tactic(auto)]

ghost use Rattle.std.specs.Prelude.{◌≡◌, ◌<◌, length};
ghost use Rattle.lists.specs.Search.{first_beyond};
ghost use Rattle.lists.specs.Ends.{highest_of};
ghost use Rattle.places.specs.Takes.{answer_for};
ghost use Rattle.runs.specs.Calls.{decode_takes, decode_leaves};
ghost use Rattle.runs.specs.Runs.{decode_of};

use places::{Answer, Element};

// Puts at each place the dictionary's value at the place's index. The dictionary may have any length.
pub fn decode<E: Element<T, LANES>, const T: usize, const LANES: usize>(
    dictionary: &[E],
    indices: &[u16],
    output: &mut [E],
) -> Answer
    ensures value { result
        ≡ answer_for (decode_takes (E.numbers dictionary.now) indices.now (E.numbers output.old)) }
    ensures output_after { E.numbers output.new
        ≡ decode_leaves (E.numbers dictionary.now) indices.now (E.numbers output.old) }
{
    if indices.len() != 1024 {
        return Answer::Block;
    }
    if output.len() != 1024 {
        return Answer::Block;
    }
    let high = highest(indices) as usize;
    if dictionary.len() <= high {
        return Answer::Dictionary(first_beyond(indices, dictionary.len()));
    }
    look_up(dictionary, indices, output);
    Answer::Done
}

// The whole output, where no index is at or beyond the dictionary's length: eight places at a time, for which the
// compiler needs one turn of the loop.
fn look_up<E: Element<T, LANES>, const T: usize, const LANES: usize>(
    dictionary: &[E],
    indices: &[u16],
    output: &mut [E],
)
    requires indices_in_bounds { highest_of indices.now < length dictionary.now }
    requires indices_len { length indices.now ≡ 1024 }
    requires output_len { length output.old ≡ 1024 }
    ensures { E.numbers output.new ≡ decode_of (E.numbers dictionary.now) indices.now }
{
    for o in 0..128 {
        for i in 0..8 {
            let p = o * 8 + i;
            let index = indices[p] as usize;
            output[p] = dictionary[index];
        }
    }
}

// The lowest place whose index is `limit` or more; the list's length where there is none.
fn first_beyond(indices: &[u16], limit: usize) -> usize
    ensures { result ≡ first_beyond limit indices.now }
{
    let mut place = 0;
    let found = loop {
        if indices.len() <= place {
            break place;
        }
        let index = indices[place] as usize;
        if limit <= index {
            break place;
        }
        place += 1;
    };
    found
}

// The highest index; 0 where there is none. A walk that always goes to the end takes many indices at a step, so decode
// tests the highest one, and searches only where there is a bad one to find.
pub fn highest(indices: &[u16]) -> u16
    ensures { result ≡ highest_of indices.now }
{
    let mut high: u16 = 0;
    for index in indices {
        high = high.max(*index);
    }
    high
}
