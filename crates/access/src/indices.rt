// Access by a list of places of a packed block, with a budget of words and without.
ghost use Rattle.std.specs.Prelude.{◌≡◌, [], ◌∷◌, ℕ, ◌*◌, ◌≤◌, ◌<◌, length, get_or, take};
ghost use Rattle.lists.specs.Search.{first_beyond};
ghost use Rattle.lists.specs.Tab.{over};
ghost use Rattle.places.specs.declared.Answer.TheVariants.{Done};
ghost use Rattle.places.specs.Takes.{an_index, answer_for};
ghost use Rattle.access.specs.Budgets.{front_words, affordable, within_gives, within_leaves};
ghost use Rattle.access.specs.Calls.{list_takes, list_of, list_gives, list_leaves};
ghost use Rattle.access.specs.Counts.{list_words};
ghost use Rattle.access.specs.InnerCounts.{firsts};
ghost use Rattle.access.specs.InnerEntries.{at_entry};

use crate::lookups::Lookup;
use crate::singles::{look_up, words_read};
use crate::{Afforded, Listed, Single, Words};
use places::{Answer, Element};

// Unpacks the values at a list of places.
pub fn unpack_indices<E: Lookup<T, LANES>, const T: usize, const LANES: usize>(
    width: usize,
    packed: &[E],
    indices: &[usize],
    output: &mut [E],
) -> Listed
    ensures value { result
        ≡ list_gives T width (E.numbers packed.now) indices.now (E.numbers output.old) }
    ensures output_after { E.numbers output.new
        ≡ list_leaves T width (E.numbers packed.now) indices.now (E.numbers output.old) }
{
    let answer = list_answer(width, packed, indices, output);
    if answer.number() != 0 {
        return Listed::Refused(answer);
    }
    look_up_all(width, packed, indices, output)
}

// Unpacks the values at the first places of a list, as many as the budget of words is enough for (R46). A budget of two
// words for each lookup is enough for all of them, and then this is access by the list.
pub fn unpack_within<E: Lookup<T, LANES>, const T: usize, const LANES: usize>(
    width: usize,
    packed: &[E],
    indices: &[usize],
    budget: Words,
    output: &mut [E],
) -> Afforded
    ensures value { result
        ≡ within_gives T width (E.numbers packed.now) indices.now (E.numbers output.old) budget }
    ensures output_after { E.numbers output.new
        ≡ within_leaves T width (E.numbers packed.now) indices.now (E.numbers output.old) budget }
{
    if indices.len() as Words <= budget / 2 {
        return match unpack_indices(width, packed, indices, output) {
            Listed::Words(words) => Afforded::Front(indices.len(), words),
            Listed::Refused(answer) => Afforded::Refused(answer),
        };
    }
    let answer = list_answer(width, packed, indices, output);
    if answer.number() != 0 {
        return Afforded::Refused(answer);
    }
    look_up_within(width, packed, indices, budget, output)
}

// The answer to a list of places. The whole list is looked at, whether a budget is enough for it or not.
fn list_answer<E: Element<T, LANES>, const T: usize, const LANES: usize>(
    width: usize,
    packed: &[E],
    indices: &[usize],
    output: &[E],
) -> Answer
    ensures { result
        ≡ answer_for (list_takes T width (E.numbers packed.now) indices.now (E.numbers output.now)) }
{
    if T < width {
        return Answer::Width;
    }
    if packed.len() != LANES * width {
        return Answer::Packed;
    }
    if output.len() != indices.len() {
        return Answer::Lists;
    }
    let place = first_beyond(indices);
    if place < indices.len() {
        return Answer::Index(place);
    }
    Answer::Done
}

// Each entry is the single answer taken apart: its value, or its refusal, which is then the list's at that entry. After
// the search no entry is refused. A lookup reads no word at width 0, and else one, and a second where its value crosses
// into the next word: the loop counts the second words alone, since that is the cheaper way (docs/COST.md), and the
// first ones are added behind it. No list is long enough for the limit at which its sum is held.
fn look_up_all<E: Lookup<T, LANES>, const T: usize, const LANES: usize>(
    width: usize,
    packed: &[E],
    indices: &[usize],
    output: &mut [E],
) -> Listed
    requires width_le_t { width ≤ T }
    requires packed_len { length packed.now ≡ LANES * width }
    requires output_len { length output.old ≡ length indices.now }
    requires by_index { (i : ℕ) → i < length indices.now → answer_for (an_index (get_or indices.now i 0) ∷ []) ≡ Done }
    ensures value { result ≡ Listed.Words (list_words T width indices.now) }
    ensures output_after { E.numbers output.new ≡ list_of T width (E.numbers packed.now) indices.now }
{
    let mut seconds: Words = 0;
    for (i, index) in indices.iter().enumerate() {
        let found = look_up(width, packed, *index);
        let Single::Value(v, n) = found else {
            return Listed::Refused(at_entry(found.answer(), i));
        };
        output[i] = v;
        if n == 2 {
            seconds += 1;
        }
    }
    let sum = first_words(width, indices.len()) + seconds;
    Listed::Words(sum)
}

// The same under a budget. A lookup that would pass it is not made, so its words are counted before; but no lookup
// reads more than two, so they are counted only where fewer than two are left.
fn look_up_within<E: Lookup<T, LANES>, const T: usize, const LANES: usize>(
    width: usize,
    packed: &[E],
    indices: &[usize],
    budget: Words,
    output: &mut [E],
) -> Afforded
    requires width_le_t { width ≤ T }
    requires packed_len { length packed.now ≡ LANES * width }
    requires output_len { length output.old ≡ length indices.now }
    requires by_index { (i : ℕ) → i < length indices.now → answer_for (an_index (get_or indices.now i 0) ∷ []) ≡ Done }
    ensures value { result
        ≡ Afforded.Front (affordable T width indices.now budget)
        (front_words T width indices.now (affordable T width indices.now budget)) }
    ensures output_after { E.numbers output.new
        ≡ over 0 (list_of T width (E.numbers packed.now)
        (take (affordable T width indices.now budget) indices.now)) (E.numbers output.old) }
{
    let mut left = budget;
    for (i, index) in indices.iter().enumerate() {
        if left < 2 {
            if left < words_read::<E, T, LANES>(width, E::row_of(*index)) {
                let sum = budget - left;
                return Afforded::Front(i, sum);
            }
        }
        let found = look_up(width, packed, *index);
        let Single::Value(v, n) = found else {
            return Afforded::Refused(at_entry(found.answer(), i));
        };
        output[i] = v;
        left -= n;
    }
    let sum = budget - left;
    Afforded::Front(indices.len(), sum)
}

// The lowest place of a list whose index is 1,024 or more; the list's length where there is none.
fn first_beyond(indices: &[usize]) -> usize
    ensures { result ≡ first_beyond 1024 indices.now }
{
    let mut i = 0;
    let place = loop {
        if indices.len() <= i {
            break i;
        }
        if 1024 <= indices[i] {
            break i;
        }
        i += 1;
    };
    place
}

// What entry i of a list answers, as the list's answer: a bad index, number 6, has the entry's place.
fn at_entry(answer: Answer, i: usize) -> Answer
    ensures { result ≡ at_entry answer i }
{
    if answer.number() == 6 {
        return Answer::Index(i);
    }
    answer
}

// The first words of so many lookups: none at width 0, and else one for each.
fn first_words(width: usize, lookups: usize) -> Words
    ensures { result ≡ firsts width lookups }
{
    if width == 0 {
        return 0;
    }
    lookups as Words
}
