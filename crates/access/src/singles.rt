// Access at one place of a packed block.
ghost use Rattle.std.specs.Prelude.{◌≡◌, [], ◌∷◌, ◌*◌, ◌≤◌, ◌<◌, length};
ghost use Rattle.lists.specs.Numbers.{digit};
ghost use Rattle.places.specs.Takes.{an_index, answer_for};
ghost use Rattle.packing.specs.Packed.{words_number, value_at};
ghost use Rattle.access.specs.Calls.{single, single_of};
ghost use Rattle.access.specs.Counts.{words_read, count_at, words_at};
ghost use Rattle.access.specs.Singles.{single_number};

use crate::lookups::Lookup;
use crate::{NO_COUNT, Single, Words};
use places::{Answer, Element};

// Unpacks the value at one place of a packed block.
pub fn unpack_single<E: Lookup<T, LANES>, const T: usize, const LANES: usize>(
    width: usize,
    packed: &[E],
    index: usize,
) -> Single<E>
    ensures { single_number E.number result
        ≡ single_of Single.Value Single.Refused T width (E.numbers packed.now) index }
{
    if T < width {
        return Single::Refused(Answer::Width);
    }
    if packed.len() != LANES * width {
        return Single::Refused(Answer::Packed);
    }
    look_up(width, packed, index)
}

// How many packed words the value at a place stands in; `NO_COUNT` where there is no such width or no such place.
pub fn words_at<E: Lookup<T, LANES>, const T: usize, const LANES: usize>(
    width: usize,
    index: usize,
) -> Words
    ensures { result ≡ words_at T width index }
{
    if T < width {
        return NO_COUNT;
    }
    if 1024 <= index {
        return NO_COUNT;
    }
    words_read::<E, T, LANES>(width, E::row_of(index))
}

// The value at one place.
pub(crate) fn look_up<E: Lookup<T, LANES>, const T: usize, const LANES: usize>(
    width: usize,
    packed: &[E],
    index: usize,
) -> Single<E>
    requires width_le_t { width ≤ T }
    requires packed_len { length packed.now ≡ LANES * width }
    ensures { single_number E.number result
        ≡ single Single.Value Single.Refused (answer_for (an_index index ∷ []))
        (value_at T width (E.numbers packed.now) index) (count_at T width index) }
{
    if 1024 <= index {
        return Single::Refused(Answer::Index(0));
    }
    let l = E::lane_of(index);
    let r = E::row_of(index);
    read(width, packed, l, r)
}

// How many words the bits of row r stand in.
pub(crate) fn words_read<E: Element<T, LANES>, const T: usize, const LANES: usize>(
    width: usize,
    r: usize,
) -> Words
    requires width_le_t { width ≤ T }
    requires r_lt_t { r < T }
    ensures { result ≡ words_read T width r }
{
    if width == 0 {
        return 0;
    }
    if r * width % T + width <= T {
        return 1;
    }
    2
}

// The value of row r in lane l and the words that hold it: width 0 has none, the middle widths split words, and width T
// copies.
fn read<E: Element<T, LANES>, const T: usize, const LANES: usize>(
    width: usize,
    packed: &[E],
    l: usize,
    r: usize,
) -> Single<E>
    requires width_le_t { width ≤ T }
    requires packed_len { length packed.now ≡ LANES * width }
    requires l_bound { l < LANES }
    requires r_lt_t { r < T }
    ensures { single_number E.number result
        ≡ Single.Value (digit width (words_number T width (E.numbers packed.now) l) r) (words_read T width r) }
{
    match width {
        0 => Single::Value(E::of(0), 0),
        1..=63 if width < T => read_split(width, packed, l, r),
        _ => {
            E::are_elements(packed);
            Single::Value(packed[LANES * r + l], 1)
        }
    }
}

// The value of row r in lane l: from the word where it begins, and where it crosses into the next word, from that too.
// Where it crosses is known here, so the words are counted here.
fn read_split<E: Element<T, LANES>, const T: usize, const LANES: usize>(
    width: usize,
    packed: &[E],
    l: usize,
    r: usize,
) -> Single<E>
    requires width_nonzero { (0 < width) × (width < T) }
    requires packed_len { length packed.now ≡ LANES * width }
    requires l_bound { l < LANES }
    requires r_lt_t { r < T }
    ensures { single_number E.number result
        ≡ Single.Value (digit width (words_number T width (E.numbers packed.now) l) r) (words_read T width r) }
{
    E::are_elements(packed);
    let bit = r * width;
    let s = bit % T;
    let at = LANES * (bit / T) + l;
    let mut v = packed[at].shr(s);
    let mut n: Words = 1;
    if T < s + width {
        v = v.or(packed[at + LANES].shl(T - s));
        n = 2;
    }
    Single::Value(v.low(width), n)
}
