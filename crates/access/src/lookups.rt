// Lane and row of a place of a block, for each type of an element.
//
// At T 64 and T 32 they are looked up in two tables of 1,024 small numbers. These are statics, which are read where they
// stand: a constant would be made anew on the stack at each use. At T 16 and T 8 there is no table, and they are worked
// out (R18): on a machine with little cache two tables of 1,024 numbers do not stay in it. The order list is not needed
// there: its entries 0 and 4, which are 0 and 1, are the only ones that the rule for the row asks for at T 16, and at
// T 8 it asks for entry 0 alone.
mod tables32;
mod tables64;

ghost use Rattle.std.specs.Prelude.{◌≡◌, ◌%◌};
ghost use Rattle.places.specs.Places.{lane, row};

use places::Element;

// A type of element with the lookup of a place.
pub trait Lookup<const T: usize, const LANES: usize>: Element<T, LANES> {
    // The lane of a place. A place is taken modulo 1,024, so that every number has a meaning.
    fn lane_of(place: usize) -> usize
        ensures { result ≡ lane T (place % 1024) };

    // The row of a place.
    fn row_of(place: usize) -> usize
        ensures { result ≡ row T (place % 1024) };
}

impl Lookup<8, 128> for u8 {
    fn lane_of(place: usize) -> usize {
        place % 1024 % 128
    }

    fn row_of(place: usize) -> usize {
        place % 1024 / 128
    }
}

// Of two times eight rows those of one eight stand 128 places from each other, and the next eight 64 places on.
impl Lookup<16, 64> for u16 {
    fn lane_of(place: usize) -> usize {
        place % 1024 % 64
    }

    fn row_of(place: usize) -> usize {
        place % 1024 / 64 % 2 * 8 + place % 1024 / 128
    }
}

impl Lookup<32, 32> for u32 {
    fn lane_of(place: usize) -> usize {
        tables32::LANE_BY_PLACE[place % 1024] as usize
    }

    fn row_of(place: usize) -> usize {
        tables32::ROW_BY_PLACE[place % 1024] as usize
    }
}

impl Lookup<64, 16> for u64 {
    fn lane_of(place: usize) -> usize {
        tables64::LANE_BY_PLACE[place % 1024] as usize
    }

    fn row_of(place: usize) -> usize {
        tables64::ROW_BY_PLACE[place % 1024] as usize
    }
}
