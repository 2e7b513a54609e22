// The calls on any type of element, on blocks whose packed words were worked out by hand from the sentence of R76.
use crate::{pack, unpack, unpack_single};
use places::Element;

// What a caller over any type of element may write: the numbers of pack and of unpack,
fn there_and_back<E: Element<T, LANES>, const T: usize, const LANES: usize>(
    width: usize,
    values: &[E],
    packed: &mut [E],
    back: &mut [E],
) -> (usize, usize) {
    let there = pack(width, values, packed);
    (there.number(), unpack(width, packed, back).number())
}

// and a value with the count of its words.
fn looked_up<E: Element<T, LANES>, const T: usize, const LANES: usize>(
    width: usize,
    packed: &[E],
    index: usize,
) -> (E, usize) {
    let single = unpack_single(width, packed, index);
    (single.value(), single.words())
}

// A block of u64 at width 3 has the value 5, whose bits are 1, 0 and 1, at two places. Place 197 is row 9 of lane 5: its
// bits are 27 to 29 of the lane, all in word 0. Place 672 is row 21 of lane 0: its bits are 63 to 65, the first in word 0
// and two in word 1.
#[test]
fn u64_of_three_bits(rt: HostRuntime) {
    let mut values = [0u64; 1024];
    values[197] = 5;
    values[672] = 5;
    let mut packed = [1u64; 48];
    let mut back = [1u64; 1024];
    assert_eq!(rt; there_and_back(3, &values, &mut packed, &mut back), (0, 0));
    for (i, word) in packed.iter().enumerate() {
        let expected = match i {
            0 => 9_223_372_036_854_775_808,
            5 => 671_088_640,
            16 => 2,
            _ => 0,
        };
        assert_eq!(rt; *word, expected, "word {i}");
    }
    for (p, value) in back.iter().enumerate() {
        assert_eq!(rt;
            *value,
            if p == 197 || p == 672 { 5 } else { 0 },
            "place {p}"
        );
    }
    assert_eq!(rt; looked_up(3, &packed, 197), (5, 1));
    assert_eq!(rt; looked_up(3, &packed, 672), (5, 2));
}

// A block of u8 at width 5 has the value 21, whose bits are 1, 0, 1, 0 and 1, at place 130, which is row 1 of lane 2: its
// bits are 5 to 9 of the lane, three in word 0 and two in word 1.
#[test]
fn u8_of_five_bits(rt: HostRuntime) {
    let mut values = [0u8; 1024];
    values[130] = 21;
    let mut packed = [1u8; 640];
    let mut back = [1u8; 1024];
    assert_eq!(rt; there_and_back(5, &values, &mut packed, &mut back), (0, 0));
    for (i, word) in packed.iter().enumerate() {
        let expected = match i {
            2 => 160,
            130 => 2,
            _ => 0,
        };
        assert_eq!(rt; *word, expected, "word {i}");
    }
    for (p, value) in back.iter().enumerate() {
        assert_eq!(rt; *value, if p == 130 { 21 } else { 0 }, "place {p}");
    }
    assert_eq!(rt; looked_up(5, &packed, 130), (21, 2));
}

// A refused call answers its number and changes nothing, and a refused lookup has the value 0.
#[test]
fn refusals(rt: HostRuntime) {
    let mut packed = [7u16; 64];
    let mut back = [7u16; 1024];
    assert_eq!(rt;
        there_and_back(17, &[0; 1024], &mut packed, &mut back),
        (1, 1)
    );
    assert_eq!(rt;
        there_and_back(1, &[0; 1023], &mut packed, &mut [7; 1023]),
        (2, 2)
    );
    assert_eq!(rt;
        there_and_back(2, &[0; 1024], &mut packed, &mut back),
        (3, 3)
    );
    for word in packed.iter() {
        assert_eq!(rt; *word, 7);
    }
    for value in back.iter() {
        assert_eq!(rt; *value, 7);
    }
    assert_eq!(rt; unpack_single(1, &packed, 1024).answer().number(), 6);
    assert_eq!(rt; looked_up(1, &packed, 1024), (0, usize::MAX));
}
