// The value transpose.
ghost use Rattle.std.specs.Prelude.{◌≡◌, length, get_or, ◌+◌, ◌*◌, ◌≤◌, ◌<◌};
ghost use Rattle.lists.specs.Tab.{tab, over};
ghost use Rattle.places.specs.Takes.{answer_for};
ghost use Rattle.places.specs.Transposes.{transpose_takes, transpose_leaves, untranspose_leaves};
ghost use Rattle.places.specs.InnerWalks.{walk};

use crate::element::Element;
use crate::{Answer, order};

// Puts at i the value found at the source of i.
pub fn transpose<E: Element<T, LANES>, const T: usize, const LANES: usize>(
    input: &[E],
    output: &mut [E],
) -> Answer
    ensures value { result ≡ answer_for (transpose_takes (E.numbers input.now) (E.numbers output.old)) }
    ensures output_after { E.numbers output.new ≡ transpose_leaves (E.numbers input.now) (E.numbers output.old) }
{
    if input.len() != 1024 {
        return Answer::Block;
    }
    if output.len() != 1024 {
        return Answer::Block;
    }
    permute(input, output, 8, 16);
    Answer::Done
}

// Puts the value found at i at the source of i.
pub fn untranspose<E: Element<T, LANES>, const T: usize, const LANES: usize>(
    input: &[E],
    output: &mut [E],
) -> Answer
    ensures value { result ≡ answer_for (transpose_takes (E.numbers input.now) (E.numbers output.old)) }
    ensures output_after { E.numbers output.new ≡ untranspose_leaves (E.numbers input.now) (E.numbers output.old) }
{
    if input.len() != 1024 {
        return Answer::Block;
    }
    if output.len() != 1024 {
        return Answer::Block;
    }
    permute(input, output, 16, 8);
    Answer::Done
}

// The whole output, part by part.
fn permute<E: Element<T, LANES>, const T: usize, const LANES: usize>(
    input: &[E],
    output: &mut [E],
    parts: usize,
    count: usize,
)
    requires count_value { parts * count ≡ 128 }
    requires input_len { length input.now ≡ 1024 }
    requires output_len { length output.old ≡ 1024 }
    ensures { E.numbers output.new ≡ tab 1024 (λ i. get_or (E.numbers input.now) (walk parts count i) 0) }
{
    for part in 0..parts {
        gather_part(input, output, parts, count, part);
    }
}

// One part of the output: eight runs, which begin in the input where the order list says.
fn gather_part<E: Element<T, LANES>, const T: usize, const LANES: usize>(
    input: &[E],
    output: &mut [E],
    parts: usize,
    count: usize,
    part: usize,
)
    requires count_value { parts * count ≡ 128 }
    requires input_len { length input.now ≡ 1024 }
    requires output_len { length output.old ≡ 1024 }
    requires part_lt_parts { part < parts }
    ensures { E.numbers output.new
        ≡ over (part * 8 * count)
        (tab (8 * count) (λ i. get_or (E.numbers input.now) (walk parts count (part * 8 * count + i)) 0))
        (E.numbers output.old) }
{
    for o in 0..8 {
        gather(
            input,
            order(o) * parts + part,
            8 * parts,
            output,
            (part * 8 + o) * count,
            count,
        );
    }
}

// One run: the count values of input from `from` on that stand stride apart, side by side in output from `to` on.
fn gather<E: Element<T, LANES>, const T: usize, const LANES: usize>(
    input: &[E],
    from: usize,
    stride: usize,
    output: &mut [E],
    to: usize,
    count: usize,
)
    requires stride_in_bounds { from + count * stride < length input.now + stride }
    requires count_in_bounds { to + count ≤ length output.old }
    ensures { E.numbers output.new
        ≡ over to (tab count (λ k. get_or (E.numbers input.now) (from + k * stride) 0)) (E.numbers output.old) }
{
    for k in 0..count {
        output[to + k] = input[from + k * stride];
    }
}
