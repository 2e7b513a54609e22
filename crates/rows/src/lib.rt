// A row of LANES values that stand side by side in a block, as one value, and what packing, deltas and frames
// do with rows: the bodies that the macros of the crate's src/macros.rs repeat for each row and lane. Here a row is
// an array by value, and each operation is a loop of its own over the lanes, which the compiler turns into
// vector code. Every operation is total.
#![tactic(auto)]

ghost use Rattle.std.specs.Prelude.{◌≡◌};
ghost use Rattle.rows.specs.Rows.{splat_of, load_of, store_of, shr_of, or_shl_of, mask_of, add_of, sub_of};

use places::Element;

// One value in every lane.
pub fn splat<E: Element<T, LANES>, const T: usize, const LANES: usize>(v: E) -> [E; LANES]
    ensures { E.numbers result ≡ splat_of T (E.number v) }
{
    [v; LANES]
}

// The first LANES values of source; zeros where it has fewer. A caller lends the part that it wants, as &block[a..e]:
// where e is a + LANES the test is known to hold, and the load is LANES loads and nothing else. `copy_from_slice` would be
// plainer, here and in `store`, but it is a call, and twice as much is executed (docs/COST.md).
pub fn load<E: Element<T, LANES>, const T: usize, const LANES: usize>(source: &[E]) -> [E; LANES]
    ensures { E.numbers result ≡ load_of T (E.numbers source.now) }
{
    let mut x = [E::of(0); LANES];
    if source.len() < LANES {
        return x;
    }
    for l in 0..LANES {
        x[l] = source[l];
    }
    x
}

// Writes the row over the front of out; nothing where out has fewer than LANES places.
pub fn store<E: Element<T, LANES>, const T: usize, const LANES: usize>(out: &mut [E], x: [E; LANES])
    ensures { E.numbers out.new ≡ store_of (E.numbers out.old) (E.numbers x) }
{
    if out.len() < LANES {
        return;
    }
    for l in 0..LANES {
        out[l] = x[l];
    }
}

// Each value divided by 2^(s mod T). No caller passes T or more; the remainder costs an `and` outside the loop, where a
// test would stay in the code.
pub fn shr<E: Element<T, LANES>, const T: usize, const LANES: usize>(
    x: [E; LANES],
    s: usize,
) -> [E; LANES]
    ensures { E.numbers result ≡ shr_of T (E.numbers x) s }
{
    let mut y = x;
    for v in &mut y {
        *v = v.shr(s);
    }
    y
}

// Each value of x, with the bits set that the value of y in the same lane, times 2^(s mod T), has below 2^T.
pub fn or_shl<E: Element<T, LANES>, const T: usize, const LANES: usize>(
    x: [E; LANES],
    y: [E; LANES],
    s: usize,
) -> [E; LANES]
    ensures { E.numbers result ≡ or_shl_of T (E.numbers x) (E.numbers y) s }
{
    let mut z = x;
    for l in 0..LANES {
        z[l] = z[l].or(y[l].shl(s));
    }
    z
}

// Each value modulo 2^(w mod T).
pub fn mask<E: Element<T, LANES>, const T: usize, const LANES: usize>(
    x: [E; LANES],
    w: usize,
) -> [E; LANES]
    ensures { E.numbers result ≡ mask_of T (E.numbers x) w }
{
    let mut y = x;
    for v in &mut y {
        *v = v.low(w);
    }
    y
}

// Sums modulo 2^T.
pub fn wrapping_add<E: Element<T, LANES>, const T: usize, const LANES: usize>(
    x: [E; LANES],
    y: [E; LANES],
) -> [E; LANES]
    ensures { E.numbers result ≡ add_of T (E.numbers x) (E.numbers y) }
{
    let mut z = x;
    for l in 0..LANES {
        z[l] = z[l].wrapping_add(y[l]);
    }
    z
}

// Differences modulo 2^T.
pub fn wrapping_sub<E: Element<T, LANES>, const T: usize, const LANES: usize>(
    x: [E; LANES],
    y: [E; LANES],
) -> [E; LANES]
    ensures { E.numbers result ≡ sub_of T (E.numbers x) (E.numbers y) }
{
    let mut z = x;
    for l in 0..LANES {
        z[l] = z[l].wrapping_sub(y[l]);
    }
    z
}
