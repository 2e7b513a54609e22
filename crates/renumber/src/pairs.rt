// A list of pairs: what a number becomes, and whether the list is one. Old numbers are found by halving, and new ones
// by halving along the order. The module is private: its functions are public to the module above alone.
ghost use Rattle.std.specs.Prelude.{◌≡◌, ◌-◌, ◌<◌, min, length, get_or};
ghost use Rattle.lists.specs.Members.{Rising};
ghost use Rattle.lists.specs.Search.{first_beyond};
ghost use Rattle.renumber.specs.InnerPairs.{Within, Ordered, Paired, meets_in};
ghost use Rattle.renumber.specs.Pairs.{place_in, is_in, renumbered, is_free, unrising_at, is_behind, is_ordered_at, disordered_at, twice_at, along};

// The lowest place of a rising list whose number is x or more, and the length where there is none.
fn at_least(list: &[u64], x: u64) -> usize
    requires { Rising list.now }
    ensures { result ≡ first_beyond x list.now }
{
    let mut low = 0;
    let mut high = list.len();
    while low < high {
        let middle = low + (high - low) / 2;
        if list[middle] < x {
            low = middle + 1;
        } else {
            high = middle;
        }
    }
    low
}

// The same along an order in which the numbers of the list rise.
fn at_least_along(order: &[u64], list: &[u64], x: u64) -> usize
    requires within { Within (length list.now) order.now }
    requires rising { Rising (along order.now list.now) }
    ensures { result ≡ first_beyond x (along order.now list.now) }
{
    let mut low = 0;
    let mut high = order.len();
    while low < high {
        let middle = low + (high - low) / 2;
        let place = order[middle] as usize;
        if list[place] < x {
            low = middle + 1;
        } else {
            high = middle;
        }
    }
    low
}

// The place of x in a rising list, and the length where it stands nowhere.
fn place_in(list: &[u64], x: u64) -> usize
    requires { Rising list.now }
    ensures { result ≡ place_in list.now x }
{
    let p = at_least(list, x);
    if p < list.len() {
        if list[p] == x {
            return p;
        }
    }
    list.len()
}

// Whether x stands among the new numbers.
fn is_new(new: &[u64], order: &[u64], x: u64) -> bool
    requires order_len { length order.now ≡ length new.now }
    requires within { Within (length new.now) order.now }
    requires rising { Rising (along order.now new.now) }
    ensures { result ≡ is_in new.now x }
{
    let p = at_least_along(order, new, x);
    if p < order.len() {
        let place = order[p] as usize;
        return new[place] == x;
    }
    false
}

// What x becomes.
pub fn renumber_one(old: &[u64], new: &[u64], x: u64) -> u64
    requires rising { Rising old.now }
    requires len { length new.now ≡ length old.now }
    ensures { result ≡ renumbered old.now new.now x }
{
    let p = place_in(old, x);
    if p < old.len() {
        return new[p];
    }
    x
}

// Whether x does not become one with another number. That it is new is looked for first: most numbers are not.
pub fn is_free(old: &[u64], new: &[u64], order: &[u64], x: u64) -> bool
    requires { Paired old.now new.now order.now }
    ensures { result ≡ is_free old.now new.now x }
{
    if is_new(new, order, x) {
        return place_in(old, x) < old.len();
    }
    true
}

// Whether a rising list has a number between two.
pub fn meets(list: &[u64], low: u64, high: u64) -> bool
    requires { Rising list.now }
    ensures { result ≡ meets_in list.now low high }
{
    let p = at_least(list, low);
    if p < list.len() {
        return list[p] <= high;
    }
    false
}

// The same along an order in which the numbers of the list rise.
pub fn meets_along(order: &[u64], list: &[u64], low: u64, high: u64) -> bool
    requires within { Within (length list.now) order.now }
    requires rising { Rising (along order.now list.now) }
    ensures { result ≡ meets_in (along order.now list.now) low high }
{
    let p = at_least_along(order, list, low);
    if p < order.len() {
        let place = order[p] as usize;
        return list[place] <= high;
    }
    false
}

// The lowest place at which a list does not rise, and its length where there is none.
pub fn first_unrising(list: &[u64]) -> usize
    ensures { result ≡ unrising_at list.now }
{
    for i in 1..list.len() {
        if list[i] <= list[i - 1] {
            return i;
        }
    }
    list.len()
}

// The lowest place of the order that says no pair, or one that does not come behind the pair before it; the length
// where there is none.
pub fn first_disordered(new: &[u64], order: &[u64]) -> usize
    ensures { result ≡ disordered_at new.now order.now }
{
    for i in 0..order.len() {
        if !is_ordered(new, order, i) {
            return i;
        }
    }
    order.len()
}

// Whether place i of the order says a pair that is there, and from place 1 on one that comes behind the pair before it.
fn is_ordered(new: &[u64], order: &[u64], i: usize) -> bool
    requires i_in_bounds { i < length order.now }
    requires i_in_bounds_2 { 0 < i → get_or order.now (i - 1) 0 < length new.now }
    ensures { result ≡ is_ordered_at new.now order.now i }
{
    let q = order[i] as usize;
    if new.len() <= q {
        return false;
    }
    if i == 0 {
        return true;
    }
    let p = order[i - 1] as usize;
    is_behind(new, p, q)
}

// Whether pair q comes behind pair p.
fn is_behind(new: &[u64], p: usize, q: usize) -> bool
    requires { (p < length new.now) × (q < length new.now) }
    ensures { result ≡ is_behind new.now p q }
{
    if new[p] == new[q] {
        return p < q;
    }
    new[p] < new[q]
}

// The lowest place of the new numbers whose number stands at another place too, and the length where there is none.
// Along the order equal numbers stand side by side, the lowest place first.
pub fn first_twice(new: &[u64], order: &[u64]) -> usize
    requires { Ordered new.now order.now }
    ensures { result ≡ twice_at new.now }
{
    let mut low = new.len();
    for i in 1..order.len() {
        let p = order[i - 1] as usize;
        let q = order[i] as usize;
        if new[p] == new[q] {
            low = lower(low, p);
        }
    }
    low
}

// The lower of two places.
fn lower(a: usize, b: usize) -> usize
    ensures { result ≡ min a b }
{
    if a <= b {
        return a;
    }
    b
}
