// Lists of indices.
ghost use Rattle.std.specs.Prelude.{◌≡◌, ◌≤◌, length, slice_index};
ghost use Rattle.lists.specs.Tab.{tab};
ghost use Rattle.io.specs.Counts.{IsPrefixLen};

use crate::block_cases::Wide;

// The numbers as indices.
pub fn indexed(x: &Wide) -> [usize; 4096]
    ensures { result ≡ tab 4096 (λ i. slice_index x.now i) }
{
    let mut y = [0usize; 4096];
    for i in 0..4096 {
        y[i] = index_of(x[i]);
    }
    y
}

fn index_of(x: u64) -> usize
    ensures { result ≡ x }
{
    x as usize
}

// As within of the sizes, for a list of indices.
pub fn within_indices(n: usize, x: &[usize]) -> usize
    ensures prefix_len { IsPrefixLen result x.now }
    ensures value { n ≤ length x.now → result ≡ n }
{
    if n <= x.len() { n } else { 0 }
}
