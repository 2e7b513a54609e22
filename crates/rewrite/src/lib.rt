// A readable column file, of either edition and of any kinds, is rewritten as the writer would write its rows (R112 to
// R114). This is a renumbering without pairs: no row is listed, so each stays, and the walk over the file, its refusals
// and its room are those of `renumber`.
#![tactic(auto)]

ghost use Rattle.std.specs.Prelude.{◌≡◌};
ghost use Rattle.rewrite.specs.InnerPairless.{own_refusal, as_written};
ghost use Rattle.rewrite.specs.Rewrite.{rewritten_of, rewrite_leaves};

use contents::FileRefusal;
use renumber::{RenumberRefusal, Renumbered, renumber};

// Writes the file's rows as a new file at the front of the output, and gives its length.
pub fn rewrite(file: &[u8], output: &mut [u8]) -> Result<usize, FileRefusal>
    ensures value { result ≡ rewritten_of file.now output.old }
    ensures output_after { output.new ≡ rewrite_leaves file.now output.old }
{
    let none = [0u64; 0];
    let renumbered = renumber(file, &none, &none, &none, output);
    as_written(renumbered)
}

// What a renumbering without pairs gave, as a rewrite gives it.
fn as_written(renumbered: Result<Renumbered, RenumberRefusal>) -> Result<usize, FileRefusal>
    ensures { result ≡ as_written renumbered }
{
    match renumbered {
        Ok(given) => Ok(given.length),
        Err(refusal) => Err(own_refusal(refusal)),
    }
}

// The file's own refusal. No other one is given where there are no pairs, and `Room` stands for those.
fn own_refusal(refusal: RenumberRefusal) -> FileRefusal
    ensures { result ≡ own_refusal refusal }
{
    match refusal {
        RenumberRefusal::File(own) => own,
        RenumberRefusal::Lengths => FileRefusal::Room,
        RenumberRefusal::Unrising(_) => FileRefusal::Room,
        RenumberRefusal::Disordered(_) => FileRefusal::Room,
        RenumberRefusal::Twice(_) => FileRefusal::Room,
        RenumberRefusal::Taken(_) => FileRefusal::Room,
    }
}
