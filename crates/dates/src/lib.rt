#![tactic(auto)]

// Why transposing helps the dates (R25 to R27): what delta stores of a block that was transposed first, and how many
// transposes restore a block. The statements stand in specs/ and their proofs in proofs/, over the definitions that the
// calls' contracts name. There is no code here, and no crate leans on this one.
