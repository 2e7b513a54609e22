#![tactic(auto)]

// What the calls on blocks promise together: the table of the numbers 0 to 7 (R143), which each call answers by, and
// the cases P1 to P11 (R150). The statements stand in specs/ and their proofs in proofs/, over the definitions that the
// calls' contracts name. There is no code here, and no crate leans on this one.
