#![tactic(auto)]

// That the plain engine and the main one agree (R77): on every input each plain call gives the answer, the value, the
// count and the buffers of packing's or access's call. The theorems stand in proofs/, over the definitions that the
// calls' contracts name. There is no code here, and no crate leans on this one.
