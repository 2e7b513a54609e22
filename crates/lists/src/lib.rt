#![tactic(auto)]

// Lists, tests and numbers, and what is said of them without a block: lists by a rule, parts of lists, the lowest
// that fails a test and those that pass one, the smallest and the largest number, the tests of a call with their
// refusals, and numbers of b-bit digits. The definitions stand in specs/ and their laws in proofs/. There is no code
// here; every crate whose definitions need one of them leans on this one.
