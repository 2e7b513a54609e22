// The hands of the program changes (ours): parts of a file read at positions, and lines written to standard output. It
// knows nothing of column files.
#![tactic(auto)]

pub mod lines;
pub mod read;
