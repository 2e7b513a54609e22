// What a machine may wish for that decides what is read of two files and what is written, and does neither: a program
// grants its wishes one after another, and shows it what was read.
#![tactic(auto)]

// One of the two files.
#[derive(Clone, Copy)]
pub enum Side {
    Left,
    Right,
}

// Which of the two buffers of a file: one is for the front of the file, the other for a body.
#[derive(Clone, Copy)]
pub enum Part {
    Front,
    Body,
}

// What is to be done next.
#[derive(Clone, Copy)]
pub enum Wish {
    // of which file, into which of its buffers, from where on, and how many bytes are to be read
    Read(Side, Part, usize, usize),
    // so many bytes from the front of the output are to be written
    Write(usize),
    // nothing more
    Done,
}
