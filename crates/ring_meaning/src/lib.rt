// What the calls of the verdict ring answer (02 [11]): the types, their definitions and their laws. No function stands here; ring has those that run.
#![tactic(auto)]

use base::Refusal;

// What a record tells of a line: its number, and its score's bits, the characters fed, the mark of having stopped and a refusal's number. They are
// stored as they are given.
#[derive(Clone, Copy)]
pub struct Verdict {
    pub line: u64,
    pub bits: u32,
    pub fed: u32,
    pub stopped: u32,
    pub refusal: u32,
}

// What the caller keeps with a ring: the slot of the oldest record, and how many records there are.
#[derive(Clone, Copy)]
pub struct Kept {
    pub head: u32,
    pub count: u32,
}
