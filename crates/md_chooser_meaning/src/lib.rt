// What the chooser and its verdict answer (01, "The scan"): the types, their definitions and their laws. No function stands here; md_chooser has those
// that run.
#![tactic(auto)]

use base::Refusal;

// One of the two texts, by its number.
#[derive(Clone, Copy, Debug, PartialEq, Eq)]
pub enum Side {
    First = 1,
    Second = 2,
}

// Why no text is the more readable: the text that was refused, and its refusal.
#[derive(Clone, Copy, Debug, PartialEq, Eq)]
pub struct Unjudged {
    pub side: Side,
    pub why: Refusal,
}

// The verdict, and how many code points are handed back: what `choose` answers, in numbers, for a host to which no slice crosses.
#[derive(Clone, Copy)]
pub struct Part {
    pub judged: Result<Side, Unjudged>,
    pub length: u32,
}
