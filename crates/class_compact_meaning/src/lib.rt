// What the calls of the compact class table answer (02 [9]): the types, their definitions and their laws. No function stands here; class_compact has
// those that run.
#![tactic(auto)]

use base::Refusal;

// How many records and how many letters a table was packed to.
#[derive(Clone, Copy)]
pub struct Packed {
    pub records: u32,
    pub letters: u32,
}
