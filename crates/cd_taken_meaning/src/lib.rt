// Which characters of a text are taken into layers, and what the work area holds of them (01): the definitions and their laws. No function stands
// here; cd_taken has those that run.
#![tactic(auto)]

// What the work area holds of a character: its own range and its lower-case letter; 0 and 0 of one that is not taken.
#[derive(Clone, Copy)]
pub struct Letter {
    pub range: u32,
    pub lower: u32,
}
