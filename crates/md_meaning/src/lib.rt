// What scoring answers (01): the types of a score, its definitions and their laws. No function stands here; md has those that run.
#![tactic(auto)]

use base::Refusal;
use ratio::{EightShown, Ratios};

// What 01's score answer holds: the eight ratios, their sum, the characters fed, and whether the scan stopped early; and 02's counts of each ratio.
#[derive(Clone, Copy)]
pub struct Score {
    pub ratios: Ratios,
    pub sum: f32,
    pub fed: u32,
    pub stopped: bool,
    pub counts: EightShown,
}
