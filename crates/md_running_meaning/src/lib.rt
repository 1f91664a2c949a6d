// What the calls of a running line answer (02 [6]): the state and the answers, their definitions and their laws. No function stands here; md_running has those that run.
#![tactic(auto)]

use base::Refusal;
use md_growth::Watched;

// A line of which some characters have arrived. `fed` of them were fed; the others came after the scan had stopped.
#[derive(Clone, Copy)]
pub struct Running {
    pub length: u32,
    pub received: u32,
    pub fed: u32,
    pub threshold: f32,
    pub stopped: bool,
    pub watched: Watched,
}

// The state after a feeding call, which is the one given where the call refused; and the number received, or why it refused.
#[derive(Clone, Copy)]
pub struct Fed {
    pub state: Running,
    pub answer: Result<u32, Refusal>,
}
