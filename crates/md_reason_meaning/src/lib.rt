// What `reason` answers (02 [8]): the types of the answer, its definitions and their laws. No function stands here; md_reason has those that run.
#![tactic(auto)]

use base::Refusal;

// The eight detectors in md.rs's order, each by its number.
#[derive(Clone, Copy, Debug, PartialEq, Eq)]
pub enum Detector {
    Symbols = 1,
    Accents = 2,
    Unprintable = 3,
    Ranges = 4,
    Doubled = 5,
    Words = 6,
    Stops = 7,
    Archaic = 8,
}

// The detector, none where the greatest ratio is 0, and how many indexes were listed.
#[derive(Clone, Copy)]
pub struct Why {
    pub detector: Option<Detector>,
    pub count: u32,
}
