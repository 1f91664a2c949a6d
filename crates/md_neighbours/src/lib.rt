// Two of the eight detectors of document 01 (md/plugins.rs), those that compare a character with the last one: ranges and doubled accents.
// Each is a state of raw counts and of what is remembered of the last character, which goes in by value and comes back.
#![tactic(auto)]

pub mod suspicious_duplicate_accent;
pub mod suspicious_range;
