// Two detectors of document 01 that follow a text word by word: weird words and archaic case (md/plugins.rs).
#![tactic(auto)]

pub mod archaic_upper_lower;
pub mod super_weird_word;
