// Four of the eight detectors of document 01 (md/plugins.rs), those that count characters by what each one is: symbols, accents,
// unprintables and CJK stops. Each is a state of raw counts that goes in by value and comes back.
#![tactic(auto)]

pub mod cjk_invalid_stop;
pub mod too_many_accentuated;
pub mod too_many_symbol_or_punctuation;
pub mod unprintable;
