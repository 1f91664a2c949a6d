// The rest of a text that has stopped, which is not fed: only whether each character has a class. Walked by blocks and by spans of characters (rest.rt); of a long one,
// with a table that holds every scalar value, less need be asked (whole.rt).
#![tactic(auto)]

pub mod rest;
pub mod whole;
