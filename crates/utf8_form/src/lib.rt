// What the writer of UTF-8 is made of: whether every number of a text has a form and how many bytes they take, the bytes of one form, and ASCII's in bulk.
#![tactic(auto)]

pub mod ascii;
pub mod check;
pub mod sequence;
