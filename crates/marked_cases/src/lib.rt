// The marked cases (a) to (l) of document 01, one table with a single proof: specs/Cases.antt and proofs/Laws/Marked.antt. They are cases of the
// definitions that the library's contracts cite, so this crate has no function.
#![tactic(auto)]
