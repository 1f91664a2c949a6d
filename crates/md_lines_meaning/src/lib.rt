// What scoring many lines in one call answers: the definitions and their laws. No function stands here; md_lines has those that run.
#![tactic(auto)]
