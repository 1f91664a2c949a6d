// What write_utf8 answers (02 [3]): the definitions and their laws. No function stands here; utf8_form and utf8_write have those that run.
#![tactic(auto)]
