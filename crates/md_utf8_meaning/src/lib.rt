// What scoring of UTF-8 bytes in one call answers: its definitions and their laws. No function stands here; md_utf8 has those that run.
#![tactic(auto)]
