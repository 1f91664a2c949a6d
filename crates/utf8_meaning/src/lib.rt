// What reading UTF-8 answers, by the Unicode Standard: the definitions and their laws, a reading from any place on and runs of ASCII among them. No function stands here; utf8 and
// utf8_taking have those that run.
#![tactic(auto)]
