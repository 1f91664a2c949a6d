// What the Jaro measure and its nearest f32 are (01): the definitions and their laws. No function stands here; cd_jaro has those that run.
#![tactic(auto)]
