// What merge answers (02 [14]): the definitions and their laws. No function stands here; cd_merge has those that run.
#![tactic(auto)]
