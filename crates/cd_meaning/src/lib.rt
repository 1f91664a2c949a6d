// What coherence_ratio answers (01): the definitions and their laws. No function stands here; cd has those that run.
#![tactic(auto)]
