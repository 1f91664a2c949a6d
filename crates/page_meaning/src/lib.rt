// What read_page and write_page answer (02 [1]): the definitions and their laws. No function stands here; page has those that run.
#![tactic(auto)]
