// What the monthly report says (02 [13]): its definitions and their laws. No function stands here; md_report has those that run.
#![tactic(auto)]
