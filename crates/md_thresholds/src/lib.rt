// What moving the threshold can do (02 [12]). There is no call here: the laws stand in proofs/Laws, about md's, md_utf8's and md_running's answers.
#![tactic(auto)]
