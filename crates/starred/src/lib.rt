// The starred cases of document 01 in one statement, and lists of frames computed whole: what both models show of them.
// There is no code here.
#![tactic(auto)]
