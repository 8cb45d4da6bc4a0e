// Theorems on the number of blank cells: a call that is given a right number hands one back, and no other answer
// depends on it. There is no code here.
#![tactic(auto)]
