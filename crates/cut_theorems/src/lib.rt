// Theorems on a supply cut in a run of the driver: after any part of the run and a cut the cells outside the run are as
// they were, and the same write sent again leaves the memory of the uncut one. There is no code here.
#![tactic(auto)]
