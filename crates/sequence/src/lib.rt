// What the driver sends: the frames and readings of a wait, a page and a run, and how a run ends. Theorems: the polls
// of each wait, that every frame is executed, the cells that a run leaves, what 9 and 13 leave and where 13 comes.
// There is no code here.
#![tactic(auto)]
