// Theorems on the pin model: every device handed back is inside its ranges, the same bit shows again when a pause
// ends, and a cell changes only when a write cycle ends, and only one that the accepted frame addressed. There is no
// code here.
#![tactic(auto)]
