// Theorems on frames with clock readings inside, and on any list of them and of readings and supply cuts between: every
// record handed back is inside the ranges, a cell changes only where a reading or a cut ends its cycle, and only one
// that an executed frame addressed, and the lock never opens. There is no code here.
#![tactic(auto)]
