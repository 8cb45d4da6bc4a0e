// Theorems on images as Intel HEX: which texts are good, what import leaves in each cell, an exported image imported
// again, where 12 is answered. There is no code here.
#![tactic(auto)]
