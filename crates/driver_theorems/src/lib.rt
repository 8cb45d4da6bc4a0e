// Theorems on the public call of the driver: case h, and the same write sent twice. There is no code here.
#![tactic(auto)]
