// Demand 3: the two models agree on every list of frames, each with its level of Write Protect, its mode and its clock
// readings inside, and of clock readings and supply cuts between frames, however it is drawn as pin changes. The
// drawings and the statement are in specs/, the proof in proofs/. There is no code here.
#![tactic(auto)]
