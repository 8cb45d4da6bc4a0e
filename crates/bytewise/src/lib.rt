// Marks as words and marks as bytes are one: each event, frame and reading of the one form is that of the other, seen
// through the view that makes a byte of each mark. There is no code here.
#![tactic(auto)]
