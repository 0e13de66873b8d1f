// The rivers that document 01 works through and marks ◆, computed on the rules themselves: proofs/Rivers.antt has one list
// of checks and one result over it. No code.
#![tactic(auto)]
