// What any list of lines leaves in the program's room, by the theorem of histories: see specs/ and proofs/. There is no code here.
#![tactic(auto)]
