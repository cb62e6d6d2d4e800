// The three demands as theorems over the register's definitions: see specs/ and proofs/. There is no code here.
#![tactic(auto)]
