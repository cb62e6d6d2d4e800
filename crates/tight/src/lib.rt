// When a contract is tight: see specs/. There is no code here.
#![tactic(auto)]
