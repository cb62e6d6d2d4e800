// The mathematics of the arrangement, over any home function. Definitions are in specs/, laws in proofs/; there is no code.
#![tactic(auto)]
