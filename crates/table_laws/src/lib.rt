// No code: what a tick and a report mean is said in specs/ and proved in proofs/.
#![tactic(auto)]
