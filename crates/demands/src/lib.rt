// The worked examples and the demands on all calls together are theorems: see specs/ and proofs/.
#![tactic(auto)]
