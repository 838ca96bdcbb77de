// What the 3-link and the 3-unlink promise, without their walks: `specs/Matching.antt` says it, `proofs/Demand.antt` proves it. There is no code here.

#![tactic(auto)]
