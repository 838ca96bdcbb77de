// What writing and reading promise together: `specs/Trips.antt` says it, `proofs/Demand.antt` proves it. There is no code here.
#![tactic(auto)]
