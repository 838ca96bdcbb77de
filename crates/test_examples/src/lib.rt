// The worked examples (scope: examples), complete, as one table under one claim: `specs/Table.antt` and `proofs/Agree.antt`. There is no code here.
#![tactic(auto)]
