// The starred cases of document 01 as one claim: see specs and proofs. No code.
#![tactic(auto)]
