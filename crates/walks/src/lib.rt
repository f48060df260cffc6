// Steps of proofs by hand that say nothing of any crate. There is no code here: proofs/ shows.
#![tactic(auto)]
