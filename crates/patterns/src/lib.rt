// Bit patterns and the numbers that they stand for, of any integer width and any float format. There is no code here: specs/ defines, proofs/ shows.
#![tactic(auto)]
