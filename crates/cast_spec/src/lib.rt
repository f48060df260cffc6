// What a cast is: the outcome of one element, the answer, the counts and the bytes of a chunk call, demands 1 and 3, the classes of the counts, and the samples. There is no code here: specs/ defines, proofs/ shows.
#![tactic(auto)]
