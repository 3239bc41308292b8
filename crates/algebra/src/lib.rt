// Laws of whole numbers and of finite sums, for the proofs of the crates above. There is no code here.
#![tactic(auto)]
