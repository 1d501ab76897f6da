// Lists of calls that meet demand 3's hypotheses for a use, and what it gives for each. There is no code here.
#![tactic(auto)]
