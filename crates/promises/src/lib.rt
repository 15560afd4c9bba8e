// What follows from the rules: every promise as a statement in specs/, its proof in proofs/. There is no code here.
#![tactic(auto)]
