// Demand 3 over the definitions: what was written under a newer schema goes through an older one unharmed.
#![tactic(auto)]
