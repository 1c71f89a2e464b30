// Commutative rings and a solver of their identities, and the integers as an ordered ring. No code: all is in specs/.
#![tactic(auto)]
