// The worked numbers of document 01 that are proved, as one table and one test. No code: the table is in specs/, the test in proofs/.
#![tactic(auto)]
