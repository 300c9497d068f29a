// The checked examples a to i as one table, and errors that look right as programs that go wrong.
// There is no code here: definitions in specs/, and their proofs, by computation, in proofs/.
#![tactic(auto)]
