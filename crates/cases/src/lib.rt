// The cases P1 to P14 of document 01, as one table under one proved statement. There is no code here.
//
// specs/Cases.antt has the table and says when a case is right: of the answers that the entries promise, not of what they are
// made of. proofs/Right.antt shows that every case is.

#![tactic(auto)]
