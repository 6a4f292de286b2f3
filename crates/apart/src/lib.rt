// Laws of a shift: each round is settled apart from the others.
//
// The rounds of a shift are the files that were joined, and nothing is lost. Each round's part of a lent list is what its own call gives, whatever the others are; a
// shift of one round is that file's own call; and two shifts that are joined give the joined lists. proofs/Laws.antt has them; there is no code here.

#![tactic(auto)]
