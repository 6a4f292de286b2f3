// The laws of royal and straight flushes, which odds above 50 are paid on. There is no code here.
//
// proofs/Names.antt: a royal flush is five cards of one suit that are the run from the ten, a straight flush such a run from
// below it, and the other way round. proofs/Seats.antt: over the same three community cards, with hole cards that all
// differ, no three seats hold a royal or a straight flush, and no two a royal.

#![tactic(auto)]
