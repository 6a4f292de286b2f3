// Which rounds accepted records lead to, and the test that is true of exactly those. No code: definitions and laws.
//
// `Led` is what refusal 17 speaks of: the fresh round, and what an accepted record makes of a led round. `is_held` is a test of the round's
// own numbers. proofs/Exact.antt shows that the test is true of exactly the led rounds, one way by the four kinds of record, the other way by the round's
// own records: its table, its seats, its deck parts and its choices, by street and rising seat, are all accepted and lead to it.

#![tactic(auto)]
