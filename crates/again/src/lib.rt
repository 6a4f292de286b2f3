// A file of accepted records, read and written again. No code: definitions and laws.
//
// What a pad holds and what it files are one thing, in both directions: reading what was written gives the same held round, and what was read is written as the same
// bytes, but for the order of choices within a street, which a round doesn't hold. So whichever of them is settled, the answer is the same.

#![tactic(auto)]
