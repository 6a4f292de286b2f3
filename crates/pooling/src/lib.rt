// Laws of the pool: who is in it, how large a win can be, and that it is shared. There is no code here.
//
// proofs/Pooled.antt: in a finished round that accepted records lead to, at most two seats have a win in the pool, at most one of them with a
// royal flush; a win is at most 5,000 times the table's largest ante, and without a royal flush 1,000 times. proofs/Shared.antt: so the pool of
// such a round is within the limits of sharing, and its shares keep the laws of shares. proofs/Absent.antt: what an absent seat and a folded
// one get. proofs/Folded.antt: a round in which both seats fold on street one, and what their side wagers hand back. proofs/Listed.antt: the pay
// tables that a table record may name are those that are listed. proofs/Unpooled.antt: no All-Six win goes into the pool, whatever its odds; it is handed
// back in full. proofs/Sound.antt: the six cards of an All-Six hand are never refused.

#![tactic(auto)]
