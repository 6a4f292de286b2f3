// Files from before All-Six mean what they meant. No code: definitions and laws.
//
// specs/ has the rules as they were, where they differ: a table record with no byte 7, a seat record with no bytes 10 and 11, the seats dealt before the board, four
// amounts a seat. proofs/Files.antt: a file whose bytes at these places are zero is answered by the rules of now as it was by those, and its 35 amounts are the 28 with a 0
// after each seat's four; every file that was accepted then is such a file. The pool is shared by the rule of now on both sides: what is compared is All-Six alone.

#![tactic(auto)]
