// No code: `specs/` has the words for lists, numbers and refusals that the definitions of every
// crate use, and `proofs/` their laws.
#![tactic(auto)]
