// No code: what a plan finds in the lists of a volume, and the laws of it.
#![tactic(auto)]
