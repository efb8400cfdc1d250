//! The shape that reorganising gives a file, one move of it, what truncating leaves, and how much room and depth a
//! change needs. These are definitions; no call speaks of them yet.
#![tactic(auto)]
