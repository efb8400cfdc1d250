//! Tests of packing and cutting lists of entries.
#![tactic(auto)]

#[cfg(test)]
mod packs;
