//! Tests of real files and of standard input.
#![tactic(auto)]

#[cfg(test)]
mod files;
#[cfg(test)]
mod sources;
#[cfg(test)]
mod steps;
