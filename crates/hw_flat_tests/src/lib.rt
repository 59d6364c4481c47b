//! Tests of the walk and of the list of a problem's sources, through their public calls.
#![tactic(auto)]

#[cfg(test)]
mod sources;
#[cfg(test)]
mod walking;
