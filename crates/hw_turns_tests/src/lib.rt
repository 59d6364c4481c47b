//! Tests of crews through the public calls: the same turns played one by one, and what `solve` writes.
#![tactic(auto)]

#[cfg(test)]
mod alone;
#[cfg(test)]
mod played;
#[cfg(test)]
mod player;
#[cfg(test)]
mod problems;
