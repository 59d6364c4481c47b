//! Tests of the certified search and of what it stands on, by their public calls: trails, stores of clauses,
//! conflict analysis, levels and whole turns, over both stores.
#![tactic(auto)]

#[cfg(test)]
mod asking;
#[cfg(test)]
mod learning;
#[cfg(test)]
mod levels;
#[cfg(test)]
mod problems;
#[cfg(test)]
mod proposing;
#[cfg(test)]
mod proving;
#[cfg(test)]
mod restarts;
#[cfg(test)]
mod settling;
#[cfg(test)]
mod solving;
#[cfg(test)]
mod stores;
#[cfg(test)]
mod trails;
#[cfg(test)]
mod turns;
