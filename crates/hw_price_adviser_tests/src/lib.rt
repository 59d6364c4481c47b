//! Tests of plans with prices, by their public calls: small problems against the walk, problems at the
//! limits of the flat text, and small budgets. A checker takes each line of each.
#![tactic(auto)]

#[cfg(test)]
mod budgets;
#[cfg(test)]
mod checked;
#[cfg(test)]
mod drawn;
#[cfg(test)]
mod early;
#[cfg(test)]
mod limits;
#[cfg(test)]
mod made;
#[cfg(test)]
mod walked;
