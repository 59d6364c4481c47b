//! Tests of reports longer than a buffer, and of tide tables of one kind, through public calls.
#![tactic(auto)]

#[cfg(test)]
mod reports;
#[cfg(test)]
mod tides;
