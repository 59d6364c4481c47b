//! Tests of the desk over real files, through public calls.
#![tactic(auto)]

#[cfg(test)]
mod files;
