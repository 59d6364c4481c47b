//! Tests of the propagators through their public calls.
#![tactic(auto)]

#[cfg(test)]
mod found;
#[cfg(test)]
mod goal;
#[cfg(test)]
mod kinds;
#[cfg(test)]
mod pairs;
#[cfg(test)]
mod rooms;
#[cfg(test)]
mod shaving;
#[cfg(test)]
mod tugs;
