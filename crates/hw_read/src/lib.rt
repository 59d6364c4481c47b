//! A port read from the JSON text of an instance: the first fault of form by one walk over a
//! table of places, then the first fault of meaning.
#![tactic(auto)]

mod building;
mod fault;
mod members;
mod names;
mod reading;
mod stars;
mod table;
mod walking;

pub use fault::ReadFault;
pub use reading::read_port;
