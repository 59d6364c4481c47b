//! A port that keeps the meaning rules.

ghost use Rattle.std.specs.Prelude.{◌≡◌, None, IfErr};
ghost use Rattle.hw_port.specs.Meaning.{port_of, port_fault, IsMeaning};
ghost use Rattle.hw_port.specs.Kept.{PortKept};

use crate::fault::PortFault;
use crate::meaning::test_port;
use crate::parts::PortParts;
use std::marker::Model;

/// A port whose parts keep every meaning rule. Seen as its parts.
#[derive(Drop)]
pub struct Port {
    parts: PortParts,
}

impl Model for Port {
    ghost use Rattle.std.specs.Prelude.{◌≡◌, None, IfErr};
    ghost use Rattle.hw_port.specs.Whole.{Parts};
    ghost use Rattle.hw_port.specs.Meaning.{port_fault};

    ghost Value = { Parts };

    ghost view = { λ s. s.parts };

    ghost invariant = { λ s. port_fault s.parts ≡ None };
}

impl Port {
    /// The port of these parts, or their first fault of meaning in the order of the table, list
    /// items one after another and each whole. The parts are then dropped.
    ///
    /// It takes no memory, and goes over the parts once; names are compared with those before.
    pub fn check(parts: PortParts) -> Result<Port, PortFault>
        ensures port { result ≡ port_of parts }
        ensures meaning { IfErr result (λ f. IsMeaning f.word) }
    {
        test_port(&parts)?;
        Ok(Port { parts })
    }

    /// The parts. It takes no memory.
    pub fn parts(&self) -> &PortParts
        ensures parts { result.now ≡ self.now }
        ensures rules { port_fault result.now ≡ None }
        ensures kept { PortKept result.now }
    {
        &self.parts
    }
}
