//! Why an instance isn't read.

ghost use Rattle.std.specs.Prelude.{◌≡◌};
ghost use Rattle.hw_read.specs.declared.fault.ReadFault.TheVariants.{Field, NoMemory};

use hw_port::PortFault;
use std::alloc::{AllocError, AllocFailed};
use thiserror::Error;

/// Why bytes are no port.
#[derive(Clone, Copy, Debug, Error)]
pub enum ReadFault {
    #[error("the instance is no JSON text")]
    NotJson,
    #[error("the instance has a fault: {0:?}")]
    Field(PortFault),
    #[error("memory was wanting")]
    NoMemory,
}

impl From<PortFault> for ReadFault {
    ghost from_gives = { λ f e. e ≡ Field f };

    fn from(f: PortFault) -> ReadFault {
        ReadFault::Field(f)
    }
}

impl From<AllocError> for ReadFault {
    ghost from_gives = { λ _ e. e ≡ NoMemory };

    fn from(_e: AllocError) -> ReadFault {
        ReadFault::NoMemory
    }
}

impl<T: Drop> From<AllocFailed<T>> for ReadFault {
    ghost from_gives = { λ _ e. e ≡ NoMemory };

    fn from(_e: AllocFailed<T>) -> ReadFault {
        ReadFault::NoMemory
    }
}
