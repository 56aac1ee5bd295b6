ghost use Rattle.std.specs.Prelude.{◌≡◌};
ghost use Rattle.shed_base.specs.declared.refusals.IoRefusal.TheVariants as refusal;

use std::alloc::{AllocError, AllocFailed};
use thiserror::Error;

/// Memory ran out.
#[derive(Debug, Drop, PartialEq, Eq, Error)]
#[error("out of memory")]
pub struct NoMemory;

/// A call on the world outside failed.
#[derive(Debug, Drop, PartialEq, Eq, Error)]
#[error("the call failed")]
pub struct Failed;

/// Why a call on the world outside gave no answer.
#[derive(Debug, Drop, PartialEq, Eq, Error)]
pub enum IoRefusal {
    #[error("the call failed")]
    Failed,
    #[error("out of memory")]
    NoMemory,
}

impl From<AllocError> for NoMemory {
    fn from(_error: AllocError) -> NoMemory {
        NoMemory
    }
}

impl<T: Drop> From<AllocFailed<T>> for NoMemory {
    fn from(_error: AllocFailed<T>) -> NoMemory {
        NoMemory
    }
}

impl From<AllocError> for IoRefusal {
    ghost from_gives = { λ _ e. e ≡ refusal.NoMemory };

    fn from(_error: AllocError) -> IoRefusal {
        IoRefusal::NoMemory
    }
}

impl<T: Drop> From<AllocFailed<T>> for IoRefusal {
    ghost from_gives = { λ _ e. e ≡ refusal.NoMemory };

    fn from(_error: AllocFailed<T>) -> IoRefusal {
        IoRefusal::NoMemory
    }
}

impl From<NoMemory> for IoRefusal {
    ghost from_gives = { λ _ e. e ≡ refusal.NoMemory };

    fn from(_error: NoMemory) -> IoRefusal {
        IoRefusal::NoMemory
    }
}

impl From<Failed> for IoRefusal {
    ghost from_gives = { λ _ e. e ≡ refusal.Failed };

    fn from(_error: Failed) -> IoRefusal {
        IoRefusal::Failed
    }
}
