// Why a line does nothing.
use refusal::Refusal;
use std::alloc::{AllocError, AllocFailed};

// Why a call is refused: any refusal, by its number in docs/REFUSALS.md.
#[derive(Clone, Copy, Debug)]
pub(crate) struct Refused {
    pub(crate) number: u8,
}

impl<R: Refusal> From<R> for Refused {
    fn from(fault: R) -> Refused {
        Refused {
            number: fault.number(),
        }
    }
}

// Why a line is not run.
#[derive(Clone, Copy, Debug)]
pub(crate) enum LineFault {
    Unreadable,
    Refused(Refused),
    OutOfMemory(AllocError),
}

impl From<Refused> for LineFault {
    fn from(fault: Refused) -> LineFault {
        LineFault::Refused(fault)
    }
}

impl From<AllocError> for LineFault {
    fn from(fault: AllocError) -> LineFault {
        LineFault::OutOfMemory(fault)
    }
}

impl<T: Drop> From<AllocFailed<T>> for LineFault {
    fn from(fault: AllocFailed<T>) -> LineFault {
        LineFault::OutOfMemory(AllocError::from(fault))
    }
}
