//! Why a call to the outside fails.

/// Why a call failed. Memory runs out in writes alone, and is no fault of the object.
#[derive(Clone, Copy, Debug, PartialEq, Eq)]
pub enum Failed {
    Fault,
    Memory,
}

/// What went wrong on a connection.
#[derive(Clone, Copy, Debug, PartialEq, Eq)]
pub enum LinkFault {
    Reset,
    BrokenPipe,
    Aborted,
    Other,
}
