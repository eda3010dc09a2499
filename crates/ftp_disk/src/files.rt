//! The files of a system, and what their changes need.

use std::alloc::Global;

/// The files of a system, with what waits for the locks of budgets.
#[derive(Drop)]
pub(crate) struct Files<R, S> {
    pub(crate) rt: R,
    pub(crate) system: S,
    pub(crate) alloc: Global,
}
