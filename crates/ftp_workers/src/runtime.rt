//! What a thread of a server uses of the runtime.

use std::net::Net;
use std::random::RandomSource;
use std::sync::Wait;
use std::time::Clock;

/// All that the threads of a server use of the runtime. They start no thread.
pub trait WorkerRuntime: Net + Wait + Clock + RandomSource + Copy + Drop {}

impl<R: Net + Wait + Clock + RandomSource + Copy + Drop> WorkerRuntime for R {}
