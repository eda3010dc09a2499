//! A control connection that ends with its server, and whose thread runs small downloads.

ghost use Rattle.std.specs.Prelude.{◌≡◌, true, false};

use crate::own_jobs::OwnJobs;
use crate::runtime::WorkerRuntime;
use crate::server_state::StateOf;
use crate::services::Services;
use ftp_base::{Control, Failed, Link, LinkFault, Source};
use ftp_shared::JournalHub;
use std::alloc::Global;
use std::sync::Arc;

/// What a client is told whose session ends with the server (RFC 959, section 4.2).
pub(crate) const STOPPING: &[u8] = b"421 Server is stopping, closing control connection\r\n";

/// A control connection that comes to its end, for who reads it, once the server is to stop and no job of its session runs
/// or waits for its data connection. Who waits for its lines runs the download first that was kept for its thread.
#[derive(Drop)]
pub(crate) struct Stoppable<
    R: WorkerRuntime,
    H: JournalHub + Drop,
    S: Services,
    C: Control + Drop,
> {
    own: OwnJobs<R, H, S>,
    inner: C,
    is_stopped: bool,
}

impl<R: WorkerRuntime, H: JournalHub + Drop, S: Services, C: Control + Drop> Stoppable<R, H, S, C> {
    pub(crate) fn new(
        rt: R,
        session: u64,
        state: Arc<StateOf<H, S>, Global>,
        inner: C,
    ) -> Stoppable<R, H, S, C>
        ensures { result.is_stopped ≡ false }
    {
        Stoppable {
            own: OwnJobs::<R, H, S>::new(rt, session, state),
            inner,
            is_stopped: false,
        }
    }

    /// Says whether it came to its end by the stop of the server.
    pub(crate) fn is_stopped(&self) -> bool
        ensures { result ≡ self.now.is_stopped }
    {
        self.is_stopped
    }

    /// Ends it where that is due by now, and says whether it has ended so.
    pub(crate) fn look(&mut self) -> bool
        ensures stopped { result ≡ self.new.is_stopped }
        ensures stays { self.old.is_stopped ≡ true → self.new.is_stopped ≡ true }
        ensures inner { self.new.inner ≡ self.old.inner }
    {
        if !self.is_stopped {
            self.is_stopped = self.own.is_to_end();
        }
        self.is_stopped
    }

    /// Its thread runs no job any more.
    pub(crate) fn end_jobs(&mut self)
        ensures stopped { self.new.is_stopped ≡ self.old.is_stopped }
        ensures inner { self.new.inner ≡ self.old.inner }
    {
        self.own.leave();
    }
}

impl<R: WorkerRuntime, H: JournalHub + Drop, S: Services, C: Control + Drop> Source
    for Stoppable<R, H, S, C> {
    ghost use Rattle.std.specs.Prelude.{true, None};

    ghost left = { λ _. None };

    ghost faults = { λ s. C.faults s.inner };

    ghost sending = { λ s. C.sending s.inner };

    ghost fault_limit = { λ s. C.fault_limit s.inner };

    ghost is_link = { true };

    fn read(&mut self, out: &mut [u8]) -> Result<usize, Failed> {
        if self.is_stopped {
            return Ok(0);
        }
        self.inner.read(out)
    }
}

impl<R: WorkerRuntime, H: JournalHub + Drop, S: Services, C: Control + Drop> Link
    for Stoppable<R, H, S, C> {
    ghost use Rattle.std.specs.Prelude.{refl};

    ghost takes_memory = { C.takes_memory };

    ghost connects = { refl };

    fn write(&mut self, bytes: &[u8]) -> Result<usize, Failed> {
        self.inner.write(bytes)
    }

    fn flush(&mut self) -> Result<(), Failed> {
        self.inner.flush()
    }

    fn close(&mut self) -> Result<(), Failed> {
        self.inner.close()
    }

    fn last_fault(&self) -> Option<LinkFault> {
        self.inner.last_fault()
    }
}

impl<R: WorkerRuntime, H: JournalHub + Drop, S: Services, C: Control + Drop> Control
    for Stoppable<R, H, S, C> {
    fn ready(&mut self, millis: u64) -> Result<bool, Failed> {
        if self.look() {
            return Ok(true);
        }
        // What came with the end of the job is said before the next line.
        if self.own.run_kept() {
            return Ok(false);
        }
        match self.inner.ready(millis) {
            Ok(is_ready) => Ok(self.look() || is_ready),
            Err(failed) => Err(failed),
        }
    }
}
