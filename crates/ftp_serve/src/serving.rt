//! What the program serves.

ghost use Rattle.std.specs.Prelude.{◌≡◌, ◌≤◌, ◌<◌, ◌↔◌, ◌⊎◌, IfOk, IfErr, IsErrOf};
ghost use Rattle.ftp_options.specs.Builder.{settings_of};
ghost use Rattle.ftp_serve.specs.Settings.{settings_for, IsAtZero};

use crate::recording::record;
use crate::service::Service;
use ftp_base::{AuthAnswer, MemoryStorage, NopListener, SameAnswer};
use ftp_listen::{Parts, Server};
use ftp_options::{ListenerMode, Options, ServerBuilder, ServerError};
use ftp_shared::JournalFeed;
use ftp_system::{NeverAsks, ServerRuntime};
use std::alloc::Global;
use std::io::Write;
use std::sync::Arc;
use std::thread;

/// The largest file, in bytes.
const MAX_FILE: u64 = 16_777_216;

/// How many entries may wait to be printed: some hundred MB of them.
const MOST_WAITING: u64 = 200_000;

// The options of a service.
//
// # Proved
//
// - Its options are the defaults but for the mode and the passive ports of its words; a range that is empty is refused
//   as that, one that begins with port 0 where sessions share the ports as that, and nothing else is (`built`,
//   `empty_range`, `port_zero`, `only`).
fn options(alloc: Global, service: Service) -> Result<Options, ServerError>
    ensures built { IfOk result (λ options. settings_of options ≡ settings_for service) }
    ensures empty_range { IsErrOf result ServerError.EmptyRange ↔ service.hi < service.lo }
    ensures port_zero { IsErrOf result ServerError.PortZero ↔ (IsAtZero service × (service.lo ≤ service.hi)) }
    ensures only { IfErr result (λ e. (e ≡ ServerError.EmptyRange) ⊎ (e ≡ ServerError.PortZero)) }
{
    let mut builder = ServerBuilder::new(alloc);
    match service.mode {
        ListenerMode::Legacy => {}
        ListenerMode::Pooled => builder.pooled_listener_mode(),
        ListenerMode::Proxy { control_port } => builder.proxy_protocol_mode(control_port),
    }
    builder.passive_ports(service.lo, service.hi);
    match builder.build() {
        Ok(built) => Ok(built.options),
        Err(error) => Err(error),
    }
}

/// Listens at the address that the first word says. Everybody may log in, nobody is told but the feed of the journal, where there
/// is one, and no shutdown is asked for.
pub fn serve<R: ServerRuntime>(
    rt: &R,
    alloc: Global,
    words: &[String],
    service: Service,
    feed: Option<Arc<JournalFeed, Global>>,
) -> Result<(), ServerError> {
    let options = options(alloc, service)?;
    let Some(address) = words.first() else {
        return Err(ServerError::Address);
    };
    let (Ok(authenticator), Ok(data_listener), Ok(presence_listener), Ok(indicator)) = (
        Box::new(alloc, SameAnswer(AuthAnswer::Good)),
        Box::new(alloc, NopListener),
        Box::new(alloc, NopListener),
        Box::new(alloc, NeverAsks),
    ) else {
        return Err(ServerError::OutOfMemory);
    };
    let parts = Parts {
        authenticator,
        data_listener,
        presence_listener,
        indicator,
        storage: MemoryStorage::new(alloc, MAX_FILE, Vec::new(alloc)),
    };
    let mut server = Server::with_options(alloc, options, parts);
    if let Some(every) = service.every {
        server.checkpoint_every(every);
    }
    if let Some(feed) = feed {
        server.feed_journal(feed);
    }
    server.run_small_downloads();
    server.listen(rt, address.as_bytes())
}

/// Listens as `serve` does, and writes the printed log of what is decided.
pub fn serve_recorded<R: ServerRuntime, W: Write + Send>(
    rt: &R,
    alloc: Global,
    words: &[String],
    service: Service,
    out: &mut W,
) -> Result<(), ServerError> {
    let Ok(feed) = Arc::new(alloc, JournalFeed::new(alloc, MOST_WAITING)) else {
        return Err(ServerError::OutOfMemory);
    };
    let Ok(theirs) = Arc::try_clone(&feed) else {
        return Err(ServerError::OutOfMemory);
    };
    let journal = &*feed;
    let ((), ended) = thread::join(
        rt,
        move || record(rt, alloc, journal, service, out),
        move || {
            let ended = serve(rt, alloc, words, service, Some(theirs));
            journal.close(rt);
            ended
        },
    );
    ended
}
