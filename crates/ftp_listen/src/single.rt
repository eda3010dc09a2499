//! One control connection by itself.

ghost use Rattle.std.specs.Prelude.{◌≡◌, ◌≢◌, ◌⊎◌, true, Some, IfErr};
ghost use Rattle.ftp_options.specs.Builder.{settings_of};
ghost use Rattle.ftp_options.specs.Modes.{is_legacy};

use crate::listening::AcceptPoll;
use crate::parts::{BoxedServices, ServerParts};
use crate::running::{PARTS, desk_over, new_state};
use crate::spawning::spawn_wanted;
use ftp_options::{ListenerMode, Options, ServerError};
use ftp_shared::{CutHub, JournalHub, Serving, SharedHub};
use ftp_system::{Depot, Front, OpenGate, ServerRuntime, SystemFront, SystemThreads};
use ftp_talk::ServeEnd;
use ftp_workers::{DeskOf, Services, SharedServices, StateOf, Worker};
use std::alloc::Global;
use std::marker::Brand;
use std::net::{SocketAddr, TcpStream};
use std::sync::Arc;
use std::sync::atomic::{AtomicBool, Ordering};
use std::sync::ledger::Blank;
use std::thread;
use std::time::Duration;

/// How long one wait for a thread that is wanted is, in milliseconds.
const TURN: u64 = 100;

/// The same options in legacy mode.
fn in_legacy_mode(options: Options) -> Options
    ensures legacy { is_legacy result.mode ≡ true }
    ensures others { settings_of result ≡ record (settings_of options) { mode = result.mode } }
{
    Options {
        mode: ListenerMode::Legacy,
        lo: options.lo,
        hi: options.hi,
        host: options.host,
        active_passive: options.active_passive,
        idle_ms: options.idle_ms,
        lockout: options.lockout,
        features: options.features,
        site_md5: options.site_md5,
        tls_flags: options.tls_flags,
        collect_metrics: options.collect_metrics,
        greeting: options.greeting,
    }
}

// Serves a connection that came from there to its end.
fn served<R: ServerRuntime, H: JournalHub + Drop, S: Services>(
    rt: &R,
    state: Arc<StateOf<H, S>, Global>,
    pass: H::Pass,
    stream: TcpStream,
    raw: SocketAddr,
) -> Result<(), ServerError>
    ensures only { IfErr result (λ e. (e ≡ ServerError.Io) ⊎ (e ≡ ServerError.OutOfMemory)) }
{
    let Ok(worker) = Worker::<R, H, S>::new(*rt, state, pass) else {
        return Err(ServerError::OutOfMemory);
    };
    let mut worker = worker;
    let end = worker.serve(stream, raw);
    worker.leave();
    match end {
        Some(ServeEnd::Ended | ServeEnd::Refused(_)) => Ok(()),
        Some(ServeEnd::ReadFault | ServeEnd::WriteFault) => Err(ServerError::Io),
        Some(ServeEnd::OutOfMemory | ServeEnd::Exhausted) | None => Err(ServerError::OutOfMemory),
    }
}

// Starts the threads that are wanted and takes data connections in, until the connection is over and all transfers are.
fn spawn_on<R: ServerRuntime, H: JournalHub + Send + Sync + Drop + 'static, S: SharedServices>(
    rt: &R,
    alloc: Global,
    state: &Arc<StateOf<H, S>, Global>,
    desk: DeskOf<R, H, S>,
    poll: &mut AcceptPoll,
    is_over: &AtomicBool,
)
where
    H::Pass: Send + 'static,
    <S::Depot as Depot>::Store: Send + 'static,
    <S::Depot as Depot>::Words: Send + 'static,
{
    let mut desk = desk;
    let mut front = SystemFront::new(*rt, alloc);
    let mut threads = SystemThreads::new();
    let mut owed = 0;
    for _ in rt.forever() {
        owed = spawn_wanted::<R, H, S, _>(rt, state, &mut threads, owed);
        if is_over.load(Ordering::SeqCst) && state.drained(rt) {
            return;
        }
        if poll.wait(TURN).is_err() {
            thread::sleep(rt, Duration::from_millis(TURN));
        }
        let at = front.now();
        for event in poll.events().iter() {
            if let Some(session) = event.token().0.checked_sub(1) {
                desk.accept_for(at, session as u64);
            }
        }
        desk.close_listeners(at);
    }
}

// Serves a connection with a hub of its own, which keeps its whole journal or a checkpoint and a tail.
fn serve_inside<L: Serving + Send + Sync + 'static, R: ServerRuntime, S: SharedServices>(
    rt: &R,
    alloc: Global,
    options: Options,
    every: Option<u64>,
    blank: Blank,
    server_parts: ServerParts<S>,
    stream: TcpStream,
    raw: SocketAddr,
) -> Result<(), ServerError>
where
    <S::Depot as Depot>::Store: Send + 'static,
    <S::Depot as Depot>::Words: Send + 'static,
    requires name { blank.name ≡ L.name }
    requires parts { blank.parts ≡ L.parts }
    requires all { blank.parts ≡ PARTS }
    requires options { options ≡ L.options }
    requires some { every ≢ Some 0 }
    ensures only { IfErr result (λ e. (e ≡ ServerError.Io) ⊎ (e ≡ ServerError.OutOfMemory)) }
{
    let Ok(told) = options.copy(alloc) else {
        return Err(ServerError::OutOfMemory);
    };
    match every {
        Some(every) => {
            let hub = CutHub::<L>::new(alloc, options, every);
            serve_over(rt, alloc, told, hub, server_parts, stream, raw)
        }
        None => {
            let (steps, parts) = blank.open::<L>();
            let hub = SharedHub::new(alloc, options, steps, parts, PARTS);
            serve_over(rt, alloc, told, hub, server_parts, stream, raw)
        }
    }
}

// Serves a connection over a hub of its own.
fn serve_over<R: ServerRuntime, H: JournalHub + Send + Sync + Drop + 'static, S: SharedServices>(
    rt: &R,
    alloc: Global,
    options: Options,
    hub: H,
    server_parts: ServerParts<S>,
    stream: TcpStream,
    raw: SocketAddr,
) -> Result<(), ServerError>
where
    H::Pass: Send + 'static,
    <S::Depot as Depot>::Store: Send + 'static,
    <S::Depot as Depot>::Words: Send + 'static,
    requires options { options ≡ H.options }
    ensures only { IfErr result (λ e. (e ≡ ServerError.Io) ⊎ (e ≡ ServerError.OutOfMemory)) }
{
    let Ok((poll, acceptor)) = AcceptPoll::inside(rt, alloc) else {
        return Err(ServerError::OutOfMemory);
    };
    let Ok(waker) = Arc::try_clone(&acceptor.waker) else {
        return Err(ServerError::OutOfMemory);
    };
    let Ok(state) = new_state::<H, S>(alloc, options, hub, server_parts, acceptor) else {
        return Err(ServerError::OutOfMemory);
    };
    let (Some(pass), Ok(theirs)) = (state.share(rt), Arc::try_clone(&state)) else {
        return Err(ServerError::OutOfMemory);
    };
    let Some(desk) = desk_over::<R, H, S>(rt, &state) else {
        return Err(ServerError::OutOfMemory);
    };
    let mut poll = poll;
    let over = AtomicBool::new(false);
    let is_over = &over;
    let bell = &*waker;
    let (end, ()) = thread::join(
        rt,
        move || {
            let end = served::<R, H, S>(rt, theirs, pass, stream, raw);
            is_over.store(true, Ordering::SeqCst);
            let _ = bell.wake();
            end
        },
        || spawn_on::<R, H, S>(rt, alloc, &state, desk, &mut poll, is_over),
    );
    state.close(rt);
    end
}

/// Serves one control connection to its end, in legacy mode.
pub(crate) fn serve_one<R: ServerRuntime, D: Depot + Send + Sync + Drop + 'static>(
    rt: &R,
    alloc: Global,
    options: Options,
    every: Option<u64>,
    server_parts: ServerParts<BoxedServices<D, OpenGate>>,
    stream: TcpStream,
) -> Result<(), ServerError>
where
    D::Store: Send + 'static,
    D::Words: Send + 'static,
    requires some { every ≢ Some 0 }
    ensures only { IfErr result (λ e. (e ≡ ServerError.Io) ⊎ (e ≡ ServerError.OutOfMemory)) }
{
    // If the peer has gone, nothing is served.
    let Ok(raw) = stream.peer_addr() else {
        return Ok(());
    };
    let options = in_legacy_mode(options);
    serve_inside::<Brand, R, BoxedServices<D, OpenGate>>(
        rt,
        alloc,
        options,
        every,
        Blank::new(PARTS),
        server_parts,
        stream,
        raw,
    )
}
