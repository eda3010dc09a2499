//! The life of a server: it accepts connections until a shutdown is asked for, and is then drained.

ghost use Rattle.std.specs.Prelude.{◌≡◌, ◌≢◌, ◌≤◌, ◌<◌, ◌+◌, ◌⊎◌, None, Some, IfErr, IsErrOf, IsSome};
ghost use Rattle.ftp_listen.specs.Causes.{HasServed};

use crate::acceptor::Acceptor;
use crate::listening::{AcceptPoll, ListeningSockets};
use crate::parts::ServerParts;
use crate::spawning::spawn_worker;
use ftp_base::Spawner;
use ftp_options::{Indicator, Options, ServerError, Shutdown};
use ftp_shared::{CutHub, JournalHub, Serving, SharedHub};
use ftp_system::{Depot, Doors, Front, ServerRuntime};
use ftp_workers::{
    AcceptorHandle, DeskOf, ServerDesk, ServerState, Services, SharedServices, StateOf,
};
use std::alloc::{AllocError, Global};
use std::sync::Arc;
use std::sync::ledger::Blank;

/// How many parts a book of steps has: more than there are ever threads.
pub(crate) const PARTS: u64 = 1 << 48;

/// How long one wait for connections is, in milliseconds.
const TURN: u64 = 100;

/// How long one wait is while the server is drained, in milliseconds.
const DRAINING_TURN: u64 = 10;

/// A server to which nothing has happened.
pub(crate) fn new_state<H: JournalHub + Drop, S: Services>(
    alloc: Global,
    options: Options,
    hub: H,
    server_parts: ServerParts<S>,
    acceptor: AcceptorHandle,
) -> Result<Arc<StateOf<H, S>, Global>, AllocError>
    requires options { options ≡ H.options }
{
    let ServerParts {
        authenticator,
        sinks,
        depot,
        gate,
        limits,
        feed,
        runs_small,
    } = server_parts;
    let mut state = ServerState::new(
        alloc,
        options,
        limits,
        hub,
        authenticator,
        sinks,
        depot,
        gate,
        acceptor,
    )?;
    if let Some(feed) = feed {
        state.feed_to(feed);
    }
    if runs_small {
        state.run_small_downloads();
    }
    match Arc::new(alloc, state) {
        Ok(state) => Ok(state),
        Err(_) => Err(AllocError),
    }
}

/// A desk over a server. None where no pass is left, or memory ran out.
pub(crate) fn desk_over<R: ServerRuntime, H: JournalHub + Drop, S: Services>(
    rt: &R,
    state: &Arc<StateOf<H, S>, Global>,
) -> Option<DeskOf<R, H, S>> {
    let pass = state.share(rt)?;
    let theirs = Arc::try_clone(state).ok()?;
    Some(ServerDesk::new(*rt, theirs, pass))
}

// Accepts connections until a shutdown is asked for. It gives the moment of asking, which is the front's latest.
fn accept_until_shutdown<
    R: ServerRuntime,
    H: JournalHub + Send + Sync + Drop + 'static,
    S: SharedServices,
    P: Spawner,
    F: Front,
    I: Indicator,
>(
    rt: &R,
    acceptor: &mut Acceptor<R, H, S>,
    poll: &mut AcceptPoll,
    sockets: &ListeningSockets,
    spawner: &mut P,
    front: &mut F,
    indicator: &mut I,
) -> (u64, Shutdown)
where
    H::Pass: Send + 'static,
    <S::Depot as Depot>::Store: Send + 'static,
    <S::Depot as Depot>::Words: Send + 'static,
    ensures asked { I.asked indicator.old ≡ None → I.asked indicator.new ≡ Some (result.0, result.1.grace_ms) }
    ensures has_asked { IsSome (I.asked indicator.new) }
    ensures spawner { P.faults spawner.old ≤ P.faults spawner.new }
    ensures front { F.faults front.old ≤ F.faults front.new }
{
    for _ in rt.forever() {
        acceptor.wait(poll, TURN);
        let at = front.now();
        acceptor.accept_ready(poll, sockets, at);
        acceptor.spawn_wanted(spawner);
        acceptor.run_timers(at);
        if let Some(shutdown) = indicator.poll(at) {
            return (at, shutdown);
        }
    }
    unreachable!()
}

// Has each session end once none of its transfers runs or waits for its data connection, and takes such connections in meanwhile, but
// not beyond the grace period of a shutdown that was asked for at this moment; then ends what is left.
fn drain<
    R: ServerRuntime,
    H: JournalHub + Send + Sync + Drop + 'static,
    S: SharedServices,
    P: Spawner,
    F: Front,
>(
    rt: &R,
    acceptor: &mut Acceptor<R, H, S>,
    poll: &mut AcceptPoll,
    sockets: &ListeningSockets,
    spawner: &mut P,
    front: &mut F,
    asked: (u64, Shutdown),
) -> Result<(), ServerError>
where
    H::Pass: Send + 'static,
    <S::Depot as Depot>::Store: Send + 'static,
    <S::Depot as Depot>::Words: Send + 'static,
    ensures shutdown { IsErrOf result ServerError.Shutdown → asked.0 + asked.1.grace_ms < F.latest front.new }
    ensures only { IfErr result (λ e. e ≡ ServerError.Shutdown) }
    ensures spawner { P.faults spawner.old ≤ P.faults spawner.new }
    ensures front { F.faults front.old ≤ F.faults front.new }
{
    let (asked_at, shutdown) = asked;
    let mut is_stopped = false;
    acceptor.begin_stop();
    for _ in rt.forever() {
        let now = front.now();
        let is_late = now.saturating_sub(asked_at) > shutdown.grace_ms;
        if !is_stopped && (is_late || acceptor.is_left()) {
            is_stopped = acceptor.stop(now);
        }
        if is_stopped && acceptor.is_drained() {
            return Ok(());
        }
        if is_late {
            return Err(ServerError::Shutdown);
        }
        acceptor.wait(poll, DRAINING_TURN);
        acceptor.accept_ready(poll, sockets, now);
        acceptor.spawn_wanted(spawner);
        acceptor.run_timers(now);
    }
    unreachable!()
}

/// Serves at these sockets until a shutdown was asked for and is over: over a hub that keeps its whole journal, or where it is
/// told of how many entries at most over one with a checkpoint and a tail.
pub(crate) fn run_server<
    L: Serving + Send + Sync + 'static,
    R: ServerRuntime,
    S: SharedServices,
    P: Spawner,
    F: Front,
    I: Indicator,
>(
    rt: &R,
    alloc: Global,
    options: Options,
    every: Option<u64>,
    blank: Blank,
    server_parts: ServerParts<S>,
    doors: Doors,
    spawner: &mut P,
    front: &mut F,
    indicator: &mut I,
) -> Result<(), ServerError>
where
    <S::Depot as Depot>::Store: Send + 'static,
    <S::Depot as Depot>::Words: Send + 'static,
    requires name { blank.name ≡ L.name }
    requires parts { blank.parts ≡ L.parts }
    requires all { blank.parts ≡ PARTS }
    requires options { options ≡ L.options }
    requires some { every ≢ Some 0 }
    ensures run { HasServed result (I.asked indicator.old) (I.asked indicator.new) (F.latest front.new) (P.faults spawner.old) (P.faults spawner.new) }
    ensures only { IfErr result (λ e. (e ≡ ServerError.Listener) ⊎ ((e ≡ ServerError.Shutdown) ⊎ (e ≡ ServerError.OutOfMemory))) }
    ensures front { F.faults front.old ≤ F.faults front.new }
{
    let Ok(told) = options.copy(alloc) else {
        return Err(ServerError::OutOfMemory);
    };
    match every {
        Some(every) => run_over::<R, CutHub<L>, S, P, F, I>(
            rt,
            alloc,
            told,
            CutHub::<L>::new(alloc, options, every),
            server_parts,
            doors,
            spawner,
            front,
            indicator,
        ),
        None => {
            let (steps, parts) = blank.open::<L>();
            run_over::<R, SharedHub<L>, S, P, F, I>(
                rt,
                alloc,
                told,
                SharedHub::new(alloc, options, steps, parts, PARTS),
                server_parts,
                doors,
                spawner,
                front,
                indicator,
            )
        }
    }
}

// Serves at these sockets over a hub.
fn run_over<
    R: ServerRuntime,
    H: JournalHub + Send + Sync + Drop + 'static,
    S: SharedServices,
    P: Spawner,
    F: Front,
    I: Indicator,
>(
    rt: &R,
    alloc: Global,
    options: Options,
    hub: H,
    server_parts: ServerParts<S>,
    doors: Doors,
    spawner: &mut P,
    front: &mut F,
    indicator: &mut I,
) -> Result<(), ServerError>
where
    H::Pass: Send + 'static,
    <S::Depot as Depot>::Store: Send + 'static,
    <S::Depot as Depot>::Words: Send + 'static,
    requires options { options ≡ H.options }
    ensures run { HasServed result (I.asked indicator.old) (I.asked indicator.new) (F.latest front.new) (P.faults spawner.old) (P.faults spawner.new) }
    ensures only { IfErr result (λ e. (e ≡ ServerError.Listener) ⊎ ((e ≡ ServerError.Shutdown) ⊎ (e ≡ ServerError.OutOfMemory))) }
    ensures front { F.faults front.old ≤ F.faults front.new }
{
    let is_behind_proxy = options.mode.is_proxy();
    let Ok((poll, sockets, acceptor)) = AcceptPoll::over(rt, alloc, doors) else {
        return Err(ServerError::OutOfMemory);
    };
    let Ok(state) = new_state::<H, S>(alloc, options, hub, server_parts, acceptor) else {
        return Err(ServerError::OutOfMemory);
    };
    let Some(desk) = desk_over::<R, H, S>(rt, &state) else {
        return Err(ServerError::OutOfMemory);
    };
    if !spawn_worker::<R, H, S, P>(rt, &state, spawner) {
        return Err(ServerError::Listener);
    }
    let mut poll = poll;
    let mut acceptor = Acceptor::<R, H, S>::new(
        *rt,
        alloc,
        state,
        desk,
        is_behind_proxy,
        front.now(),
    );
    let asked = accept_until_shutdown(
        rt,
        &mut acceptor,
        &mut poll,
        &sockets,
        spawner,
        front,
        indicator,
    );
    let mut sockets = sockets;
    // A proxy passes data connections on to the control port too.
    if !is_behind_proxy {
        sockets.close_control();
    }
    let ended = drain(
        rt,
        &mut acceptor,
        &mut poll,
        &sockets,
        spawner,
        front,
        asked,
    );
    drop(sockets);
    acceptor.close();
    ended
}
