//! Questions that a log answers by itself, without a running server.

ghost use Rattle.std.specs.Prelude.{◌≡◌, [], ◌∷◌, ◌++◌, false, map, filter_map, reverse, OnOk, IfOk, if◌then◌else◌};
ghost use Rattle.std.specs.Option.{option_map};
ghost use Rattle.ftp_base.specs.declared.net.IpAddr.TheVariants.{V4};
ghost use Rattle.ftp_events.specs.Words.{is_number};
ghost use Rattle.ftp_events.specs.Log.{past_of, is_refusal};
ghost use Rattle.ftp_events.specs.Opening.{opened_number, opening_by, opener};
ghost use Rattle.ftp_events.specs.Board.{target, comes_to, is_client, gives_hold, ends_hold, holder};
ghost use Rattle.ftp_events.specs.Right.{reply_to, replies};

use crate::action::Action;
use crate::decision::Decision;
use crate::entry::Entry;
use crate::event::{Answer, EventKind};
use crate::log::Log;
use crate::session::Opening;
use ftp_base::{IpAddr, Reply, SocketAddr};
use ftp_options::Options;
use std::alloc::{AllocError, Global};

/// The session that holds the port for the client of this IPv4 address, after the log.
///
/// Takes no memory, and looks an opening up once for each grant of the port.
///
/// # Proved
///
/// - Who holds a port for a client, from the log alone, what ends a hold, and where a data connection comes to; the
///   replies that a session was sent, the oldest first (also `ends_hold`; `target`; `replies_of`).
pub fn holder_of(options: &Options, log: &Log, source: u32, port: u16) -> Option<u64>
    ensures { result ≡ holder options.now (past_of log.now.entries) (V4 source) port }
{
    let entries = log.as_slice();
    let client = IpAddr::V4(source);
    let mut held = None;
    for (i, e) in entries.iter().enumerate() {
        held = holder_after(options, &entries[..i], e, client, port, held);
    }
    held
}

/// Copies of the replies that were sent to a session, the oldest first.
pub fn replies_of(alloc: Global, log: &Log, session: u64) -> Result<Vec<Reply>, AllocError>
    ensures { IfOk result (λ found. found.items ≡ map (λ x. x.1) (replies log.now.entries session)) }
{
    let mut found = Vec::new(alloc);
    for e in log.as_slice() {
        add_replies(alloc, e.actions.as_slice(), session, &mut found)?;
    }
    Ok(found)
}

// Adds copies of the replies among the actions that are sent to a session.
fn add_replies(
    alloc: Global,
    actions: &[Action],
    session: u64,
    found: &mut Vec<Reply>,
) -> Result<(), AllocError>
    ensures { OnOk result (found.new.items ≡ found.old.items ++ map (λ x. x.1) (filter_map (reply_to session) actions.now)) }
{
    for action in actions {
        add_reply(alloc, action, session, found)?;
    }
    Ok(())
}

// Adds a copy of the reply that the action sends to the session, if it does.
fn add_reply(
    alloc: Global,
    action: &Action,
    session: u64,
    found: &mut Vec<Reply>,
) -> Result<(), AllocError>
    ensures { OnOk result (found.new.items ≡ found.old.items ++ map (λ x. x.1) (filter_map (reply_to session) (action.now ∷ []))) }
{
    if let Action::Reply {
        session: to,
        reply,
        ..
    } = action
    {
        if *to == session {
            found.push(reply.copy(alloc)?)?;
        }
    }
    Ok(())
}

// The holder after an entry, from the holder before it.
fn holder_after(
    options: &Options,
    before: &[Entry],
    e: &Entry,
    client: IpAddr,
    port: u16,
    held: Option<u64>,
) -> Option<u64>
    requires { held ≡ holder options.now (past_of (reverse before.now)) client port }
    ensures { result ≡ holder options.now (past_of (e.now ∷ reverse before.now)) client port }
{
    if e.decision.is_refusal() {
        return held;
    }
    if gives_hold(options, before, e, client, port) {
        return e.event.kind.named_session();
    }
    if comes_to(options, e, client, port) {
        return None;
    }
    match held {
        Some(session) if ends_hold(e, session) => None,
        _ => held,
    }
}

// Says whether the entry gives the client a hold of the port.
fn gives_hold(options: &Options, before: &[Entry], e: &Entry, client: IpAddr, port: u16) -> bool
    ensures { result ≡ gives_hold options.now (past_of (reverse before.now)) e.now client port }
{
    match e.decision {
        Decision::Granted { port: granted } if !options.mode.is_legacy() => {
            granted == port && is_client(before, e.event.kind.named_session(), client)
        }
        _ => false,
    }
}

// Says whether the session's client has this address.
fn is_client(before: &[Entry], session: Option<u64>, client: IpAddr) -> bool
    ensures { result ≡ is_client (past_of (reverse before.now)) session client }
{
    let Some(session) = session else {
        return false;
    };
    match opener(before, session) {
        Some(opening) => opening.client.is_same(client),
        None => false,
    }
}

// How the session came.
fn opener(entries: &[Entry], session: u64) -> Option<Opening>
    ensures { result ≡ opener (past_of (reverse entries.now)) session }
{
    let mut i = entries.len();
    while i > 0 {
        i -= 1;
        let e = &entries[i];
        if opens(e, session) {
            return opening_by(&e.event.kind, e.answer);
        }
    }
    None
}

// Says whether the entry is no refusal and opens the session.
fn opens(e: &Entry, session: u64) -> bool
    ensures { result ≡ (if is_refusal e.now.decision then false else is_number (opened_number e.now.event.kind e.now.decision) session) }
{
    match e.decision {
        Decision::Opened => e.event.kind.new_number(e.decision) == Some(session),
        _ => false,
    }
}

// What a new control connection tells.
fn opening_by(kind: &EventKind, answer: Answer) -> Option<Opening>
    ensures { result ≡ opening_by kind.now answer }
{
    match (kind, answer) {
        (
            EventKind::Connect {
                raw,
                local,
                trace,
                ..
            },
            _,
        ) => Some(Opening {
            raw: *raw,
            local: *local,
            client: raw.ip,
            trace: *trace,
        }),
        (EventKind::Proxied { raw, trace, .. }, Answer::Header(Ok(line))) => Some(Opening {
            raw: *raw,
            local: line.destination,
            client: line.source.ip,
            trace: *trace,
        }),
        _ => None,
    }
}

// Says whether the entry is a data connection from the client to the port.
fn comes_to(options: &Options, e: &Entry, client: IpAddr, port: u16) -> bool
    ensures { result ≡ comes_to options.now e.now client port }
{
    match target(options, &e.event.kind, e.answer) {
        Some(to) => to.ip.is_same(client) && to.port == port,
        None => false,
    }
}

/// The client and the port of a data connection that the event brings.
pub fn target(options: &Options, kind: &EventKind, answer: Answer) -> Option<SocketAddr>
    ensures { option_map (λ a. record { client = a.ip; port = a.port }) result ≡ target options.now kind.now answer }
{
    match (kind, answer) {
        (EventKind::DataIn { raw, port, .. }, _) => Some(SocketAddr {
            ip: raw.ip,
            port: *port,
        }),
        (EventKind::Proxied { .. }, Answer::Header(Ok(line)))
            if !options.mode.is_control_port(line.destination.port) => Some(SocketAddr {
            ip: line.source.ip,
            port: line.destination.port,
        }),
        _ => None,
    }
}

/// Says whether the entry ends a hold of the session.
pub fn ends_hold(e: &Entry, session: u64) -> bool
    ensures { result ≡ ends_hold e.now session }
{
    e.decision.is_stop()
        || (e.event.kind.named_session() == Some(session) && e.decision.slot_move().gives_up())
}
