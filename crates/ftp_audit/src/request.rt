//! What is known of a transfer until it is settled.

ghost use Rattle.std.specs.Prelude.{◌≡◌, ◌∷◌, [], ℕ, Some, None, nat_eq, OnOk, OnErr, IfOk, if◌then◌else◌};
ghost use Rattle.std.specs.HashMap as map;
ghost use Rattle.std.specs.Option.{option_and_then, option_copied, option_map};
ghost use Rattle.ftp_transfer.specs.declared.job.Ticket.{Ticket};
ghost use Rattle.ftp_events.specs.declared.decision.Decision.TheVariants.{Queued};
ghost use Rattle.ftp_events.specs.Log.{job_ticket};
ghost use Rattle.ftp_events.specs.Login.{logged_user};
ghost use Rattle.ftp_events.specs.Slot.{asked_command, queued_by};
ghost use Rattle.ftp_events.specs.Statuses.{word_of};
ghost use Rattle.ftp_events.specs.Transfer.{command_path, same_ticket};
ghost use Rattle.ftp_laws.specs.Pieces.{moved_by};
ghost use Rattle.ftp_audit.specs.Requests.{begun_at, more_moved, request_acted, request_of, with_more};
ghost use Rattle.ftp_audit.specs.Tickets.{request_at};

use crate::guest::Guest;
use ftp_base::{Bytes, IpAddr};
use ftp_events::{
    Action, Answer, CommandWord, Decision, Entry, EventKind, Login, command_path, unique_name,
};
use ftp_transfer::{Ticket, join_path};
use std::alloc::{AllocError, Global};
use std::collections::HashMap;

/// Who asked for a transfer, from where, what it is, when it started, and how many bytes its pieces have moved.
#[derive(Drop)]
pub struct Request {
    pub client: IpAddr,
    pub user: Bytes,
    pub word: CommandWord,
    pub path: Bytes,
    pub started: Option<u64>,
    pub moved: u64,
}

/// Transfers by session and number.
pub(crate) type Requests = HashMap<(u64, u64), Request>;

/// The transfer of a ticket, where there is one.
pub(crate) fn find(requests: &Requests, ticket: Ticket) -> Option<&Request>
    ensures { option_copied result ≡ request_at requests.now ticket }
{
    requests.get(&(ticket.session, ticket.nr))
}

// Puts a transfer into the table.
fn put(requests: &mut Requests, ticket: Ticket, request: Request) -> Result<(), AllocError>
    ensures updates { OnOk result ((t : Ticket) → request_at requests.new t ≡ (if same_ticket ticket t then Some request else request_at requests.old t)) }
    ensures unchanged { OnErr result ((t : Ticket) → request_at requests.new t ≡ request_at requests.old t) }
{
    requests.insert((ticket.session, ticket.nr), request)?;
    Ok(())
}

// Takes a transfer out of the table.
fn drop_one(requests: &mut Requests, ticket: Ticket)
    ensures { (t : Ticket) → request_at requests.new t ≡ (if same_ticket ticket t then None else request_at requests.old t) }
{
    requests.remove(&(ticket.session, ticket.nr));
}

// So many bytes more, up to the last of their type.
fn more_moved(moved: u64, bytes: u64) -> u64
    ensures { result ≡ more_moved moved bytes }
{
    moved.saturating_add(bytes)
}

// Counts the bytes of a piece.
fn add_moved(requests: &mut Requests, ticket: Ticket, bytes: u64)
    ensures { (t : Ticket) → request_at requests.new t ≡ (if same_ticket ticket t then option_map (with_more bytes) (request_at requests.old t) else request_at requests.old t) }
{
    if let Some(request) = requests.get_mut(&(ticket.session, ticket.nr)) {
        request.moved = more_moved(request.moved, bytes);
    }
}

// The transfer starts.
fn start(requests: &mut Requests, ticket: Ticket, at: u64)
    ensures { (t : Ticket) → request_at requests.new t ≡ (if same_ticket ticket t then option_map (begun_at at) (request_at requests.old t) else request_at requests.old t) }
{
    if let Some(request) = requests.get_mut(&(ticket.session, ticket.nr)) {
        request.started = Some(at);
    }
}

// Who is logged in, for listeners and storages.
fn logged_user(alloc: Global, guest: &Guest) -> Result<Bytes, AllocError>
    ensures { IfOk result (λ user. user ≡ logged_user guest.now.login guest.now.name) }
{
    match (guest.login, &guest.name) {
        (Login::LoggedIn, Some(name)) => name.copy(alloc),
        _ => Bytes::from_slice(alloc, b"unknown"),
    }
}

// The word and the path of the command that an event asks for: STOU stores under a unique name.
fn asked(
    alloc: Global,
    cwd: &Bytes,
    kind: &EventKind,
) -> Result<Option<(CommandWord, Bytes)>, AllocError>
    ensures { IfOk result (λ found. found ≡ option_map (λ c. (word_of c, command_path cwd.now c)) (asked_command kind.now)) }
{
    match kind {
        EventKind::Transfer { command, .. } => {
            let path = command_path(alloc, cwd, command)?;
            Ok(Some((CommandWord::of(command), path)))
        }
        EventKind::Stou { word, .. } => {
            let name = unique_name(alloc, *word)?;
            let path = join_path(alloc, cwd, &name)?;
            Ok(Some((CommandWord::Stor, path)))
        }
        _ => Ok(None),
    }
}

// The transfer that an event queues for a session.
fn queued(alloc: Global, guest: &Guest, kind: &EventKind) -> Result<Option<Request>, AllocError>
    ensures { (ticket : Ticket) → IfOk result (λ request. request ≡ option_map (request_of guest.now.client) (queued_by (Queued ticket) kind.now (logged_user guest.now.login guest.now.name) guest.now.cwd 0)) }
{
    let Some((word, path)) = asked(alloc, &guest.cwd, kind)? else {
        return Ok(None);
    };
    let user = logged_user(alloc, guest)?;
    Ok(Some(Request {
        client: guest.client,
        user,
        word,
        path,
        started: None,
        moved: 0,
    }))
}

// The ticket of the job that an event tells of.
fn job_ticket(kind: &EventKind) -> Option<Ticket>
    ensures { result ≡ job_ticket kind.now }
{
    match kind {
        EventKind::End { ticket } | EventKind::Piece { ticket } => Some(*ticket),
        _ => None,
    }
}

/// Queues a transfer for a session, with what is known of that.
pub(crate) fn ask(
    requests: &mut Requests,
    alloc: Global,
    guests: &HashMap<u64, Guest>,
    kind: &EventKind,
    ticket: Ticket,
) -> Result<(), AllocError>
    ensures asked { OnOk result ((t : Ticket) → request_at requests.new t ≡ (if same_ticket ticket t then option_and_then (λ g. option_map (request_of g.client) (queued_by (Queued ticket) kind.now (logged_user g.login g.name) g.cwd 0)) (map.get nat_eq guests.now ticket.session) else request_at requests.old t)) }
    ensures unchanged { OnErr result ((t : Ticket) → request_at requests.new t ≡ request_at requests.old t) }
{
    let Some(guest) = guests.get(&ticket.session) else {
        drop_one(requests, ticket);
        return Ok(());
    };
    let Some(request) = queued(alloc, guest, kind)? else {
        drop_one(requests, ticket);
        return Ok(());
    };
    put(requests, ticket, request)
}

// Counts the bytes of the piece that an entry may tell.
fn count_piece(requests: &mut Requests, entry: &Entry)
    ensures { (t : Ticket) → request_at requests.new t ≡ option_map (with_more (moved_by t entry.now)) (request_at requests.old t) }
{
    if let (Decision::Moved, Answer::Moved { bytes }) = (entry.decision, entry.answer) {
        if let Some(ticket) = job_ticket(&entry.event.kind) {
            add_moved(requests, ticket, bytes);
        }
    }
}

// What an action makes of the transfers.
fn act(requests: &mut Requests, at: u64, action: &Action)
    ensures { (t : Ticket) → request_at requests.new t ≡ request_acted at (action.now ∷ []) t (request_at requests.old t) }
{
    match action {
        Action::Start { ticket, .. } => start(requests, *ticket, at),
        Action::Completed { ticket, .. } | Action::Cancelled { ticket } => {
            drop_one(requests, *ticket);
        }
        _ => {}
    }
}

/// Takes the next entry: its piece, and what it starts and settles.
pub(crate) fn hear(requests: &mut Requests, entry: &Entry)
    ensures { (t : Ticket) → request_at requests.new t ≡ request_acted entry.now.event.at entry.now.actions t (option_map (with_more (moved_by t entry.now)) (request_at requests.old t)) }
{
    count_piece(requests, entry);
    act_all(requests, entry.event.at, entry.actions.as_slice());
}

// What actions make of the transfers, the first one first.
fn act_all(requests: &mut Requests, at: u64, actions: &[Action])
    ensures { (t : Ticket) → request_at requests.new t ≡ request_acted at actions.now t (request_at requests.old t) }
{
    for action in actions {
        act(requests, at, action);
    }
}
