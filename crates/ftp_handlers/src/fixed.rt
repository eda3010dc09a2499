//! What an event keeps or tells, and what a 150 fixes of a transfer: who asks, what, and from where.

ghost use Rattle.std.specs.Prelude.{◌≡◌, ◌<◌, [], Option, IfOk, unwrap_or, codes};
ghost use Rattle.ftp_events.specs.Login.{logged_user};
ghost use Rattle.ftp_events.specs.Transfer.{command_offset, command_path, pending_of};
ghost use Rattle.ftp_handlers.specs.Handlers.{asked_for, kept_alone, kept_by, next_ticket};

use ftp_base::{Bytes, DataChanCmd};
use ftp_events::{EventKind, Login, Pending, Session, command_path, unique_name};
use ftp_transfer::{Ticket, join_path};
use std::alloc::{AllocError, Global};

// Who is told of where nobody has said a name.
const UNKNOWN: &[u8] = b"unknown";

/// The name or the path that an event keeps or tells of a session.
///
/// # Proved
///
/// - The name, the path and the transfer that an event keeps or asks for, of its session as it stands (also
///   `copy_alone`; `fix_transfer`).
pub fn copy_kept(alloc: Global, kind: &EventKind, session: &Session) -> Result<Bytes, AllocError>
    ensures { IfOk result (λ kept. kept ≡ kept_by kind.now session.now) }
{
    match kind {
        EventKind::User { name, .. } => name.copy(alloc),
        EventKind::AuthDone { .. } => known_name(alloc, session),
        EventKind::Closed { .. }
        | EventKind::Quit { .. }
        | EventKind::End { .. }
        | EventKind::Piece { .. }
        | EventKind::Internal { .. }
        | EventKind::IdleTick { .. } => copy_user(alloc, session),
        EventKind::Cwd { path, .. } => join_path(alloc, &session.cwd, path),
        EventKind::Connect { .. }
        | EventKind::Proxied { .. }
        | EventKind::DataIn { .. }
        | EventKind::Accepted { .. }
        | EventKind::Pass { .. }
        | EventKind::Pasv { .. }
        | EventKind::Port { .. }
        | EventKind::Transfer { .. }
        | EventKind::Stou { .. }
        | EventKind::Rest { .. }
        | EventKind::Abor { .. }
        | EventKind::SlotTick { .. }
        | EventKind::Sweep
        | EventKind::Scavenge
        | EventKind::Shutdown => copy_alone(alloc, kind),
    }
}

/// What an event keeps whatever its session is: a new session, or one that may come of it, is in the root, and STOU
/// has a unique name.
pub fn copy_alone(alloc: Global, kind: &EventKind) -> Result<Bytes, AllocError>
    ensures { IfOk result (λ kept. kept ≡ kept_alone kind.now) }
{
    match kind {
        EventKind::Connect { .. } | EventKind::Proxied { .. } => { Bytes::from_slice(alloc, b"/") }
        EventKind::Stou { word, .. } => unique_name(alloc, *word),
        _ => Ok(Bytes::from_vec(Vec::new(alloc))),
    }
}

/// Who is logged in, or `unknown`.
pub fn copy_user(alloc: Global, session: &Session) -> Result<Bytes, AllocError>
    ensures { IfOk result (λ user. user ≡ logged_user session.now.login session.now.name) }
{
    match session.login {
        Login::LoggedIn => known_name(alloc, session),
        Login::New | Login::Named | Login::Checking => Bytes::from_slice(alloc, UNKNOWN),
    }
}

/// The transfer that an event asks for, as it is fixed now: STOU stores under the name that is kept.
#[inline(never)]
pub fn fix_transfer(
    alloc: Global,
    kind: &EventKind,
    kept: &Bytes,
    session: &Session,
) -> Result<Option<Pending>, AllocError>
    requires { kept.now ≡ kept_by kind.now session.now }
    ensures { IfOk result (λ pending. pending ≡ asked_for kind.now session.now) }
{
    match kind {
        EventKind::Transfer {
            session: number,
            command,
        } => {
            let command = command.copy(alloc)?;
            Ok(Some(pending_of(alloc, *number, command, session)?))
        }
        EventKind::Stou {
            session: number,
            ..
        } => {
            let path = kept.copy(alloc)?;
            let command = DataChanCmd::Stor { path };
            Ok(Some(pending_of(alloc, *number, command, session)?))
        }
        _ => Ok(None),
    }
}

// A transfer under the next ticket of the session, with the session's user, directory and offset.
fn pending_of(
    alloc: Global,
    number: u64,
    command: DataChanCmd,
    session: &Session,
) -> Result<Pending, AllocError>
    ensures { IfOk result (λ pending. pending ≡ pending_of (next_ticket number session.now) (logged_user session.now.login session.now.name) session.now.cwd session.now.offset command) }
{
    let user = copy_user(alloc, session)?;
    let path = command_path(alloc, &session.cwd, &command)?;
    let offset = command_offset(session.offset, &command);
    Ok(Pending {
        ticket: Ticket {
            session: number,
            nr: session.tickets.saturating_add(1),
        },
        user,
        command,
        path,
        offset,
    })
}

// The offset of a command: RETR and STOR begin at the session's.
fn command_offset(offset: u64, command: &DataChanCmd) -> u64
    ensures { result ≡ command_offset offset command.now }
{
    match command {
        DataChanCmd::Retr { .. } | DataChanCmd::Stor { .. } => offset,
        _ => 0,
    }
}

// The name that was given last, or `unknown`.
fn known_name(alloc: Global, session: &Session) -> Result<Bytes, AllocError>
    ensures { IfOk result (λ name. name ≡ unwrap_or session.now.name (codes "unknown")) }
{
    match &session.name {
        Some(name) => name.copy(alloc),
        None => Bytes::from_slice(alloc, UNKNOWN),
    }
}
