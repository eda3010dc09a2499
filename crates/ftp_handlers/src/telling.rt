//! What a message of the control layer tells, once or twice.

ghost use Rattle.std.specs.Prelude.{◌≡◌, Option, Some, None, IfOk, IfSome, IsNone, ◌↔◌, if◌then◌else◌};
ghost use Rattle.ftp_base.specs.declared.reply.Reply.TheVariants as reply;
ghost use Rattle.ftp_events.specs.Message.{is_for_control, notice_of, reply_of};
ghost use Rattle.ftp_handlers.specs.Handlers.{telling_for};

use ftp_base::{ControlChanMsg, DataEvent, Reply};
use ftp_events::{EventKind, reply_of};
use std::alloc::{AllocError, Global};
use std::marker::Model;

/// What a message tells: the reply to its client, and what listeners are told.
#[derive(Drop)]
pub struct Told {
    pub(crate) reply: Reply,
    pub(crate) notice: Option<DataEvent>,
}

// What a message tells, and its copy.
#[derive(Drop)]
struct Both {
    first: Told,
    // Equal to the first where it is told twice, and else nothing.
    second: Told,
}

/// What an event tells, once or twice; nothing where it is no message for the client.
#[derive(Drop)]
pub struct Telling {
    both: Option<Box<Both>>,
    twice: bool,
}

impl Model for Telling {
    ghost use Rattle.std.specs.Prelude.{◌≡◌, None, IfSome, if◌then◌else◌};
    ghost use Rattle.std.specs.Option.{option_map};
    ghost use Rattle.ftp_base.specs.declared.reply.Reply.TheVariants as reply;
    ghost use Rattle.ftp_handlers.specs.Copies.{TellingState};

    ghost Value = { TellingState };

    ghost view = { λ t. record { told = option_map (λ b. b.value.first) t.both; twice = t.twice } };

    ghost invariant = { λ t. IfSome t.both (λ b. b.value.second ≡ (if t.twice then b.value.first else record { reply = reply.None; notice = None })) };
}

impl Telling {
    /// Tells nothing.
    pub fn none(twice: bool) -> Telling
        ensures told { result.told ≡ None }
        ensures twice { result.twice ≡ twice }
    {
        Telling { both: None, twice }
    }

    // Takes memory for what a message tells.
    fn of(alloc: Global, message: &ControlChanMsg, twice: bool) -> Result<Telling, AllocError>
        ensures told { IfOk result (λ telling. telling.told ≡ Some (record { reply = reply_of message.now; notice = notice_of message.now })) }
        ensures twice { IfOk result (λ telling. telling.twice ≡ twice) }
    {
        let first = told_of(alloc, message)?;
        let second = if twice {
            told_of(alloc, message)?
        } else {
            nothing()
        };
        let both = Box::new(alloc, Both { first, second })?;
        Ok(Telling {
            both: Some(both),
            twice,
        })
    }

    /// Gives what is told, and its copy, which is nothing where it is told once.
    pub(crate) fn into_both(self) -> Option<(Told, Told)>
        ensures none { IsNone result ↔ (self.told ≡ None) }
        ensures first { IfSome result (λ both. self.told ≡ Some both.0) }
        ensures second { IfSome result (λ both. both.1 ≡ (if self.twice then both.0 else record { reply = reply.None; notice = None })) }
    {
        match self.both {
            None => None,
            Some(both) => {
                let Both { first, second } = Box::into_inner(both);
                Some((first, second))
            }
        }
    }
}

/// Takes memory for what an event tells: of a message that is the control layer's own, the reply and what listeners
/// are told.
pub fn copy_telling(alloc: Global, kind: &EventKind, twice: bool) -> Result<Telling, AllocError>
    ensures told { IfOk result (λ telling. telling.told ≡ telling_for kind.now) }
    ensures twice { IfOk result (λ telling. telling.twice ≡ twice) }
{
    match kind {
        EventKind::Internal { message, .. } if is_for_control(message) => Telling::of(
            alloc, message, twice,
        ),
        _ => Ok(Telling::none(twice)),
    }
}

// Nothing is told.
fn nothing() -> Told
    ensures { result ≡ record { reply = reply.None; notice = None } }
{
    Told {
        reply: Reply::None,
        notice: None,
    }
}

// What a message tells.
fn told_of(alloc: Global, message: &ControlChanMsg) -> Result<Told, AllocError>
    ensures { IfOk result (λ told. told ≡ record { reply = reply_of message.now; notice = notice_of message.now }) }
{
    let reply = reply_of(alloc, message)?;
    let notice = notice_of(alloc, message)?;
    Ok(Told { reply, notice })
}

// What a message notifies.
fn notice_of(alloc: Global, message: &ControlChanMsg) -> Result<Option<DataEvent>, AllocError>
    ensures { IfOk result (λ notice. notice ≡ notice_of message.now) }
{
    let notice = match message {
        ControlChanMsg::SentData { path, bytes } => DataEvent::Got {
            path: path.copy(alloc)?,
            bytes: *bytes,
        },
        ControlChanMsg::WrittenData { path, bytes } => DataEvent::Put {
            path: path.copy(alloc)?,
            bytes: *bytes,
        },
        ControlChanMsg::DelFileSuccess { path } => DataEvent::Deleted {
            path: path.copy(alloc)?,
        },
        ControlChanMsg::RmDirSuccess { path } => DataEvent::RemovedDir {
            path: path.copy(alloc)?,
        },
        ControlChanMsg::RenameSuccess { old_path, new_path } => DataEvent::Renamed {
            from: old_path.copy(alloc)?,
            to: new_path.copy(alloc)?,
        },
        ControlChanMsg::MkDirSuccess { path } => DataEvent::MadeDir {
            path: path.copy(alloc)?,
        },
        _ => return Ok(None),
    };
    Ok(Some(notice))
}

// Says whether a message is one that the control layer itself has for a client.
fn is_for_control(message: &ControlChanMsg) -> bool
    ensures { result ≡ is_for_control message.now }
{
    matches!(
        message,
        ControlChanMsg::PermissionDenied
            | ControlChanMsg::NotFound
            | ControlChanMsg::DelFileSuccess { .. }
            | ControlChanMsg::RmDirSuccess { .. }
            | ControlChanMsg::RenameSuccess { .. }
            | ControlChanMsg::DelFail
            | ControlChanMsg::MkDirSuccess { .. }
            | ControlChanMsg::MkdirFail
            | ControlChanMsg::CommandChannelReply(_)
            | ControlChanMsg::StorageError(_)
    )
}
