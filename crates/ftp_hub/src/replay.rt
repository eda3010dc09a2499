//! The part of a log that belongs to one client, run again.

ghost use Rattle.std.specs.Prelude.{◌≡◌, ◌+◌, ◌-◌, ◌^◌, ◌<◌, ◌≤◌, ◌∷◌, List, false, IfOk, OnOk};
ghost use Rattle.ftp_base.specs.declared.net.IpAddr.TheVariants.{V4};
ghost use Rattle.ftp_events.specs.declared.entry.Entry.{Entry};
ghost use Rattle.ftp_events.specs.Isolation.{client_log};
ghost use Rattle.ftp_events.specs.Log.{is_stopped, past_of};
ghost use Rattle.ftp_events.specs.Right.{IsActed, IsRight, events_of};
ghost use Rattle.ftp_laws.specs.Alone.{SameServed};
ghost use Rattle.ftp_hub.specs.Stands.{Stands, count_of, options_of};
ghost use Rattle.ftp_hub.specs.OwnSessions.{Knows};
ghost use Rattle.ftp_hub.specs.Undisturbed.{IsUndisturbed};

use crate::own_sessions::OwnSessions;
use crate::{Hub, PrepareError};
use ftp_base::IpAddr;
use ftp_events::{Entry, Log};
use ftp_options::Options;
use std::alloc::{AllocError, Global};

/// Runs the entries of one client again on a fresh hub, with the answers that they carry, and gives their log.
///
/// The client is an IPv4 address, as one number in network order. An entry is the client's whose connection it tells of, or who
/// opened the session that it names; those that concern every client are run too. Goes over the log once, and fails only for want
/// of memory: the log may be any, right or not.
///
/// # Proved
///
/// - The log that it gives has exactly the events and answers of the entries that belong to one client, and those that
///   concern every client, in order; it is right and acted (`same_events`, `right`, `acted`).
/// - Each of its entries is decided as in the log that was handed in, and has the same actions, but for a stop, which
///   names every session; without a stop it is that client's part of the log, if the log is right and acted under the
///   same options; nobody else brings in a number that an entry of the client carries; failed logins of one address
///   lock no other; sessions share the ports (`IsUndisturbed`) (`served`, `alone`).
pub fn isolation(alloc: Global, options: Options, log: &Log, source: u32) -> Result<Log, AllocError>
    ensures same_events { IfOk result (λ alone. events_of alone.entries ≡ events_of (client_log log.now.entries (V4 source))) }
    ensures right { IfOk result (λ alone. IsRight options alone.entries) }
    ensures acted { IfOk result (λ alone. IsActed options alone.entries) }

    // The client is served as it was with the others there.
    ensures served { IfOk result (λ alone.
        IsUndisturbed options log.now.entries (V4 source) →
        SameServed alone.entries (client_log log.now.entries (V4 source))) }

    // A stop names every session; before one all is the same.
    ensures alone { IfOk result (λ alone.
        IsUndisturbed options log.now.entries (V4 source) →
        is_stopped (past_of log.now.entries) ≡ false →
        alone.entries ≡ client_log log.now.entries (V4 source)) }
{
    let mut own = OwnSessions::new(alloc, IpAddr::V4(source));
    let mut hub = Hub::new(alloc, options);
    let mut alone = Log::new(alloc);
    for e in log.as_slice() {
        follow(alloc, &mut hub, &own, e, &mut alone)?;
        own.note(e)?;
    }
    Ok(alone)
}

// Runs an entry again where it is kept for the client.
fn follow(
    alloc: Global,
    hub: &mut Hub,
    own: &OwnSessions,
    e: &Entry,
    alone: &mut Log,
) -> Result<(), AllocError>
    requires below { count_of hub.old < 2 ^ 64 - 1 }
    ensures same_events { OnOk result ((log : List Entry) → Knows own.now log →
        events_of alone.old.entries ≡ events_of (client_log log own.now.client) →
        events_of alone.new.entries ≡ events_of (client_log (e.now ∷ log) own.now.client)) }
    ensures stands { OnOk result (Stands hub.old alone.old.entries → Stands hub.new alone.new.entries) }
    ensures options { options_of hub.new ≡ options_of hub.old }
    ensures count { OnOk result (count_of hub.new ≤ count_of hub.old + 1) }
{
    if !own.keeps(e) {
        return Ok(());
    }
    repeat(alloc, hub, e, alone)
}

// Gives the event of an entry to the hub once more, with its answer, and adds what comes of it to the log.
fn repeat(alloc: Global, hub: &mut Hub, e: &Entry, log: &mut Log) -> Result<(), AllocError>
    requires below { count_of hub.old < 2 ^ 64 - 1 }
    ensures same_events { OnOk result (events_of log.new.entries ≡ (e.now.event, e.now.answer) ∷ events_of log.old.entries) }
    ensures stands { OnOk result (Stands hub.old log.old.entries → Stands hub.new log.new.entries) }
    ensures options { options_of hub.new ≡ options_of hub.old }
    ensures count { OnOk result (count_of hub.new ≡ count_of hub.old + 1) }
{
    log.make_room()?;
    let event = e.event.copy(alloc)?;
    match hub.prepare(&event) {
        Ok(room) => {
            log.push_reserved(hub.step(room, event, e.answer));
            Ok(())
        }
        Err(PrepareError::OutOfMemory) => {
            drop(event);
            Err(AllocError)
        }
        Err(PrepareError::Exhausted) => unreachable!(),
    }
}
