//! The events that are appended: connections first, and then USERs, each of which is answered by one reply.

ghost use Rattle.std.specs.Prelude.{◌≡◌, true, false, None, Some, IfOk};
ghost use Rattle.ftp_events.specs.Covers.{link_number};
ghost use Rattle.ftp_events.specs.Log.{named_session};
ghost use Rattle.ftp_shared.specs.Outbox.{has_ticket};
ghost use Rattle.ftp_talk.specs.Control.{is_opening};

use ftp_base::{Bytes, IpAddr, SocketAddr};
use ftp_events::{EventKind, HubEvent};
use std::alloc::{AllocError, Global};

/// A control connection of 10.0.0.1, which is this session.
pub fn connect(session: u64) -> HubEvent
    ensures no_link { link_number result.kind ≡ None }
    ensures no_ticket { has_ticket result.kind ≡ false }
    ensures opening { is_opening result.kind ≡ true }
{
    let kind = EventKind::Connect {
        session,
        raw: SocketAddr {
            ip: IpAddr::V4(0x0a00_0001),
            port: 4000,
        },
        local: SocketAddr {
            ip: IpAddr::V4(0x0a00_0009),
            port: 21,
        },
        trace: 1,
    };
    HubEvent { at: 0, kind }
}

/// USER of a session.
pub fn user(alloc: Global, session: u64) -> Result<HubEvent, AllocError>
    ensures session { IfOk result (λ event. named_session event.kind ≡ Some session) }
    ensures no_link { IfOk result (λ event. link_number event.kind ≡ None) }
    ensures no_ticket { IfOk result (λ event. has_ticket event.kind ≡ false) }
{
    let name = Bytes::from_slice(alloc, b"ann")?;
    let kind = EventKind::User { session, name };
    Ok(HubEvent { at: 0, kind })
}
