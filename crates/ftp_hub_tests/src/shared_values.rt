//! What several tests take.

ghost use Rattle.std.specs.Prelude.{◌≡◌, false};
ghost use Rattle.ftp_shared.specs.Outbox.{has_ticket};

use ftp_base::{IpAddr, SocketAddr};
use ftp_events::EventKind;
use ftp_shared::Replies;
use std::alloc::{AllocError, Global};

/// A control connection of 10.0.0.1.
pub fn connect(session: u64) -> EventKind
    ensures { has_ticket result ≡ false }
{
    EventKind::Connect {
        session,
        raw: SocketAddr {
            ip: IpAddr::V4(0x0a00_0001),
            port: 4000,
        },
        local: SocketAddr {
            ip: IpAddr::V4(0x0a00_0009),
            port: 21,
        },
        trace: 1,
    }
}

/// The bytes of those replies that are due at once.
pub fn sent_at_once(alloc: Global, replies: &Replies) -> Result<Vec<u8>, AllocError> {
    let mut sent = Vec::new(alloc);
    for (delay, reply) in replies.as_slice() {
        if *delay == 0 {
            sent.extend_from_slice(reply.encode(alloc)?.as_slice())?;
        }
    }
    Ok(sent)
}
