//! What several tests take: who knocks, who may log in, the storage and the edge.

ghost use Rattle.std.specs.Prelude.{◌≡◌, true};
ghost use Rattle.ftp_talk.specs.Control.{is_opening};

use ftp_base::{
    AuthAnswer, Authenticator, Bytes, IpAddr, MemoryEdge, MemoryStorage, SocketAddr, StoreError,
};
use ftp_events::{EventKind, HubEvent};
use std::alloc::{AllocError, Global};

/// Session 1, from 10.0.0.1 to 10.0.0.9.
pub fn opening() -> HubEvent
    ensures { is_opening result.kind ≡ true }
{
    HubEvent {
        at: 0,
        kind: EventKind::Connect {
            session: 1,
            raw: SocketAddr {
                ip: IpAddr::V4(0x0a00_0001),
                port: 4000,
            },
            local: SocketAddr {
                ip: IpAddr::V4(0x0a00_0009),
                port: 21,
            },
            trace: 1,
        },
    }
}

/// Lets in `ann` with the password `x`, from 10.0.0.1.
#[derive(Clone, Copy, Debug, PartialEq, Eq)]
pub struct OnlyAnn;

impl Authenticator for OnlyAnn {
    ghost may_answer = { λ _ _ _ _ _. true };

    fn check(&self, user: &Bytes, password: &Bytes, source: IpAddr) -> AuthAnswer {
        if user.as_slice() != b"ann".as_slice() {
            AuthAnswer::BadUser
        } else if password.as_slice() != b"x".as_slice() {
            AuthAnswer::Refused
        } else if source != IpAddr::V4(0x0a00_0001) {
            AuthAnswer::Disabled
        } else {
            AuthAnswer::Good
        }
    }
}

/// A storage with the directory `/up` and, in it, one with a carriage return in its name.
pub fn storage(alloc: Global) -> Result<MemoryStorage, StoreError> {
    let up = Bytes::from_slice(alloc, b"/up")?;
    let turned = Bytes::from_slice(alloc, b"/up/a\rb")?;
    let mut storage = MemoryStorage::new(alloc, 0, Vec::new(alloc));
    storage.mkdir(up)?;
    storage.mkdir(turned)?;
    Ok(storage)
}

/// An edge at moment 0 that gives the word 0 and makes one connection.
pub fn edge(alloc: Global) -> Result<MemoryEdge, AllocError> {
    let connects = Vec::from_slice(alloc, [true].as_slice())?;
    Ok(MemoryEdge::new(
        Vec::new(alloc),
        Vec::new(alloc),
        Vec::new(alloc),
        Vec::new(alloc),
        connects,
    ))
}
