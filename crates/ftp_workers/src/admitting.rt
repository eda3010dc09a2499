//! Which control connections are served.

use crate::event_sinks::EventSinks;
use crate::server_state::ServerState;
use ftp_base::{Authenticator, Gate};
use ftp_shared::JournalHub;
use ftp_system::Depot;
use std::io::Write;
use std::net::IpAddr;
use std::sync::Wait;

/// What a connection is told that is one too many (RFC 959, section 4.2).
const TOO_MANY: &[u8] = b"421 Too many sessions, closing control connection\r\n";

// The address as one number; one of version 4 as that of version 6 which stands for it.
fn number_of(ip: IpAddr) -> u128 {
    match ip {
        IpAddr::V4(ip) => ip.to_ipv6_mapped().to_bits(),
        IpAddr::V6(ip) => ip.to_bits(),
    }
}

impl<
    H: JournalHub + Drop,
    A: Authenticator + Drop,
    N: EventSinks + Drop,
    D: Depot + Drop,
    G: Gate + Drop,
> ServerState<H, A, N, D, G> {
    /// Counts one more session of the client, and says whether it is admitted. If not, the connection is told so.
    pub(crate) fn enter<R: Wait, W: Write>(&self, rt: &R, client: IpAddr, stream: &mut W) -> bool {
        let admitted = self.counts.lock(rt).admit(number_of(client), self.limits);
        if matches!(admitted, Ok(true)) {
            return true;
        }
        // Nothing was sent before, so there is room for it.
        let _ = stream.write(TOO_MANY);
        false
    }

    /// A session of the client has ended that was counted.
    pub(crate) fn exit<R: Wait>(&self, rt: &R, client: IpAddr) {
        self.counts.lock(rt).leave(number_of(client));
    }
}
