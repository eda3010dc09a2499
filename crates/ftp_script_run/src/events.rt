//! The events of a run.

ghost use Rattle.std.specs.Prelude.{◌≡◌, ◌+◌, ◌*◌, ◌<◌, ◌≤◌, ◌^◌};
ghost use Rattle.ftp_script_run.specs.Draws.{stirred_by};
ghost use Rattle.ftp_script_run.specs.Events.{client, called, chosen};

use ftp_base::{IpAddr, SocketAddr};
use ftp_events::EventKind;

/// The first of the sixteen addresses that clients have, 10.0.0.0.
const CLIENTS: u32 = 0x0a00_0000;

// A port of the client.
fn client(n: u64, port: u16) -> SocketAddr
    ensures { result ≡ client n port }
{
    SocketAddr {
        ip: IpAddr::V4(CLIENTS + (n % 16) as u32),
        port,
    }
}

/// The control connection of a session.
pub fn connect(session: u64) -> EventKind
    ensures { result ≡ EventKind.Connect session (client session 4000) called session }
{
    EventKind::Connect {
        session,
        raw: client(session, 4000),
        local: SocketAddr {
            ip: IpAddr::V4(CLIENTS + 9),
            port: 21,
        },
        trace: session,
    }
}

/// What three numbers choose, where a connection would have this number.
pub fn chosen(sessions: u64, number: u64, a: u64, b: u64, c: u64) -> EventKind
    requires { 1 ≤ sessions }
    ensures { result ≡ chosen sessions number a b c }
{
    match b % 4 {
        2 => EventKind::DataIn {
            number,
            raw: client(a, 4001),
            port: 50000 + (c % 64) as u16,
        },
        3 => EventKind::Abor {
            session: 1 + a % sessions,
        },
        _ => EventKind::Pasv {
            session: 1 + a % sessions,
            word: (c % 65536) as u16,
            lookup: None,
            bound: None,
        },
    }
}
