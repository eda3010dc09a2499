//! Where a server listens.

ghost use Rattle.std.specs.Prelude.{◌≡◌, ◌≤◌, ◌↔◌, ◌⊎◌, false, IfOk, IfErr, IsErrOf};
ghost use Rattle.ftp_base.specs.Outside.{HasRisen};
ghost use Rattle.ftp_system.specs.Listen.{IsBindText};
ghost use Rattle.ftp_options.specs.Modes.{is_legacy};
ghost use Rattle.ftp_listen.specs.Causes.{WritesNone, WritesV6};

use ftp_base::SocketAddr;
use ftp_options::{ListenerMode, Options, ServerError};
use ftp_system::{Doors, Front, bind_address};

/// The address that a text such as `127.0.0.1:21` writes, if a server of this mode can listen there on a machine that has it.
///
/// # Proved
///
/// - A text is refused exactly where `Server::listen` refuses it (`written`, `address`, `ipv6`, `only`).
pub fn listen_address(text: &[u8], mode: ListenerMode) -> Result<SocketAddr, ServerError>
    ensures written { IfOk result (IsBindText text.now) }
    ensures address { IsErrOf result ServerError.Address ↔ WritesNone text.now }
    ensures ipv6 { IsErrOf result ServerError.Ipv6OutsideLegacy ↔ (WritesV6 text.now × (is_legacy mode ≡ false)) }
    ensures only { IfErr result (λ e. (e ≡ ServerError.Address) ⊎ (e ≡ ServerError.Ipv6OutsideLegacy)) }
{
    let Some(at) = bind_address(text) else {
        return Err(ServerError::Address);
    };
    if at.ip.is_v6() && !mode.is_legacy() {
        return Err(ServerError::Ipv6OutsideLegacy);
    }
    Ok(at)
}

/// The listening sockets at the address, in pooled mode with those of the passive ports.
pub(crate) fn doors_at<F: Front>(
    front: &mut F,
    at: SocketAddr,
    options: &Options,
) -> Result<Doors, ServerError>
    ensures io { IsErrOf result ServerError.Io → HasRisen (F.faults front.old) (F.faults front.new) }
    ensures only { IfErr result (λ e. (e ≡ ServerError.Io) ⊎ (e ≡ ServerError.OutOfMemory)) }
    ensures count { F.faults front.old ≤ F.faults front.new }
{
    let ports = if options.mode.is_pooled() {
        Some((options.lo, options.hi))
    } else {
        None
    };
    match front.open_doors(at, ports) {
        Ok(Some(doors)) => Ok(doors),
        Ok(None) => Err(ServerError::Io),
        Err(_) => Err(ServerError::OutOfMemory),
    }
}
