//! The journal of the server, printed as it grows.

ghost use Rattle.std.specs.Prelude.{◌≡◌, ◌++◌, ◌∷◌, [], true, None, OnOk};
ghost use Rattle.ftp_options.specs.declared.host.PassiveHost.TheVariants.{FromConnection};
ghost use Rattle.ftp_options.specs.declared.options.ActivePassiveMode.TheVariants.{PassiveOnly};
ghost use Rattle.ftp_text.specs.declared.setup.Item.TheVariants as item;
ghost use Rattle.ftp_text.specs.Options.{mode_text};
ghost use Rattle.ftp_text.specs.Setup.{item_line};

use crate::service::Service;
use ftp_options::ListenerMode;
use ftp_shared::{EntriesLost, JournalFeed};
use ftp_text::put_entry;
use ftp_text::writing::{put, put_decimal, put_number};
use std::alloc::{AllocError, Global};
use std::io::Write;
use std::sync::Wait;

/// How long a session may do nothing, in seconds.
const IDLE_SECONDS: u64 = 600;

/// What stands behind the last entry where the next is lost.
const LOST: &[u8] = b"entries are lost\n";

/// Writes the printed log of a server of this service: the line of its options, and each entry once the feed gives it. It ends with
/// the server, or where nothing can be written.
pub fn record<R: Wait, W: Write>(
    rt: &R,
    alloc: Global,
    feed: &JournalFeed,
    service: Service,
    out: &mut W,
) {
    let mut text = Vec::new(alloc);
    if put_options(&mut text, service).is_err() || out.write_all(text.as_slice()).is_err() {
        return;
    }
    for _ in rt.forever() {
        text.clear();
        match put_next(rt, feed, &mut text) {
            Ok(true) => {}
            Ok(false) => return,
            Err(EntriesLost) => {
                let _ = out.write_all(LOST);
                return;
            }
        }
        if out.write_all(text.as_slice()).is_err() {
            return;
        }
    }
}

// Writes the next entry of a feed, unless the server has ended. One for whose text there is no memory is lost.
fn put_next<R: Wait>(rt: &R, feed: &JournalFeed, out: &mut Vec<u8>) -> Result<bool, EntriesLost> {
    let Some(entry) = feed.next(rt)? else {
        return Ok(false);
    };
    let put = put_entry(out, &entry);
    drop(entry);
    match put {
        Ok(()) => Ok(true),
        Err(AllocError) => Err(EntriesLost),
    }
}

// Writes the line of the options that a service is served with.
//
// # Proved
//
// - The first line is that of the options of the service, as a printed log spells them.
fn put_options(out: &mut Vec<u8>, service: Service) -> Result<(), AllocError>
    ensures { OnOk result (out.new.items ≡ out.old.items ++ (item_line (item.Options service.mode service.lo service.hi FromConnection PassiveOnly 600 None true) ++ 10 ∷ [])) }
{
    put(out, b"options ")?;
    put_mode(out, service.mode)?;
    put_number(out, u64::from(service.lo))?;
    put_number(out, u64::from(service.hi))?;
    put(out, b" connection passive")?;
    put_number(out, IDLE_SECONDS)?;
    put(out, b" off restart\n")
}

fn put_mode(out: &mut Vec<u8>, mode: ListenerMode) -> Result<(), AllocError>
    ensures { OnOk result (out.new.items ≡ out.old.items ++ mode_text mode) }
{
    match mode {
        ListenerMode::Legacy => put(out, b"legacy"),
        ListenerMode::Pooled => put(out, b"pooled"),
        ListenerMode::Proxy { control_port } => {
            put(out, b"proxy:")?;
            put_decimal(out, u64::from(control_port))
        }
    }
}
