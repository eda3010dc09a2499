//! The lines of a script, and the lines behind the log.

ghost use Rattle.std.specs.Prelude.{◌≡◌, ◌++◌, ◌<◌, IfOk, OnOk, IsErrOf, Some};
ghost use Rattle.ftp_text.specs.declared.fault.LineFault.TheVariants as fault;
ghost use Rattle.ftp_text.specs.declared.setup.Item.{Item};
ghost use Rattle.ftp_text.specs.Setup.{is_skipped, is_absolute, IsItemOf, sent_line, file_line};
ghost use Rattle.ftp_text.specs.Reading.{Gives};
ghost use Rattle.ftp_text.specs.SetupReading.{options_at, storage_at, dir_at, file_at, quota_at, budget_at, link_calls_at, link_at, item_of};

use crate::calls::{FailingCalls, failing_calls};
use crate::event::read_event;
use crate::fault::{LineFault, Parsed};
use crate::field::{fields, hex_bytes, literal, number, small, text_to_end, whole};
use crate::options::{listening, rules};
use crate::writing::{put, put_byte, put_hex_bytes, put_number, put_text_field};
use ftp_base::{Bytes, LinkFault};
use ftp_events::HubEvent;
use ftp_options::{ActivePassiveMode, FailedLoginsPolicy, ListenerMode, PassiveHost};
use std::alloc::{AllocError, Global};

/// What a line of a script says.
#[derive(Drop)]
pub enum Item {
    /// Nothing: the line is empty or a comment.
    Skip,
    /// Who listens, the passive ports, both included, the host that a passive reply advertises, which commands open
    /// data connections, an idle time in seconds, and when failed logins lock. Transfers can begin at a restart
    /// offset, or cannot.
    Options {
        mode: ListenerMode,
        lo: u16,
        hi: u16,
        host: PassiveHost,
        active: ActivePassiveMode,
        idle: u32,
        lockout: Option<FailedLoginsPolicy>,
        restart: bool,
    },
    /// A storage whose files have at most `max` bytes, of whose calls these fail.
    Storage {
        max: u64,
        fails: FailingCalls<u64>,
    },
    /// A directory.
    Dir {
        path: Bytes,
    },
    /// A file.
    File {
        bytes: Bytes,
        path: Bytes,
    },
    /// Budgets: a user who is given none of his own may store `default` bytes.
    Quota {
        default: u64,
    },
    /// A user's own budget, in bytes.
    Budget {
        bytes: u64,
        user: Bytes,
    },
    /// A link that gives these bytes, and moves at most `chunk` bytes a call. Of its calls these fail.
    Link {
        number: u64,
        chunk: u32,
        fails: FailingCalls<(u64, LinkFault)>,
        bytes: Bytes,
    },
    Event(HubEvent),
}

/// What the line says. Its line feed is no part of the line.
///
/// # Proved
///
/// - The same of the lines of a script: skipped, options, storage, directories, files, budgets, links, events (`found`,
///   `bad`, `only`, `exact`).
pub fn read_item(alloc: Global, line: &[u8]) -> Result<Item, LineFault>
    // The line is that of what is read.
    ensures found { IfOk result (λ i. IsItemOf line.now i) }

    // A line is bad only where it is nothing's.
    ensures bad { IsErrOf result fault.Bad → (i : Item) → IsItemOf line.now i → ⊥ }

    // What has this line is read, unless memory runs out.
    ensures only { (i : Item) → IsItemOf line.now i → Gives (λ x. x) result (Some i) }

    // The same as a function of the line.
    ensures exact { Gives (λ x. x) result (item_of line.now) }
{
    item_in(alloc, line)
}

#[tactic(auto, unfolding(crate::specs::SetupReading::item_of))]
fn item_in(alloc: Global, line: &[u8]) -> Result<Item, LineFault>
    ensures { Gives (λ x. x) result (item_of line.now) }
{
    if is_skipped(line) {
        return Ok(Item::Skip);
    }
    match line {
        [b'o', ..] => whole(options(alloc, line)?),
        [b's', ..] => whole(storage(alloc, line)?),
        [b'd', ..] => whole(dir(alloc, line)?),
        [b'f', ..] => whole(file(alloc, line)?),
        [b'q', ..] => whole(quota(line)?),
        [b'b', ..] => whole(budget(alloc, line)?),
        [b'l', ..] => whole(link(alloc, line)?),
        _ => Ok(Item::Event(read_event(alloc, line)?)),
    }
}

fn is_skipped(line: &[u8]) -> bool
    ensures { result ≡ is_skipped line.now }
{
    match line {
        [] | [b'#', ..] => true,
        _ => false,
    }
}

#[tactic(auto, unfolding(crate::specs::SetupReading::options_at))]
fn options(alloc: Global, bytes: &[u8]) -> Parsed<'_, Item>
    ensures { Gives (λ x. (x.0, x.1.now)) result (options_at bytes.now) }
{
    let rest = literal(b"options", bytes)?;
    let ((mode, (lo, hi)), rest) = listening(rest)?;
    let ((host, (active, (idle, (lockout, restart)))), rest) = rules(alloc, rest)?;
    let item = Item::Options {
        mode,
        lo,
        hi,
        host,
        active,
        idle,
        lockout,
        restart,
    };
    Ok((item, rest))
}

#[tactic(auto, unfolding(crate::specs::SetupReading::storage_at))]
fn storage(alloc: Global, bytes: &[u8]) -> Parsed<'_, Item>
    ensures { Gives (λ x. (x.0, x.1.now)) result (storage_at bytes.now) }
{
    let rest = literal(b"storage", bytes)?;
    fields!(rest; max = number(), fails = failing_calls(alloc) => Item::Storage { max, fails })
}

#[tactic(auto, unfolding(crate::specs::SetupReading::dir_at))]
fn dir(alloc: Global, bytes: &[u8]) -> Parsed<'_, Item>
    ensures { Gives (λ x. (x.0, x.1.now)) result (dir_at bytes.now) }
{
    let rest = literal(b"dir", bytes)?;
    let (path, rest) = text_to_end(alloc, rest)?;
    if !is_absolute(path.as_slice()) {
        return Err(LineFault::Bad);
    }
    Ok((Item::Dir { path }, rest))
}

#[tactic(auto, unfolding(crate::specs::SetupReading::file_at))]
fn file(alloc: Global, bytes: &[u8]) -> Parsed<'_, Item>
    ensures { Gives (λ x. (x.0, x.1.now)) result (file_at bytes.now) }
{
    let rest = literal(b"file", bytes)?;
    let (bytes, rest) = hex_bytes(alloc, rest)?;
    let (path, rest) = text_to_end(alloc, rest)?;
    if !is_absolute(path.as_slice()) {
        return Err(LineFault::Bad);
    }
    Ok((Item::File { bytes, path }, rest))
}

#[tactic(auto, unfolding(crate::specs::SetupReading::quota_at))]
fn quota(bytes: &[u8]) -> Parsed<'_, Item>
    ensures { Gives (λ x. (x.0, x.1.now)) result (quota_at bytes.now) }
{
    let rest = literal(b"quota", bytes)?;
    fields!(rest; default = number() => Item::Quota { default })
}

#[tactic(auto, unfolding(crate::specs::SetupReading::budget_at))]
fn budget(alloc: Global, bytes: &[u8]) -> Parsed<'_, Item>
    ensures { Gives (λ x. (x.0, x.1.now)) result (budget_at bytes.now) }
{
    let rest = literal(b"budget", bytes)?;
    fields!(rest; bytes = number(), user = text_to_end(alloc) => Item::Budget { bytes, user })
}

// Whether the path begins at the root.
fn is_absolute(path: &[u8]) -> bool
    ensures { result ≡ is_absolute path.now }
{
    match path {
        [b'/', ..] => true,
        _ => false,
    }
}

#[tactic(auto, unfolding(crate::specs::SetupReading::link_at))]
fn link(alloc: Global, bytes: &[u8]) -> Parsed<'_, Item>
    ensures { Gives (λ x. (x.0, x.1.now)) result (link_at bytes.now) }
{
    let rest = literal(b"link", bytes)?;
    let (((number, chunk), fails), rest) = link_calls(alloc, rest)?;
    let (bytes, rest) = hex_bytes(alloc, rest)?;
    if chunk < 1 {
        return Err(LineFault::Bad);
    }
    let item = Item::Link {
        number,
        chunk: chunk as u32,
        fails,
        bytes,
    };
    Ok((item, rest))
}

/// The number and the chunk of a link, and its calls that fail.
type LinkCalls = ((u64, u64), FailingCalls<(u64, LinkFault)>);

fn link_calls(alloc: Global, bytes: &[u8]) -> Parsed<'_, LinkCalls>
    ensures read { Gives (λ x. (x.0, x.1.now)) result (link_calls_at bytes.now) }
    ensures limit { IfOk result (λ x. x.0.0.1 < 65537) }
{
    fields!(bytes; number = number(), chunk = small(65537), fails = failing_calls(alloc) => ((number, chunk), fails))
}

/// Writes the line on what was sent on a link.
pub fn put_sent(out: &mut Vec<u8>, number: u64, bytes: &[u8]) -> Result<(), AllocError>
    ensures { OnOk result (out.new.items ≡ out.old.items ++ sent_line number bytes.now) }
{
    put(out, b"link")?;
    put_number(out, number)?;
    put(out, b" sent ")?;
    put_hex_bytes(out, bytes)?;
    put_byte(out, b'\n')
}

/// Writes the line on a file of the storage.
pub fn put_file(out: &mut Vec<u8>, path: &[u8], bytes: &[u8]) -> Result<(), AllocError>
    ensures { OnOk result (out.new.items ≡ out.old.items ++ file_line (path.now, bytes.now)) }
{
    put(out, b"file ")?;
    put_hex_bytes(out, bytes)?;
    put_text_field(out, path)?;
    put_byte(out, b'\n')
}
