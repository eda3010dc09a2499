//! A caller of the headline.

ghost use Rattle.std.specs.Prelude.{◌≡◌, false, IfOk, IsTrue};
ghost use Rattle.std.specs.List.{list_all};
ghost use Rattle.ftp_options.specs.Modes.{is_legacy};
ghost use Rattle.ftp_events.specs.Covers.{is_covered};
ghost use Rattle.ftp_events.specs.Right.{IsRight};
ghost use Rattle.ftp_hub.specs.Headline.{Headline};
ghost use Rattle.ftp_hub.specs.Runs.{is_linked};

use ftp_base::{Link, LinkTable, Storage};
use ftp_events::{HubEvent, Log};
use ftp_hub::{Hub, RunError, run_events};
use ftp_options::Options;
use std::alloc::Global;

/// The log of the events on a fresh hub.
pub fn run_all<S: Storage, L: Link>(
    alloc: Global,
    options: Options,
    storage: &mut S,
    links: &mut LinkTable<L>,
    events: &[HubEvent],
) -> Result<Log, RunError>
    requires shared { is_legacy options.mode ≡ false }
    requires covered { IsTrue (list_all (λ e. is_covered (is_linked links.old) e.kind) events.now) }
    ensures headline { IfOk result (λ log. Headline options events.now log.entries) }
    ensures right { IfOk result (λ log. IsRight options log.entries) }
{
    let mut hub = Hub::new(alloc, options);
    let mut log = Log::new(alloc);
    let run = run_events(&mut hub, storage, links, events, &mut log);
    drop(hub);
    match run {
        Ok(()) => Ok(log),
        Err(error) => {
            drop(log);
            Err(error)
        }
    }
}
