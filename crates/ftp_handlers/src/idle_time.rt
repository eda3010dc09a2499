//! How long a session may be idle.

ghost use Rattle.std.specs.Prelude.{◌≡◌, [], IsTrue, Option, Some};
ghost use Rattle.ftp_events.specs.declared.decision.Decision.TheVariants.{TimedOut};
ghost use Rattle.ftp_events.specs.declared.session.Running.{Running};
ghost use Rattle.ftp_events.specs.declared.event.Answer.{Answer};
ghost use Rattle.ftp_events.specs.CommandRows.{idle_row};
ghost use Rattle.ftp_events.specs.Session.{session_after};
ghost use Rattle.ftp_events.specs.Acts.{session_acts};
ghost use Rattle.ftp_handlers.specs.Handlers.{is_idle_tick, goes_on, number_of};

use ftp_events::{Decision, HubEvent, Session, Slot};
use ftp_options::Options;

/// Looks at how long a session has been idle. One that is at work, since a job of it runs or its slot has a link, is
/// taken to be idle from now on. The end of one that was idle for too long is left to the caller: see `ending`.
pub fn idle_tick(session: &mut Session, event: &HubEvent, runs: bool, options: &Options) -> Decision
    requires of_this_event { IsTrue (is_idle_tick event.now.kind) }
    ensures decision { result ≡ idle_row options.now runs event.now.at session.old }
    ensures session { IsTrue (goes_on result) → (answer : Answer) (job : Option Running) → session.new ≡ session_after event.now.at event.now.kind answer result 0 job session.old }
    ensures actions { IsTrue (goes_on result) → (answer : Answer) (job : Option Running) → session_acts options.now (number_of event.now.kind) event.now.kind answer result job (Some session.old) ≡ [] }
    ensures unchanged { result ≡ TimedOut → session.new ≡ session.old }
{
    if event.at.saturating_sub(session.active_at) < options.idle_ms {
        return Decision::Early;
    }
    if runs || matches!(session.slot, Slot::Linked { .. }) {
        session.active_at = event.at;
        return Decision::Waited;
    }
    Decision::TimedOut
}
