//! The jobs that wait for their data connections, as the stop of a server sees them.

ghost use Rattle.std.specs.Prelude.{◌≡◌, ◌≢◌, ◌<◌, ◌↔◌, ℕ, max, None, IfSome, true, false, nat_eq};
ghost use Rattle.std.specs.Option.{option_map};
ghost use Rattle.indexmap.specs.IndexMap.{get};
ghost use Rattle.ftp_workers.specs.Carried.{settled_by};

use ftp_events::Action;
use ftp_transfer::Ticket;
use indexmap::IndexMap;

/// How far the jobs of a session have come: they are numbered as they are asked for, and begin in that order.
#[derive(Drop)]
pub(crate) struct JobProgress {
    /// The number of the last job that was asked for.
    pub(crate) asked: u64,
    /// The number of the last job that has begun, or was given up.
    pub(crate) begun: u64,
}

/// The job that waits no longer behind the action.
pub(crate) fn settled_by(action: &Action) -> Option<Ticket>
    ensures { result ≡ settled_by action.now }
{
    match action {
        Action::Start { ticket, .. } => Some(*ticket),
        Action::Cancelled { ticket } => Some(*ticket),
        _ => None,
    }
}

/// Says whether a job of the session waits for its data connection.
pub(crate) fn has_waiting_job(jobs: &IndexMap<u64, JobProgress>, session: u64) -> bool
    ensures unknown { get nat_eq jobs.now session ≡ None → result ≡ false }
    ensures waiting { IfSome (get nat_eq jobs.now session) (λ p. (result ≡ true) ↔ (p.begun < p.asked)) }
{
    match jobs.get(&session) {
        Some(progress) => progress.begun < progress.asked,
        None => false,
    }
}

/// The job was asked for, where its session is known.
pub(crate) fn ask_job(jobs: &mut IndexMap<u64, JobProgress>, ticket: Ticket)
    ensures asked { get nat_eq jobs.new ticket.session ≡ option_map (λ p. record { asked = max p.asked ticket.nr; begun = p.begun }) (get nat_eq jobs.old ticket.session) }
    ensures others { (other : ℕ) → other ≢ ticket.session → get nat_eq jobs.new other ≡ get nat_eq jobs.old other }
{
    if let Some(progress) = jobs.get_mut(&ticket.session) {
        progress.asked = progress.asked.max(ticket.nr);
    }
}

/// The job has begun, or was given up, where its session is known.
pub(crate) fn leave_wait(jobs: &mut IndexMap<u64, JobProgress>, ticket: Ticket)
    ensures begun { get nat_eq jobs.new ticket.session ≡ option_map (λ p. record { asked = p.asked; begun = max p.begun ticket.nr }) (get nat_eq jobs.old ticket.session) }
    ensures others { (other : ℕ) → other ≢ ticket.session → get nat_eq jobs.new other ≡ get nat_eq jobs.old other }
{
    if let Some(progress) = jobs.get_mut(&ticket.session) {
        progress.begun = progress.begun.max(ticket.nr);
    }
}
