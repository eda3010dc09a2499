//! What a hub refuses of a state that it is made from: what a session or a job lacks.

ghost use Rattle.std.specs.Prelude.{◌≡◌, ◌⊎◌, ◌||◌, false, IfErr, OnOk, Option, is_some, nat_eq};
ghost use Rattle.std.specs.HashMap as map;
ghost use Rattle.std.specs.List.{list_any};
ghost use Rattle.ftp_events.specs.declared.session.Running.{Running};
ghost use Rattle.ftp_switchboard.specs.Used.{has};
ghost use Rattle.ftp_hub.specs.declared.state.StateError.TheVariants.{OutOfMemory};
ghost use Rattle.ftp_hub.specs.Refused.{OneLacks, has_login, has_numbers, has_place, has_port, has_tickets, is_of_v6, job_lacks, job_lacks_at, known_by, session_lacks, session_lacks_at, ticket_fits};

use crate::hub::Hub;
use crate::state::{RecordLine, StateError};
use crate::tables::sorted_keys;
use ftp_events::{Login, Running, Session, Slot};
use ftp_options::Options;
use ftp_switchboard::Numbers;

// Says whether the number of a session was used, and that of the link in its slot.
fn has_numbers(numbers: &Numbers, number: u64, session: &Session) -> bool
    ensures { result ≡ has_numbers (has numbers.now) number session.now }
{
    if !numbers.has(number) {
        return false;
    }
    match session.slot {
        Slot::Linked { number } => numbers.has(number),
        Slot::Empty | Slot::Waits { .. } => true,
    }
}

// Says whether the port that a slot waits for is one of the range.
fn has_port(options: &Options, session: &Session) -> bool
    ensures { result ≡ has_port options.now session.now }
{
    match session.slot {
        Slot::Waits { port } => options.lo <= port && port <= options.hi,
        Slot::Empty | Slot::Linked { .. } => true,
    }
}

// Says whether a session, of which a job runs or not, has no more transfers and notices than there were events, and its
// transfer is one of these and does not wait where it could start.
fn has_tickets(events: u64, runs: bool, session: &Session) -> bool
    ensures { (job : Option Running) → is_some job ≡ runs → result ≡ has_tickets events job session.now }
{
    if session.tickets > events || session.notices > events {
        return false;
    }
    match &session.pending {
        None => true,
        Some(pending) if pending.ticket.nr > session.tickets => false,
        Some(_) => runs || !matches!(session.slot, Slot::Linked { .. }),
    }
}

// Says whether no stop came, and the addresses of a session are those of the mode.
fn has_place(options: &Options, stopped: bool, session: &Session) -> bool
    ensures { result ≡ has_place options.now stopped session.now }
{
    let opening = &session.opening;
    let any_v6 = opening.raw.ip.is_v6() || opening.local.ip.is_v6() || opening.client.is_v6();
    let fits = options.mode.is_legacy() || !any_v6;
    let own = options.mode.is_proxy() || opening.client.is_same(opening.raw.ip);
    !stopped && fits && own
}

// Says whether a session has a slot and a transfer only where it is logged in, and a name where its login has begun.
fn has_login(session: &Session) -> bool
    ensures { result ≡ has_login session.now }
{
    let logged_in = matches!(session.login, Login::LoggedIn);
    let bare = matches!(session.slot, Slot::Empty) && session.pending.is_none();
    let is_new = matches!(session.login, Login::New);
    (logged_in || bare) && (session.name.is_some() || is_new)
}

// Says whether a record is of an address of version 6.
fn is_of_v6(line: &RecordLine) -> bool
    ensures { result ≡ is_of_v6 line.now }
{
    match line.ip {
        Some(ip) => ip.is_v6(),
        None => false,
    }
}

// Says whether one of the records is.
pub(crate) fn has_v6(lines: &[RecordLine]) -> bool
    ensures { result ≡ list_any is_of_v6 lines.now }
{
    lines.iter().any(|line| is_of_v6(line))
}

impl Hub {
    // Says whether a session gives cause to the refusal.
    fn session_lacks(&self, refusal: StateError, number: u64, session: &Session) -> bool
        ensures { result ≡ session_lacks (known_by self.now) refusal (map.get nat_eq self.now.jobs number) number session.now }
    {
        match refusal {
            StateError::Number => !has_numbers(&self.numbers, number, session),
            StateError::Port => !has_port(&self.options, session),
            StateError::Ticket => {
                !has_tickets(self.count, self.jobs.contains_key(&number), session)
            }
            StateError::Mode => !has_place(&self.options, self.stopped, session),
            StateError::Login => !has_login(session),
            StateError::BadLine(_) | StateError::OutOfMemory => false,
        }
    }

    // Says whether the session of a number does.
    fn session_lacks_at(&self, refusal: StateError, number: u64) -> bool
        ensures { result ≡ session_lacks_at (known_by self.now) (map.get nat_eq self.now.sessions) (map.get nat_eq self.now.jobs) refusal number }
    {
        match self.sessions.get(&number) {
            Some(session) => self.session_lacks(refusal, number, session),
            None => false,
        }
    }

    // Says whether the ticket of a job is one of its session, where that is live.
    fn has_ticket(&self, number: u64, running: &Running) -> bool
        ensures { result ≡ ticket_fits (map.get nat_eq self.now.sessions number) running.now }
    {
        match self.sessions.get(&number) {
            Some(session) => running.job.ticket.nr <= session.tickets,
            None => true,
        }
    }

    // Says whether a job gives cause to the refusal.
    fn job_lacks(&self, refusal: StateError, number: u64, running: &Running) -> bool
        ensures { result ≡ job_lacks (known_by self.now) refusal (map.get nat_eq self.now.sessions number) running.now }
    {
        match refusal {
            StateError::Number => {
                let job = &running.job;
                !(self.numbers.has(job.ticket.session) && self.numbers.has(job.number))
            }
            StateError::Ticket => !self.has_ticket(number, running),
            _ => false,
        }
    }

    // Says whether the job of the session of a number does.
    fn job_lacks_at(&self, refusal: StateError, number: u64) -> bool
        ensures { result ≡ job_lacks_at (known_by self.now) (map.get nat_eq self.now.sessions) (map.get nat_eq self.now.jobs) refusal number }
    {
        match self.jobs.get(&number) {
            Some(running) => self.job_lacks(refusal, number, running),
            None => false,
        }
    }

    // Says whether one of these sessions does.
    fn some_session_lacks(&self, refusal: StateError, live: &[u64]) -> bool
        ensures { result ≡ list_any (session_lacks_at (known_by self.now) (map.get nat_eq self.now.sessions) (map.get nat_eq self.now.jobs) refusal) live.now }
    {
        live.iter()
            .any(|number| self.session_lacks_at(refusal, *number))
    }

    // Says whether one of the jobs of these sessions does.
    fn some_job_lacks(&self, refusal: StateError, running: &[u64]) -> bool
        ensures { result ≡ list_any (job_lacks_at (known_by self.now) (map.get nat_eq self.now.sessions) (map.get nat_eq self.now.jobs) refusal) running.now }
    {
        running
            .iter()
            .any(|number| self.job_lacks_at(refusal, *number))
    }

    // Refuses the hub where a session or a job gives cause to it.
    pub(crate) fn look_for(&self, refusal: StateError) -> Result<(), StateError>
        ensures passed { OnOk result (OneLacks (known_by self.now) (map.get nat_eq self.now.sessions) (map.get nat_eq self.now.jobs) refusal → ⊥) }
        ensures refused { IfErr result (λ e. (e ≡ OutOfMemory) ⊎ ((e ≡ refusal) × OneLacks (known_by self.now) (map.get nat_eq self.now.sessions) (map.get nat_eq self.now.jobs) refusal)) }
    {
        let live = sorted_keys(self.alloc, &self.sessions)?;
        if self.some_session_lacks(refusal, &live) {
            return Err(refusal);
        }
        let running = sorted_keys(self.alloc, &self.jobs)?;
        if self.some_job_lacks(refusal, &running) {
            return Err(refusal);
        }
        Ok(())
    }
}
