//! What is known of a session while it lives.

ghost use Rattle.std.specs.Prelude.{◌≡◌, ℕ, None, nat_eq, OnOk, OnErr, IfOk};
ghost use Rattle.std.specs.HashMap as map;
ghost use Rattle.std.specs.Option.{option_map};
ghost use Rattle.ftp_base.specs.Storage.{root};
ghost use Rattle.ftp_events.specs.declared.decision.Life.TheVariants.{Opens, Ends, Goes};
ghost use Rattle.ftp_events.specs.declared.session.Login.TheVariants.{New};
ghost use Rattle.ftp_events.specs.Classes.{life};
ghost use Rattle.ftp_events.specs.Login.{login_by};
ghost use Rattle.ftp_events.specs.Opening.{opening_by};
ghost use Rattle.ftp_audit.specs.Guests.{guest_after, guest_by, guest_by_life};

use ftp_base::{Bytes, IpAddr};
use ftp_events::{Answer, Decision, Entry, EventKind, Life, Login};
use ftp_transfer::join_path;
use std::alloc::{AllocError, Global};
use std::collections::HashMap;

/// Where the client of a session is, the name that it gave last, how far its login is, and its directory.
#[derive(Drop)]
pub struct Guest {
    pub client: IpAddr,
    pub name: Option<Bytes>,
    pub login: Login,
    pub cwd: Bytes,
}

impl Guest {
    // A session that opens.
    fn new(alloc: Global, client: IpAddr) -> Result<Guest, AllocError>
        ensures { IfOk result (λ guest. guest ≡ record { client = client; name = None; login = New; cwd = root }) }
    {
        Ok(Guest {
            client,
            name: None,
            login: Login::New,
            cwd: Bytes::from_slice(alloc, b"/")?,
        })
    }

    // An event about it.
    fn hear(
        &mut self,
        alloc: Global,
        kind: &EventKind,
        decision: Decision,
    ) -> Result<(), AllocError>
        ensures heard { OnOk result (self.new ≡ guest_after kind.now decision self.old) }
        ensures unchanged { OnErr result (self.new ≡ self.old) }
    {
        match (decision, kind) {
            (Decision::NeedPass, EventKind::User { name, .. }) => {
                self.name = Some(name.copy(alloc)?);
                self.login = Login::Named;
            }
            (Decision::CwdOk, EventKind::Cwd { path, .. }) => {
                self.cwd = join_path(alloc, &self.cwd, path)?;
            }
            _ => {
                if let Some(login) = login_by(decision) {
                    self.login = login;
                }
            }
        }
        Ok(())
    }
}

// What a decision makes of the login.
fn login_by(decision: Decision) -> Option<Login>
    ensures { result ≡ login_by decision }
{
    match decision {
        Decision::Opened | Decision::LoginFailed { .. } => Some(Login::New),
        Decision::NeedPass => Some(Login::Named),
        Decision::PassOut => Some(Login::Checking),
        Decision::LoggedIn => Some(Login::LoggedIn),
        _ => None,
    }
}

/// The client of a control connection that opens: behind a proxy its header gives it.
pub(crate) fn client_by(kind: &EventKind, answer: Answer) -> Option<IpAddr>
    ensures { result ≡ option_map (λ opening. opening.client) (opening_by kind.now answer) }
{
    match (kind, answer) {
        (EventKind::Connect { raw, .. }, _) => Some(raw.ip),
        (EventKind::Proxied { .. }, Answer::Header(Ok(line))) => Some(line.source.ip),
        _ => None,
    }
}

/// Takes the next entry.
pub(crate) fn hear(
    guests: &mut HashMap<u64, Guest>,
    alloc: Global,
    entry: &Entry,
) -> Result<(), AllocError>
    ensures heard { OnOk result ((s : ℕ) → map.get nat_eq guests.new s ≡ guest_by entry.now s (map.get nat_eq guests.old s)) }
    ensures unchanged { OnErr result ((s : ℕ) → map.get nat_eq guests.new s ≡ map.get nat_eq guests.old s) }
{
    match entry.decision.life() {
        Life::Opens => open(guests, alloc, entry),
        Life::Ends => {
            end(guests, entry);
            Ok(())
        }
        Life::Goes => go_on(guests, alloc, entry),
    }
}

// A session that opens.
fn open(guests: &mut HashMap<u64, Guest>, alloc: Global, entry: &Entry) -> Result<(), AllocError>
    requires { life entry.now.decision ≡ Opens }
    ensures heard { OnOk result ((s : ℕ) → map.get nat_eq guests.new s ≡ guest_by_life Opens entry.now s (map.get nat_eq guests.old s)) }
    ensures unchanged { OnErr result ((s : ℕ) → map.get nat_eq guests.new s ≡ map.get nat_eq guests.old s) }
{
    let Some(number) = entry.event.kind.new_number(Decision::Opened) else {
        return Ok(());
    };
    let Some(client) = client_by(&entry.event.kind, entry.answer) else {
        guests.remove(&number);
        return Ok(());
    };
    let guest = Guest::new(alloc, client)?;
    guests.insert(number, guest)?;
    Ok(())
}

// A session that ends, or all of them.
fn end(guests: &mut HashMap<u64, Guest>, entry: &Entry)
    ensures { (s : ℕ) → map.get nat_eq guests.new s ≡ guest_by_life Ends entry.now s (map.get nat_eq guests.old s) }
{
    if entry.decision.is_stop() {
        guests.clear();
        return;
    }
    if let Some(number) = entry.event.kind.named_session() {
        guests.remove(&number);
    }
}

// A session that goes on.
fn go_on(guests: &mut HashMap<u64, Guest>, alloc: Global, entry: &Entry) -> Result<(), AllocError>
    ensures heard { OnOk result ((s : ℕ) → map.get nat_eq guests.new s ≡ guest_by_life Goes entry.now s (map.get nat_eq guests.old s)) }
    ensures unchanged { OnErr result ((s : ℕ) → map.get nat_eq guests.new s ≡ map.get nat_eq guests.old s) }
{
    let Some(number) = entry.event.kind.named_session() else {
        return Ok(());
    };
    match guests.get_mut(&number) {
        Some(guest) => guest.hear(alloc, &entry.event.kind, entry.decision),
        None => Ok(()),
    }
}
