//! What the server knows of one session.

ghost use Rattle.std.specs.Prelude.{◌≡◌, ◌≤◌, ◌∷◌, List, length, OnOk, IfOk};
ghost use Rattle.std.specs.List.{position_or_len};
ghost use Rattle.ftp_events.specs.declared.entry.Entry.{Entry};
ghost use Rattle.ftp_talk.specs.Commands.{is_colon, before_colon, name_of, looked_up, bound_in};
ghost use Rattle.ftp_talk.specs.Ground.{Ground};
ghost use Rattle.ftp_talk.specs.Speaking.{Begins, Knows};
ghost use Rattle.ftp_talk.specs.Turns.{is_end};

use ftp_base::{Bytes, IpAddr};
use ftp_events::{Decision, Entry, EventKind, Login};
use ftp_options::{Options, PassiveHost};
use ftp_transfer::join_path;
use std::alloc::{AllocError, Global};

/// A session, and the addresses of its peer and of its client, who differ where a proxy stands between.
#[derive(Clone, Copy, Debug, PartialEq, Eq)]
pub struct Peer {
    pub session: u64,
    pub raw: IpAddr,
    pub client: IpAddr,
}

/// What the server knows of the session, from the options and the entries of its talk.
#[derive(Drop)]
pub(crate) struct ControlSession {
    pub(crate) alloc: Global,
    pub(crate) session: u64,
    pub(crate) raw: IpAddr,
    pub(crate) client: IpAddr,
    // The name that a PASV looks up, and the range in which it binds a port.
    pub(crate) host: Option<Bytes>,
    pub(crate) range: Option<(u16, u16)>,
    pub(crate) is_active_off: bool,
    pub(crate) login: Login,
    pub(crate) name: Option<Bytes>,
    pub(crate) cwd: Bytes,
    pub(crate) is_over: bool,
    // The text that is sent next.
    pub(crate) text: Vec<u8>,
}

// Says whether the decision ends the session, or says that it has ended.
pub(crate) fn is_end(decision: Decision) -> bool
    ensures { result ≡ is_end decision }
{
    matches!(
        decision,
        Decision::UnknownNumber | Decision::Quit | Decision::Closed | Decision::TimedOut
    )
}

impl ControlSession {
    // Nothing is known of the session yet.
    pub(crate) fn open(
        alloc: Global,
        options: &Options,
        peer: Peer,
    ) -> Result<ControlSession, AllocError>
        ensures { IfOk result (λ t. Begins t peer options.now) }
    {
        let host = looked_up(alloc, options)?;
        let cwd = Bytes::from_slice(alloc, b"/")?;
        Ok(ControlSession {
            alloc,
            session: peer.session,
            raw: peer.raw,
            client: peer.client,
            host,
            range: bound_in(options),
            is_active_off: options.active_passive.is_active_off(),
            login: Login::New,
            name: None,
            cwd,
            is_over: false,
            text: Vec::new(alloc),
        })
    }

    // Takes in what an entry says of the session.
    pub(crate) fn learn(&mut self, entry: &Entry) -> Result<(), AllocError>
        ensures learnt { OnOk result ((g : Ground) (h : List Entry) → Knows g self.old h → Knows g self.new (entry.now ∷ h)) }
        ensures over { self.new.is_over ≡ is_end entry.now.decision }
        ensures session { self.new.session ≡ self.old.session }
    {
        self.is_over = is_end(entry.decision);
        match entry.decision {
            Decision::Opened | Decision::LoginFailed { .. } => self.login = Login::New,
            Decision::NeedPass => {
                if let EventKind::User { name, .. } = &entry.event.kind {
                    self.name = Some(name.copy(self.alloc)?);
                }
                self.login = Login::Named;
            }
            Decision::PassOut => self.login = Login::Checking,
            Decision::LoggedIn => self.login = Login::LoggedIn,
            Decision::CwdOk => {
                if let EventKind::Cwd { path, .. } = &entry.event.kind {
                    self.cwd = join_path(self.alloc, &self.cwd, path)?;
                }
            }
            _ => {}
        }
        Ok(())
    }
}

// The name that a PASV looks up.
fn looked_up(alloc: Global, options: &Options) -> Result<Option<Bytes>, AllocError>
    ensures { IfOk result (λ name. name ≡ looked_up options.now) }
{
    if options.active_passive.is_passive_off() {
        return Ok(None);
    }
    name_of(alloc, &options.host)
}

// The name that passive replies advertise, up to its first colon.
fn name_of(alloc: Global, host: &PassiveHost) -> Result<Option<Bytes>, AllocError>
    ensures { IfOk result (λ name. name ≡ name_of host.now) }
{
    match host {
        PassiveHost::Dns(name) => match before_colon(alloc, name.as_slice()) {
            Ok(part) => Ok(Some(part)),
            Err(error) => Err(error),
        },
        _ => Ok(None),
    }
}

// The part of a name before its first colon.
fn before_colon(alloc: Global, name: &[u8]) -> Result<Bytes, AllocError>
    ensures { IfOk result (λ part. part ≡ before_colon name.now) }
{
    Bytes::from_slice(alloc, &name[..colon_in(name)])
}

// How many bytes stand before the first colon.
fn colon_in(bytes: &[u8]) -> usize
    ensures count { result ≡ position_or_len is_colon bytes.now }
    ensures within { result ≤ length bytes.now }
{
    for (i, b) in bytes.iter().enumerate() {
        if *b == b':' {
            return i;
        }
    }
    bytes.len()
}

// The range in which a PASV binds a port of its own.
fn bound_in(options: &Options) -> Option<(u16, u16)>
    ensures { result ≡ bound_in options.now }
{
    if options.active_passive.is_passive_off() || !options.mode.is_legacy() {
        return None;
    }
    Some((options.lo, options.hi))
}
