//! The words that look at files and change them, over any archive.

ghost use Rattle.std.specs.Prelude.{◌≡◌, ◌≤◌, ℕ, true, false, List, Option, None, IfOk, OnErr};
ghost use Rattle.ftp_control.specs.declared.command.Command.{Command};
ghost use Rattle.ftp_extras.specs.declared.archive.Request.TheVariants.{Look};
ghost use Rattle.ftp_extras.specs.declared.extra.Extra.{Extra};
ghost use Rattle.ftp_extras.specs.declared.plan.Plan.TheVariants.{Ask};
ghost use Rattle.ftp_extras.specs.Archive.{ArchiveKept, is_sound};
ghost use Rattle.ftp_extras.specs.Answers.{IsErrorOf, IsResponseTo, IsTold, IsDone, MayDo, DoneBy, asking_user};
ghost use Rattle.ftp_extras.specs.Extra.{AskerView, seen, is_beside, IsWhole, gives_password};

use crate::answer::{kept_for_next, reply_by};
use crate::archive::{Archive, Request, Response};
use crate::extra::{Asker, ExtraResult, Extras};
use crate::plan::{Offers, Plan, plan_of};
use ftp_base::{Bytes, StoreError};
use ftp_control::Command;
use std::alloc::{AllocError, Global};

/// Answers the words that clients send beside the profile's, over an archive, and refuses a transfer at once whose file or
/// directory is not there.
#[derive(Drop)]
pub struct FileExtras<S: Archive + Drop> {
    alloc: Global,
    offers: Offers,
    store: S,
    // What RNFR named on the line before.
    pending: Option<Bytes>,
}

// What an error answers.
fn response_to(error: StoreError) -> Result<Response, AllocError>
    ensures { IfOk result (IsErrorOf error) }
{
    match error {
        StoreError::Kind(kind) => Ok(Response::Refused(kind)),
        StoreError::Failed => Ok(Response::Failed),
        StoreError::OutOfMemory => Err(AllocError),
    }
}

// What the outcome of a change answers.
fn response_of(outcome: Result<(), StoreError>) -> Result<Response, AllocError>
    ensures { IfOk result (IsResponseTo outcome) }
{
    match outcome {
        Ok(()) => Ok(Response::Done),
        Err(error) => response_to(error),
    }
}

// Looks at a path.
fn look<S: Archive>(store: &mut S, user: &Bytes, path: &Bytes) -> Result<Response, AllocError>
    ensures told { IfOk result (IsTold (S.refusals store.old) (S.files store.old) (S.files store.new) (S.faults store.old, S.faults store.new) user.now (Look path.now)) }
    ensures archive_kept { ArchiveKept S.refusals S.faults store.old store.new }
{
    match store.look(user, path) {
        Ok(found) => Ok(Response::Found(found)),
        Err(error) => response_to(error),
    }
}

// Asks an archive.
fn ask<S: Archive>(store: &mut S, user: &Bytes, request: &Request) -> Result<Response, AllocError>
    requires sound { is_sound request.now ≡ true }
    ensures told { IfOk result (IsTold (S.refusals store.old) (S.files store.old) (S.files store.new) (S.faults store.old, S.faults store.new) user.now request.now) }
    ensures archive_kept { ArchiveKept S.refusals S.faults store.old store.new }
{
    match request {
        Request::Look { path } => look(store, user, path),
        Request::Remove { path } => response_of(store.remove(user, path)),
        Request::MakeDirectory { path } => response_of(store.make_directory(user, path)),
        Request::RemoveDirectory { path } => response_of(store.remove_directory(user, path)),
        Request::Rename { from, to } => response_of(store.rename(user, from, to)),
        Request::SetModified { path, at } => response_of(store.set_modified(user, path, at)),
    }
}

// The name under which the archive is asked.
fn asking_user(alloc: Global, asker: &Asker<'_>) -> Result<Bytes, AllocError>
    ensures { IfOk result (λ user. user ≡ asking_user (seen asker.now)) }
{
    match asker.name {
        Some(name) => name.copy(alloc),
        None => Bytes::from_slice(alloc, b"unknown"),
    }
}

impl<S: Archive + Drop> FileExtras<S> {
    /// The words over an archive, before any line.
    pub fn new(alloc: Global, offers: Offers, store: S) -> FileExtras<S>
        ensures offers { result.offers ≡ offers }
        ensures store { result.store ≡ store }
        ensures pending { result.pending ≡ None }
    {
        FileExtras {
            alloc,
            offers,
            store,
            pending: None,
        }
    }

    /// From now on they are words over this archive. What was kept of the line before stays.
    pub fn go_on_over(&mut self, store: S)
        ensures { self.new ≡ record self.old { store = store } }
    {
        self.store = store;
    }

    // Asks the archive, and says what is done by its answer.
    fn carry_out(&mut self, asker: &Asker<'_>, command: &Command, request: Request) -> ExtraResult
        requires sound { is_sound request ≡ true }
        ensures done { IfOk result (λ x. IsDone (λ r s. IsTold (S.refusals self.old.store) (S.files self.old.store) (S.files self.new.store) (S.faults self.old.store, S.faults self.new.store) (asking_user (seen asker.now)) r s) command.now (Ask request) x self.new.pending) }
        ensures archive_kept { ArchiveKept S.refusals S.faults self.old.store self.new.store }
        ensures offers { self.new.offers ≡ self.old.offers }
    {
        let user = asking_user(self.alloc, asker)?;
        let response = ask(&mut self.store, &user, &request)?;
        self.pending = kept_for_next(self.alloc, command, &request, response)?;
        reply_by(self.alloc, command, request, response)
    }
}

impl<S: Archive + Drop> Extras for FileExtras<S> {
    ghost pending = { λ x. x.pending };

    ghost may = { λ x who before c line y after. MayDo x.offers who before c line y after };

    ghost faults = { λ x. S.faults x.store };

    // # Proved
    //
    // - Each word is answered by its definition, as the archive has answered; where that tells its files, a change is told
    //   only where it was made, what is refused is refused by the archive's rule, and what was found stands there
    //   (`done`).
    // - RNTO moves only what RNFR found on the line before; no word but the open ones does anything before the login
    //   (`may`, `done`).
    fn hear(&mut self, asker: Asker<'_>, command: &Command, line: &[u8]) -> ExtraResult
        requires password { gives_password command.now ≡ false }
        ensures may { IfOk result (λ x. MayDo self.old.offers (seen asker.entry) self.old.pending command.now line.now x self.new.pending) }
        ensures done { IfOk result (λ x. DoneBy (S.refusals self.old.store) (S.files self.old.store) (S.files self.new.store) (S.faults self.old.store, S.faults self.new.store) self.old.offers (seen asker.entry) self.old.pending command.now line.now x self.new.pending) }
        ensures kept { (who : AskerView) (before : Option (List ℕ)) (c : Command) (l : List ℕ) (x : Extra) (after : Option (List ℕ)) →
            MayDo self.new.offers who before c l x after → MayDo self.old.offers who before c l x after }
        ensures beside { IfOk result (λ x. is_beside command.now x ≡ true) }
        ensures whole { IfOk result IsWhole }
        ensures archive_kept { ArchiveKept S.refusals S.faults self.old.store self.new.store }
        ensures count { S.faults self.old.store ≤ S.faults self.new.store }
    {
        let pending = self.pending.take();
        match plan_of(self.alloc, self.offers, &asker, pending, command, line)? {
            Plan::Do(extra) => Ok(extra),
            Plan::Ask(request) => {
                let done = self.carry_out(&asker, command, request)?;
                Ok(done)
            }
        }
    }
}
