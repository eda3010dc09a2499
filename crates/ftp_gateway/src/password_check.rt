//! Who may log in: the users that count.

use crate::current_users::UserSource;
use ftp_base::{AuthAnswer, Authenticator, Bytes, IpAddr};
use std::alloc::{AllocError, Global};
use std::sync::{Mutex, Wait};

/// Checks passwords against the users that count, few at a time, so that logins leave processors to transfers.
#[derive(Drop)]
pub struct PasswordCheck<R: Wait + Drop, S: UserSource + Drop> {
    rt: R,
    source: S,
    // Whoever checks a password holds one of these, each login the one behind that of the login before.
    turns: Vec<Mutex<()>>,
    last: Mutex<usize>,
}

impl<R: Wait + Drop, S: UserSource + Drop> PasswordCheck<R, S> {
    /// Checks against the users of this source, at most so many passwords at a time, and at least one.
    pub fn new(
        rt: R,
        alloc: Global,
        source: S,
        most: usize,
    ) -> Result<PasswordCheck<R, S>, AllocError> {
        let mut turns = Vec::new(alloc);
        for _ in 0..most.max(1) {
            turns.push(Mutex::new(()))?;
        }
        Ok(PasswordCheck {
            rt,
            source,
            turns,
            last: Mutex::new(0),
        })
    }
}

impl<R: Wait + Drop, S: UserSource + Drop> Authenticator for PasswordCheck<R, S> {
    ghost use Rattle.std.specs.Prelude.{◌||◌};
    ghost use Rattle.ftp_base.specs.Login.{same_answer};
    ghost use Rattle.ftp_base.specs.declared.login.AuthAnswer.TheVariants.{NotEntered};

    // The answer that users have whom the source gave, or that nobody is let in.
    ghost may_answer = { λ c user password _ answer. same_answer answer NotEntered || S.may_answer c.source user password answer };

    // # Proved
    //
    // - A user is let in only where users whom the source gave have that answer for the name and the password; where there is no memory
    //   for them nobody is.
    fn check(&self, user: &Bytes, password: &Bytes, _source: IpAddr) -> AuthAnswer {
        let at = {
            let mut last = self.last.lock(&self.rt);
            let behind = last.saturating_add(1);
            *last = if behind < self.turns.len() { behind } else { 0 };
            *last
        };
        let Some(turn) = self.turns.get(at) else {
            return AuthAnswer::NotEntered;
        };
        let _turn = turn.lock(&self.rt);
        match self.source.users() {
            Ok(table) => table.users.verify(user.as_slice(), password.as_slice()),
            Err(_) => AuthAnswer::NotEntered,
        }
    }
}
