//! Who may log in.

ghost use Rattle.std.specs.Prelude.{◌≡◌, ℕ, Bool, true, List};
ghost use Rattle.ftp_base.specs.declared.login.AuthAnswer.{AuthAnswer};
ghost use Rattle.ftp_base.specs.declared.net.IpAddr.{IpAddr};
ghost use Rattle.ftp_base.specs.Login.{same_answer};

use crate::bytes::Bytes;
use crate::login::AuthAnswer;
use crate::net::IpAddr;

/// Checks names and passwords.
pub trait Authenticator {
    // Whether it may answer so for a name, a password and a client's address.
    ghost may_answer: { Self → List ℕ → List ℕ → IpAddr → AuthAnswer → Bool };

    /// Says whether the user logs in with the password from the client's address.
    ///
    /// # Proved
    ///
    /// - An authenticator gives one of the answers that its meaning allows for the name, the password and the address
    ///   (`may`).
    fn check(&self, user: &Bytes, password: &Bytes, source: IpAddr) -> AuthAnswer
        ensures may { may_answer self.now user.now password.now source result ≡ true };
}

/// Gives everybody the same answer.
#[derive(Clone, Copy, Debug, PartialEq, Eq)]
pub struct SameAnswer(pub AuthAnswer);

impl Authenticator for SameAnswer {
    ghost may_answer = { λ a user password source answer. same_answer answer a.0 };

    fn check(&self, _user: &Bytes, _password: &Bytes, _source: IpAddr) -> AuthAnswer
        ensures answer { result ≡ self.now.0 }
        ensures may { same_answer result self.now.0 ≡ true }
    {
        self.0
    }
}

impl Authenticator for Box<dyn Authenticator + Send + Sync + Drop> {
    ghost may_answer = { λ b. (Authenticator-box b).may_answer b.value };

    fn check(&self, user: &Bytes, password: &Bytes, source: IpAddr) -> AuthAnswer {
        (**self).check(user, password, source)
    }
}
