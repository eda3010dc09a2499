//! How far a login is, and what is said of a password.

/// How far a session's login is.
#[derive(Clone, Copy, Debug, Default, PartialEq, Eq)]
pub enum SessionState {
    /// No user name was given, or a login failed since.
    #[default]
    New,
    /// A user name was given.
    WaitPass,
    /// The user is logged in.
    WaitCmd,
}

/// What an authenticator says of a name and a password.
#[derive(Clone, Copy, Debug, PartialEq, Eq)]
pub enum AuthAnswer {
    /// Nobody has this name.
    BadUser,
    /// The password is wrong.
    Refused,
    /// The account is switched off.
    Disabled,
    /// The storage does not let the user in.
    NotEntered,
    Good,
}

/// What a failed login says of the lock on its key.
#[derive(Clone, Copy, Debug, PartialEq, Eq)]
pub enum LockState {
    MaxFailuresReached,
    AlreadyLocked,
}
