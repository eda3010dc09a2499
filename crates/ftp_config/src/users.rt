//! The users of a file.

ghost use Rattle.std.specs.Prelude.{◌≡◌, ℕ, ◌++◌, ◌∷◌, [], List, true, not, is_some, if◌then◌else◌, Some, IfOk};
ghost use Rattle.std.specs.Option.{option_copied};
ghost use Rattle.std.specs.Str.{bytes_eq};
ghost use Rattle.ftp_config.specs.Verdict.{tried_hash, said_to};
ghost use Rattle.ftp_config.specs.Users.{is_passed_over, named, user_named, users_in, is_good_behind, HasUsersOf};

use crate::line::spelled_user;
use crate::parts::parts;
use crate::user::{Credential, PasswordHash, User};
use ftp_base::{AuthAnswer, Authenticator, Bytes, IpAddr};
use std::alloc::{AllocError, Global};
use std::collections::BTreeMap;
use std::collections::btree_map::Iter;
use std::marker::Model;

/// Why a file has no users.
#[derive(Clone, Copy, Debug, PartialEq, Eq)]
pub enum UsersError {
    /// The line of this number spells no user, or one whose name an earlier line has. Lines are counted from 1.
    Line(u64),
    OutOfMemory,
}

impl From<AllocError> for UsersError {
    ghost use Rattle.std.specs.Prelude.{◌≡◌};
    ghost use Rattle.ftp_config.specs.declared.users.UsersError.TheVariants as error;

    ghost from_gives = { λ _ e. e ≡ error.OutOfMemory };

    fn from(_e: AllocError) -> UsersError {
        UsersError::OutOfMemory
    }
}

/// Users by their names, which contracts see in byte order.
#[derive(Drop)]
pub struct Users {
    by_name: BTreeMap<Vec<u8>, User>,
    // What a password is tried on where a name has no hash, so that the time does not tell names.
    stand_in: PasswordHash,
}

impl Model for Users {
    ghost use Rattle.std.specs.Prelude.{ℕ, List};
    ghost use Rattle.ftp_config.specs.declared.user.User.{User};
    ghost use Rattle.ftp_config.specs.Users.{named};

    ghost Value = { List (List ℕ × User) };

    ghost view = { λ u. named u.by_name.entries };
}

// Says whether a line is blank or a comment.
fn is_passed_over(line: &[u8]) -> bool
    ensures { result ≡ is_passed_over line.now }
{
    for b in line {
        if *b == b'#' {
            return true;
        }
        if *b != b' ' && *b != b'\t' {
            return false;
        }
    }
    true
}

// The user of a name.
fn user_named<'a>(users: &'a BTreeMap<Vec<u8>, User>, name: &[u8]) -> Option<&'a User>
    ensures { option_copied result ≡ user_named name.now (named users.now.entries) }
{
    users.get(name)
}

// A hash of as many rounds as the users' hashes have at most.
fn stand_in(alloc: Global, users: &BTreeMap<Vec<u8>, User>) -> PasswordHash {
    let mut rounds = 1;
    for user in users.values() {
        if let Credential::Hash(hash) = &user.credential {
            rounds = rounds.max(hash.rounds);
        }
    }
    PasswordHash {
        rounds,
        salt: Bytes::from_vec(Vec::new(alloc)),
        key: [0; 32],
    }
}

// The hash that a password is tried on.
fn hash_to_try<'a>(user: Option<&'a User>, stand_in: &'a PasswordHash) -> &'a PasswordHash
    ensures { result.now ≡ tried_hash (option_copied user.entry) stand_in.now }
{
    match user {
        Some(user) => user.credential.hash_or(stand_in),
        None => stand_in,
    }
}

// What is said where the password is right for the hash that it was tried on, or is not.
fn said_to(user: Option<&User>, right: bool) -> AuthAnswer
    ensures { result ≡ said_to (option_copied user.entry) right }
{
    match user {
        Some(user) => user.credential.answer(right),
        None => AuthAnswer::BadUser,
    }
}

// Adds a user, unless there is one of its name, and says whether it did.
fn add(users: &mut BTreeMap<Vec<u8>, User>, name: Vec<u8>, user: User) -> Result<bool, AllocError>
    ensures added { IfOk result (λ added. added ≡ not (is_some (user_named name.items (named users.old.entries)))) }
    ensures users { IfOk result (λ added. added ≡ true → (q : List ℕ) → user_named q (named users.new.entries) ≡ (if bytes_eq q name.items then Some user else user_named q (named users.old.entries))) }
{
    if user_named(users, name.as_slice()).is_some() {
        return Ok(false);
    }
    users.insert(name, user)?;
    Ok(true)
}

// Takes in a line, and says whether it is good behind the lines before it.
fn take_line(
    alloc: Global,
    users: &mut BTreeMap<Vec<u8>, User>,
    line: &[u8],
) -> Result<bool, AllocError>
    ensures good { (before : List (List ℕ)) → HasUsersOf users.old.entries before → IfOk result (λ good. good ≡ is_good_behind before line.now) }
    ensures users { (before : List (List ℕ)) → HasUsersOf users.old.entries before → IfOk result (λ good. good ≡ true → HasUsersOf users.new.entries (before ++ line.now ∷ [])) }
{
    if is_passed_over(line) {
        return Ok(true);
    }
    match spelled_user(alloc, line)? {
        Some((name, user)) => add(users, name.into_vec(), user),
        None => Ok(false),
    }
}

impl Users {
    ghost use Rattle.std.specs.Prelude.{◌≡◌, ◌↔◌, ℕ, List, map, IfOk, IfErr};
    ghost use Rattle.std.specs.Option.{option_copied};
    ghost use Rattle.ftp_config.specs.Users.{lines_of_file, named, users_in, user_named, AreGood};
    ghost use Rattle.ftp_config.specs.Faults.{NamesFirstBad};
    ghost use Rattle.ftp_base.specs.declared.login.AuthAnswer.TheVariants.{Good};
    ghost use Rattle.ftp_config.specs.Verdict.{answer_for, MayLogIn};

    /// Reads a file of users, with a line `NAME:HASH:RIGHTS:HOME` or `NAME:HASH:RIGHTS:HOME:BUDGET` for each. Blank lines,
    /// and those of which the first byte that is not blank is `#`, are passed over.
    ///
    /// HASH is `$pbkdf2-sha256$ROUNDS$SALT$KEY`, the last two in hexadecimal digits, or `*` where every password is right,
    /// or `!` where none is. RIGHTS are `rw` or `ro`. HOME is an absolute path. BUDGET is a number of bytes, or of the power
    /// of 1024 that `K`, `M` or `G` behind it stands for.
    ///
    /// # Proved
    ///
    /// - The users are those that the lines spell, each with its name, and no two have one name (`users`, `good`; also
    ///   `lines_are_spelled`: `spelled`).
    /// - A file is refused exactly where a line spells no user or one whose name an earlier line has, and the error names the
    ///   first such line (`good`, `line`).
    pub fn read(alloc: Global, text: &[u8]) -> Result<Users, UsersError>
        ensures users { IfOk result (λ users. (name : List ℕ) → user_named name users ≡ user_named name (users_in (lines_of_file text.now))) }
        ensures good { IfOk result (λ _. AreGood (lines_of_file text.now)) }
        ensures line { IfErr result (λ e. NamesFirstBad e (lines_of_file text.now)) }
    {
        let lines = parts(alloc, text, b'\n')?;
        Users::of_lines(alloc, lines.as_slice())
    }

    // The users that lines spell.
    fn of_lines(alloc: Global, lines: &[&[u8]]) -> Result<Users, UsersError>
        ensures users { IfOk result (λ users. (name : List ℕ) → user_named name users ≡ user_named name (users_in (map (λ l. l.now) lines.now))) }
        ensures good { IfOk result (λ _. AreGood (map (λ l. l.now) lines.now)) }
        ensures line { IfErr result (λ e. NamesFirstBad e (map (λ l. l.now) lines.now)) }
    {
        let mut by_name = BTreeMap::new(alloc);
        for (i, line) in lines.iter().enumerate() {
            if !take_line(alloc, &mut by_name, *line)? {
                return Err(UsersError::Line(i as u64 + 1));
            }
        }
        let stand_in = stand_in(alloc, &by_name);
        Ok(Users { by_name, stand_in })
    }

    /// The user of a name, in a time that grows with the logarithm of the count of users.
    ///
    /// # Proved
    ///
    /// - The user is that of the name, where there is one.
    pub fn find(&self, name: &[u8]) -> Option<&User>
        ensures { option_copied result ≡ user_named name.now self.now }
    {
        user_named(&self.by_name, name)
    }

    /// One user after another with its name, in the byte order of the names.
    pub fn iter(&self) -> Iter<'_, Vec<u8>, User>
        ensures { named result ≡ self.now }
    {
        self.by_name.iter()
    }

    /// Says whether a user logs in with a password.
    ///
    /// The password is tried on a hash also where nobody has the name, or the user has no hash, so that the time does not tell
    /// which names there are; no clause says that.
    ///
    /// # Proved
    ///
    /// - Good is said exactly where the file has a user of the name, and every password lets it in, or the password derives the
    ///   key of its hash (`good`).
    /// - Nobody has the name exactly where that is said, a disabled user is said to be disabled, and every other password is
    ///   refused (`answer`).
    pub fn verify(&self, name: &[u8], password: &[u8]) -> AuthAnswer
        ensures answer { result ≡ answer_for (user_named name.now self.now) password.now }
        ensures good { (result ≡ Good) ↔ MayLogIn self.now name.now password.now }
    {
        let user = self.find(name);
        let right = hash_to_try(user, &self.stand_in).verify(password);
        said_to(user, right)
    }
}

impl Authenticator for Users {
    ghost use Rattle.std.specs.Prelude.{◌≡◌, true};
    ghost use Rattle.ftp_base.specs.Login.{same_answer};
    ghost use Rattle.ftp_config.specs.Users.{user_named};
    ghost use Rattle.ftp_config.specs.Verdict.{answer_for};

    ghost may_answer = { λ users name password source answer. same_answer answer (answer_for (user_named name users) password) };

    fn check(&self, user: &Bytes, password: &Bytes, _source: IpAddr) -> AuthAnswer
        ensures answer { result ≡ answer_for (user_named user.now self.now) password.now }
        ensures may { same_answer result (answer_for (user_named user.now self.now) password.now) ≡ true }
    {
        self.verify(user.as_slice(), password.as_slice())
    }
}
