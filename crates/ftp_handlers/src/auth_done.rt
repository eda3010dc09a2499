//! What follows on a password that was checked.

ghost use Rattle.std.specs.Prelude.{◌≡◌, ◌+◌, ◌<◌, ◌^◌, false, IsTrue, Option, None, Some, codes, unwrap_or, if◌then◌else◌};
ghost use Rattle.std.specs.Option.{option_and_then};
ghost use Rattle.ftp_base.specs.declared.login.AuthAnswer.TheVariants as auth;
ghost use Rattle.ftp_base.specs.declared.login.LockState.TheVariants.{AlreadyLocked};
ghost use Rattle.ftp_options.specs.declared.lockout.FailedLoginsPolicy.{FailedLoginsPolicy};
ghost use Rattle.ftp_lockout.specs.declared.key.LoginKey.{LoginKey};
ghost use Rattle.ftp_lockout.specs.Keys.{same_key};
ghost use Rattle.ftp_lockout.specs.Failures.{failures_of, is_locked, let_in, lock_state, one_more};
ghost use Rattle.ftp_events.specs.declared.session.Running.{Running};
ghost use Rattle.ftp_events.specs.declared.event.Answer.{Answer};
ghost use Rattle.ftp_events.specs.declared.event.EventKind.TheVariants.{AuthDone};
ghost use Rattle.ftp_events.specs.CommandRows.{own_failures};
ghost use Rattle.ftp_events.specs.Lockout.{failures_by, login_key};
ghost use Rattle.ftp_events.specs.LoginRows.{answer_row, auth_row, password_row};
ghost use Rattle.ftp_events.specs.Session.{session_after};
ghost use Rattle.ftp_events.specs.Acts.{session_acts};
ghost use Rattle.ftp_events.specs.Words.{◌⇒◌∣◌};
ghost use Rattle.ftp_handlers.specs.Rooms.{IsReady, actions_in, kept_in, twice_in};
ghost use Rattle.ftp_handlers.specs.Handlers.{goes_on, kept_by, notices_of, failures_in, failures_left, policy_in, login_decision, CanCount, HasSpare};

use crate::room::Room;
use ftp_base::{AuthAnswer, Bytes, LockState, PresenceEvent, ReplyCode};
use ftp_events::{Decision, Login, Session, wording};
use ftp_lockout::FailedLoginsCache;
use ftp_options::Options;

/// How long a refusal waits that is told on a locked key, in milliseconds.
const LOCKED_DELAY: u32 = 1500;

/// Why a login is refused, and after how many milliseconds that is told.
#[derive(Clone, Copy)]
pub(crate) struct Refusal {
    lock: Option<LockState>,
    delay: u32,
}

/// Logs the user in where the answer is good and the key of the login is not locked, and forgets the login where it is.
/// A password that is wrong is counted.
pub(crate) fn handle(
    session: &mut Session,
    number: u64,
    said: AuthAnswer,
    failures: &mut Option<FailedLoginsCache>,
    room: &mut Room,
    at: u64,
    options: &Options,
) -> Decision
    requires room { IsReady room.old }
    requires kept { kept_in room.old ≡ kept_by (AuthDone number said) session.old }
    requires count { CanCount failures.old options.now }
    ensures goes_on { IsTrue (goes_on result) }
    ensures decision { result ≡ auth_row options.now.lockout at (own_failures options.now (failures_in failures.old) session.old) said session.old.login }
    ensures session { session.old.notices + 1 < 2 ^ 64 → (answer : Answer) (job : Option Running) → session.new ≡ session_after at (AuthDone number said) answer result (notices_of (AuthDone number said) result answer) job session.old }
    ensures actions { session.old.notices + 1 < 2 ^ 64 → (answer : Answer) (job : Option Running) → actions_in room.new ≡ session_acts options.now number (AuthDone number said) answer result job (Some session.old) }
    ensures failures { (p : FailedLoginsPolicy) → options.now.lockout ≡ Some p → (key : LoginKey) → failures_in failures.new key ≡ failures_left p session.old key (AuthDone number said) at (failures_in failures.old key) }
    ensures policy { policy_in failures.new ≡ policy_in failures.old }
    ensures twice { twice_in room.new ≡ twice_in room.old }
{
    if !matches!(session.login, Login::Checking) {
        return Decision::NotExpected;
    }
    session.active_at = at;
    if let Some(refusal) = weigh(failures, said, session, room, at) {
        session.login = Login::New;
        room.reply_late(
            number,
            refusal.delay,
            ReplyCode::NotLoggedIn,
            wording::AUTH_FAILED,
        );
        return Decision::LoginFailed {
            lock: refusal.lock,
            delay: refusal.delay,
        };
    }
    session.login = Login::LoggedIn;
    session.notices = session.notices.saturating_add(1);
    room.notify_presence(
        number,
        session.opening.trace,
        session.notices,
        PresenceEvent::LoggedIn,
    );
    room.reply(number, ReplyCode::UserLoggedIn, wording::LOGGED_IN);
    Decision::LoggedIn
}

// Counts what was said of the password, and says why the login is refused, where it is.
fn weigh(
    failures: &mut Option<FailedLoginsCache>,
    answer: AuthAnswer,
    session: &Session,
    room: &mut Room,
    at: u64,
) -> Option<Refusal>
    requires kept { kept_in room.old ≡ unwrap_or session.now.name (codes "unknown") }
    requires spare { HasSpare failures.old }
    ensures decision { login_decision result ≡ password_row (policy_in failures.old) at (option_and_then (λ p. failures_in failures.old (login_key p session.now)) (policy_in failures.old)) answer }
    ensures failures { (p : FailedLoginsPolicy) → policy_in failures.old ≡ Some p → (key : LoginKey) → failures_in failures.new key ≡ (same_key (login_key p session.now) key ⇒ failures_by answer p at (failures_in failures.old key) ∣ failures_in failures.old key) }
    ensures policy { policy_in failures.new ≡ policy_in failures.old }
    ensures kept { result ≡ None → kept_in room.new ≡ kept_in room.old }
    ensures same { room.new ≡ record room.old { kept = room.new.kept } }
{
    let Some(cache) = failures else {
        return unless_good(answer);
    };
    match answer {
        AuthAnswer::BadUser => unless_good(answer),
        AuthAnswer::Refused => Some(Refusal {
            lock: count(cache, session, room.take_kept(), at),
            delay: 0,
        }),
        AuthAnswer::Disabled | AuthAnswer::NotEntered | AuthAnswer::Good => {
            match let_in(cache, session, room, at) {
                Some(lock) => Some(Refusal {
                    lock: Some(lock),
                    delay: LOCKED_DELAY,
                }),
                None => unless_good(answer),
            }
        }
    }
}

// Counts a wrong password, and says what that makes of the lock.
fn count(
    cache: &mut FailedLoginsCache,
    session: &Session,
    name: Bytes,
    at: u64,
) -> Option<LockState>
    requires kept { name ≡ unwrap_or session.now.name (codes "unknown") }
    requires spare { 0 < cache.old.spare }
    ensures lock { result ≡ lock_state cache.old.policy (one_more cache.old.policy at (failures_of cache.old (login_key cache.old.policy session.now))).count }
    ensures failures { (key : LoginKey) → failures_of cache.new key ≡ (same_key (login_key cache.old.policy session.now) key ⇒ failures_by auth.Refused cache.old.policy at (failures_of cache.old key) ∣ failures_of cache.old key) }
    ensures policy { cache.new.policy ≡ cache.old.policy }
{
    match cache.failed(at, session.opening.client, name) {
        Ok(lock) => lock,
        Err(_) => unreachable!(),
    }
}

// Forgets what failed before a login that is let in, and says whether its key is locked.
fn let_in(
    cache: &mut FailedLoginsCache,
    session: &Session,
    room: &mut Room,
    at: u64,
) -> Option<LockState>
    requires kept { kept_in room.old ≡ unwrap_or session.now.name (codes "unknown") }
    ensures lock { result ≡ (if is_locked cache.old.policy at (failures_of cache.old (login_key cache.old.policy session.now)) then Some AlreadyLocked else None) }
    ensures failures { (key : LoginKey) → failures_of cache.new key ≡ (same_key (login_key cache.old.policy session.now) key ⇒ let_in cache.old.policy at (failures_of cache.old key) ∣ failures_of cache.old key) }
    ensures policy { cache.new.policy ≡ cache.old.policy }
    ensures kept { kept_in room.new ≡ kept_in room.old }
    ensures same { room.new ≡ record room.old { kept = room.new.kept } }
{
    let (name, copy) = room.take_both();
    let lock = cache.success(at, session.opening.client, &name);
    room.put_both(name, copy);
    lock
}

// Refuses each answer but a good one.
fn unless_good(answer: AuthAnswer) -> Option<Refusal>
    ensures decision { login_decision result ≡ answer_row answer None false }
{
    match answer {
        AuthAnswer::Good => None,
        AuthAnswer::BadUser | AuthAnswer::Refused | AuthAnswer::Disabled | AuthAnswer::NotEntered =>
            Some(Refusal {
                lock: None,
                delay: 0,
            }),
    }
}
