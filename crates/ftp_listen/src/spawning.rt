//! Worker threads.

ghost use Rattle.std.specs.Prelude.{◌≡◌, ◌≤◌, false};
ghost use Rattle.ftp_base.specs.Outside.{HasRisen};

use ftp_base::Spawner;
use ftp_shared::JournalHub;
use ftp_system::{Depot, ServerRuntime, start};
use ftp_workers::{SharedServices, StateOf, work};
use std::alloc::Global;
use std::sync::Arc;

/// Starts a thread that does tasks, and says whether the spawner did. Where nothing is left for one more thread to be
/// counted by, none is started either.
pub(crate) fn spawn_worker<
    R: ServerRuntime,
    H: JournalHub + Send + Sync + Drop + 'static,
    S: SharedServices,
    P: Spawner,
>(rt: &R, state: &Arc<StateOf<H, S>, Global>, spawner: &mut P) -> bool
where
    H::Pass: Send + 'static,
    <S::Depot as Depot>::Store: Send + 'static,
    <S::Depot as Depot>::Words: Send + 'static,
    ensures fault_rose { result ≡ false → HasRisen (P.faults spawner.old) (P.faults spawner.new) }
    ensures count { P.faults spawner.old ≤ P.faults spawner.new }
{
    let Some(pass) = state.share(rt) else {
        return true;
    };
    let Ok(theirs) = Arc::try_clone(state) else {
        state.take_back(rt, pass);
        return true;
    };
    let rt = *rt;
    start(&rt, spawner, move || work::<R, H, S>(rt, theirs, pass)).is_none()
}

/// Starts the threads that are wanted and those still missing from before, and says how many are missing then.
pub(crate) fn spawn_wanted<
    R: ServerRuntime,
    H: JournalHub + Send + Sync + Drop + 'static,
    S: SharedServices,
    P: Spawner,
>(rt: &R, state: &Arc<StateOf<H, S>, Global>, spawner: &mut P, owed: u64) -> u64
where
    H::Pass: Send + 'static,
    <S::Depot as Depot>::Store: Send + 'static,
    <S::Depot as Depot>::Words: Send + 'static,
    ensures count { P.faults spawner.old ≤ P.faults spawner.new }
{
    let wanted = owed.saturating_add(state.wanted());
    for started in 0..wanted {
        if !spawn_worker::<R, H, S, P>(rt, state, spawner) {
            return wanted - started;
        }
    }
    0
}
