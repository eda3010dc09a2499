//! What states are of logs. The functions do nothing: their clauses are the laws.

ghost use Rattle.ftp_hub.specs.Refused.{LogsPass};
ghost use Rattle.ftp_hub.specs.State.{EqualStatesStandAlike, HubsTellStates, LiveSessionsAreTidy, RunningJobsAreOwn, StatesGiveHubs};

/// What a hub tells is the state of each log that it stands for, and a hub that is made from it stands for each of these.
///
/// # Proved
///
/// - What the tables of a hub tell is the state of each log that the hub stands for (`told`).
/// - A hub that tells the state of a right and acted log, and whose ports are held by the sessions that wait for them, stands
///   for the log (`stands`); so a hub that stands for one log stands for every other with its state (`alike`).
pub fn states_stand_for_logs()
    ensures told { HubsTellStates }
    ensures stands { StatesGiveHubs }
    ensures alike { EqualStatesStandAlike }
{}

/// The lines of the sessions and of the jobs of a hub that stands for a log tell all of them.
///
/// # Proved
///
/// - Of a hub that stands for a log each live session has an age only where it has a slot, and its transfer waits in the slot,
///   for its user (`sessions`); each job is of the session that it stands for (`jobs`); directories and paths begin with a
///   slash (`sessions`, `jobs`).
pub fn sessions_are_told()
    ensures sessions { LiveSessionsAreTidy }
    ensures jobs { RunningJobsAreOwn }
{}

/// The state of a right and acted log gives cause to no refusal.
///
/// # Proved
///
/// - The state of a right and acted log gives cause to no refusal (its records are of keys that the policy makes) (`passes`).
pub fn states_of_logs_pass()
    ensures passes { LogsPass }
{}
