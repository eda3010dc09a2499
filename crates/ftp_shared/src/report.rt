//! What is told of a job on its way.

ghost use Rattle.std.specs.Prelude.{◌≡◌, ◌<◌, ◌&&◌, false, nat_lt};
ghost use Rattle.std.specs.Int.{is_power_of_two};
ghost use Rattle.ftp_shared.specs.Reports.{HasTold};
ghost use Rattle.ftp_shared.specs.Next.{is_moved};
ghost use Rattle.ftp_transfer.specs.Transfer.{is_listing};

use crate::receipt::MOST_BYTES;
use crate::{FinishError, JobShare, JournalHub, Submitted};
use ftp_base::Edge;
use ftp_events::Decision;
use std::sync::Wait;

/// What became of a job of which a piece may have been told.
#[derive(Drop)]
pub(crate) enum Reported {
    GoesOn(JobShare),
    /// It is over, by this entry.
    Over(Submitted),
}

/// Tells a piece of a job, where it is to stop or enough pieces have moved since one was told.
///
/// The piece has the bytes that were not told yet, but for those above 8,192. Where its entry is not added nothing is told.
pub(crate) fn report<R: Wait, H: JournalHub, E: Edge>(
    rt: &R,
    hub: &H,
    pass: &mut H::Pass,
    job: JobShare,
    done: u64,
    count: u64,
    edge: &mut E,
) -> Reported
    requires file { is_listing job.command ≡ false }
    requires more { job.done < done }
    ensures { HasTold H.options H.counts job done (E.view edge.old) (E.view edge.new) (H.made pass.old) (H.made pass.new) result }
{
    if !is_due(count) && !job.is_marked() {
        return Reported::GoesOn(job);
    }
    let bytes = (done - job.done()).min(MOST_BYTES);
    let at = edge.now();
    match hub.piece(rt, pass, job, at, bytes) {
        Err(FinishError { job, cause: _ }) => Reported::GoesOn(job),
        Ok(submitted) => {
            if !is_moved(submitted.receipt.entry.decision) {
                return Reported::Over(submitted);
            }
            match job_in(submitted) {
                Some(job) => Reported::GoesOn(job),
                None => unreachable!(),
            }
        }
    }
}

// Says whether a piece of a job that is not to stop is told: from the second on each whose number is a power of two.
fn is_due(count: u64) -> bool
    ensures { result ≡ (nat_lt 1 count && is_power_of_two count) }
{
    count > 1 && count.is_power_of_two()
}

// The job that comes with an entry.
fn job_in(submitted: Submitted) -> Option<JobShare>
    ensures { result ≡ submitted.job }
{
    let Submitted { receipt, job } = submitted;
    drop(receipt);
    job
}

/// Says whether a piece was counted, and its job goes on.
pub(crate) fn is_moved(decision: Decision) -> bool
    ensures { result ≡ is_moved decision }
{
    matches!(decision, Decision::Moved)
}
