//! A whole log at once.

ghost use Rattle.std.specs.Prelude.{IfOk};
ghost use Rattle.ftp_options.specs.declared.options.Options.{Options};
ghost use Rattle.ftp_events.specs.Right.{IsRight, IsActed};
ghost use Rattle.ftp_audit.specs.Heard.{HasHeard, Stands};

use crate::audit::Audit;
use ftp_events::Log;
use ftp_hub::PrepareError;
use std::alloc::Global;

/// Takes the entries of a log, as that of a journal when all threads were joined, the oldest first.
pub fn audited(alloc: Global, log: &Log) -> Result<Audit, PrepareError>
    ensures heard { IfOk result (λ audit. HasHeard audit log.now.entries) }
    ensures stands { IfOk result (λ audit. (o : Options) → IsRight o log.now.entries → IsActed o log.now.entries → Stands o audit log.now.entries) }
{
    let mut audit = Audit::new(alloc);
    for entry in log.as_slice() {
        audit.take(entry)?;
    }
    Ok(audit)
}
