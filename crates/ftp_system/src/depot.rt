//! Where the threads of a server take their storages from.

ghost use Rattle.std.specs.Prelude.{◌≡◌, IfOk};

use ftp_base::Storage;
use ftp_extras::Extras;
use std::alloc::AllocError;

/// Gives a storage to each transfer, and to each look at a path on a control connection, which is dropped with it.
///
/// So transfers need not share a lock, and what is kept of a transfer, as an open file, ends where it does.
pub trait Depot {
    /// A storage of one transfer.
    type Store: Storage + Drop;

    /// What a session may do beyond the profile.
    type Words: Extras + Drop;

    /// A storage that was not called yet.
    ///
    /// # Proved
    ///
    /// - What a storage counts of faults is of its own calls alone (`fresh`).
    fn store(&self) -> Result<Self::Store, AllocError>
        ensures fresh { IfOk result (λ store. Self.Store.faults store ≡ 0) };

    /// The words of one session, before its first line.
    fn words(&self) -> Result<Self::Words, AllocError>;
}
