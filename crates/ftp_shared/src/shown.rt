//! Storages that tell of their directories.

ghost use Rattle.std.specs.Prelude.{◌≡◌, ℕ, List, [], Some, None};
ghost use Rattle.ftp_base.specs.Storage.{Files, Directory, Metadata, item};

use ftp_base::{MemoryStorage, Storage};

/// A storage that does not refuse to tell of a directory which it has.
///
/// Of any other storage nobody can say by its calls whether a directory stands at a path.
pub trait ShowsDirectories: Storage {
    // Whoever asks for what stands at a directory is told.
    ghost shown: { (s : Self) (f : Files) (user path : List ℕ) → item f path ≡ Some Directory → Self.rule s [] f (Metadata user path) ≡ None };
}

impl ShowsDirectories for MemoryStorage {
    ghost use Rattle.std.proofs.Common.{ap};
    ghost use Rattle.ftp_base.specs.MemoryStorage.{unless_there};
    ghost use Rattle.ftp_base.specs.declared.error_kind.ErrorKind.TheVariants.{PermanentFileNotAvailable};

    ghost shown = { λ s f user path h. ap (λ i. unless_there i PermanentFileNotAvailable) h };
}
