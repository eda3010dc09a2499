//! What holds of all headers.

ghost use Rattle.std.specs.Prelude.{◌≡◌, ℕ, ◌++◌, List};
ghost use Rattle.ftp_proxy.specs.V2Header.{IsHeader};

use crate::v2_header::Header2;

/// No header begins another, and none has two meanings.
///
/// # Proved
///
/// - No header begins another, and none has two meanings.
pub fn no_header_begins_another()
    ensures { (a b x y : List ℕ) (h k : Header2) → IsHeader a h → IsHeader b k → a ++ x ≡ b ++ y → (a ≡ b) × (h ≡ k) }
{}
