//! The edge of the system: clock, random words, names and sockets.

ghost use Rattle.std.specs.Prelude.{◌≡◌, true, false, None, IfSome};
ghost use Rattle.ftp_base.specs.Edge.{EdgeView, Takes, next_number, next_answer, next_connect, behind_moment, behind_word, behind_lookup, behind_port, behind_connect, after_pause};
ghost use Rattle.ftp_base.specs.Outside.{HasRisen};

use crate::bytes::Bytes;
use crate::net::SocketAddr;

/// Clock, random words, names and sockets.
///
/// A name without an address of version 4, a port that is not bound and a connection that is not made are faults.
pub trait Edge {
    // Its lists, where it tells them, which answers may come, how many calls failed, and how long it paused.
    ghost view: { Self → EdgeView };

    /// The moment in milliseconds.
    fn now(&mut self) -> u64
        ensures next { IfSome (view self.old).feed (λ f. result ≡ next_number f.moments) }
        ensures taken { Takes behind_moment (view self.old) (view self.new) }
        ensures unpaused { (view self.new).paused ≡ (view self.old).paused };

    /// A random word.
    fn word(&mut self) -> u128
        ensures next { IfSome (view self.old).feed (λ f. result ≡ next_number f.words) }
        ensures taken { Takes behind_word (view self.old) (view self.new) }
        ensures unpaused { (view self.new).paused ≡ (view self.old).paused };

    /// The address of a name in IP version 4, as one number in network order.
    ///
    /// # Proved
    ///
    /// - Each answer of the clock, the random words, the names and the sockets of an edge is one that its meaning
    ///   allows, and the next of its lists where it tells them; none or a no comes only where its count rose (`may`,
    ///   `next`, `fault_rose`, `taken`; also `Edge::bind`: `may`, `next`, `fault_rose`, `taken`; `Edge::connect`:
    ///   `may`, `next`, `fault_rose`, `taken`).
    fn lookup(&mut self, name: &Bytes) -> Option<u32>
        ensures may { (view self.old).meaning.names name.now result ≡ true }
        ensures next { IfSome (view self.old).feed (λ f. result ≡ next_answer f.lookups) }
        ensures fault_rose { result ≡ None → HasRisen (view self.old).faults (view self.new).faults }
        ensures taken { Takes behind_lookup (view self.old) (view self.new) }
        ensures unpaused { (view self.new).paused ≡ (view self.old).paused };

    /// Binds a port from `lo` to `hi` to a listener, and gives it.
    fn bind(&mut self, lo: u16, hi: u16) -> Option<u16>
        ensures may { (view self.old).meaning.ports lo hi result ≡ true }
        ensures next { IfSome (view self.old).feed (λ f. result ≡ next_answer f.ports) }
        ensures fault_rose { result ≡ None → HasRisen (view self.old).faults (view self.new).faults }
        ensures taken { Takes behind_port (view self.old) (view self.new) }
        ensures unpaused { (view self.new).paused ≡ (view self.old).paused };

    /// Opens a connection to the address, which is to have the number, and says whether it is made.
    fn connect(&mut self, to: SocketAddr, number: u64) -> bool
        ensures may { (view self.old).meaning.connects to number result ≡ true }
        ensures next { IfSome (view self.old).feed (λ f. result ≡ next_connect f.connects) }
        ensures fault_rose { result ≡ false → HasRisen (view self.old).faults (view self.new).faults }
        ensures taken { Takes behind_connect (view self.old) (view self.new) }
        ensures unpaused { (view self.new).paused ≡ (view self.old).paused };

    /// Waits for so many milliseconds.
    fn pause(&mut self, millis: u64)
        ensures taken { Takes (λ f. f) (view self.old) (view self.new) }
        ensures paused { (view self.new).paused ≡ after_pause millis (view self.old).paused };
}
