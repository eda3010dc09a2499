//! A client in memory, who sends the same packet again and again.

ghost use Rattle.std.specs.Prelude.{◌≡◌, ◌==◌, ◌<◌, [], true, min, length, take, Some, refl, count_by};
ghost use Rattle.std.specs.List.{repeat};
ghost use Rattle.ftp_bench.specs.Client.{input, after};

use ftp_base::{Control, Failed, Link, LinkFault, Source};
use std::marker::Model;

/// A connection on which a client sends a packet so often, and then ends.
///
/// The lines that the client is sent are counted, and not kept.
#[derive(Drop)]
pub struct Client {
    packet: Vec<u8>,
    at: usize,
    rounds: u16,
    lines: u64,
    closed: bool,
}

impl Model for Client {
    ghost use Rattle.std.specs.Prelude.{◌<◌, ◌≤◌, length, drop};
    ghost use Rattle.ftp_bench.specs.Client.{ClientState};

    ghost Value = { ClientState };

    ghost view = { λ c. record { left = drop c.at c.packet.items; packet = c.packet.items; rounds = c.rounds; lines = c.lines; closed = c.closed } };

    ghost invariant = { λ c. (c.at ≤ length c.packet.items) × (0 < length c.packet.items) };
}

impl Client {
    /// The packet is not empty.
    ///
    /// # Proved
    ///
    /// - The client sends the packet so often, one behind the other, in whatever pieces it is read, and tells the talk
    ///   so, as a source, a link and a control do (`input`).
    pub fn new(packet: Vec<u8>, rounds: u16) -> Client
        requires some { 0 < length packet.items }
        ensures input { input result ≡ repeat rounds packet.items }
        ensures lines { result.lines ≡ 0 }
    {
        let at = packet.len();
        Client {
            packet,
            at,
            rounds,
            lines: 0,
            closed: false,
        }
    }

    /// How many lines the client was sent. At its last value the count stands still.
    pub fn lines(&self) -> u64
        ensures { result ≡ self.now.lines }
    {
        self.lines
    }

    // Begins the packet again, where nothing is left of it and it is to come again.
    fn go_round(&mut self)
        ensures input { input self.new ≡ input self.old }
        ensures some { self.new.left ≡ [] → self.new.rounds ≡ 0 }
        ensures closed { self.new.closed ≡ self.old.closed }
    {
        if self.at == self.packet.len() && self.rounds > 0 {
            self.at = 0;
            self.rounds -= 1;
        }
    }

    // Counts the lines that end in these bytes.
    //
    // # Proved
    //
    // - The lines that it is sent are counted by their line feeds (also `line_feeds`).
    fn count(&mut self, bytes: &[u8])
        ensures { self.new ≡ record self.old { lines = after self.old.lines bytes.now } }
    {
        self.lines = self.lines.saturating_add(line_feeds(bytes));
    }
}

/// How many line feeds are among the bytes.
fn line_feeds(bytes: &[u8]) -> u64
    ensures { result ≡ count_by (λ b. b == 10) bytes.now }
{
    bytes.iter().filter(|b| **b == b'\n').count() as u64
}

/// Copies bytes from the front of `left` to the front of `out`, as many as fit.
fn copy_front(left: &[u8], out: &mut [u8]) -> usize
    ensures moved { result ≡ min (length out.old) (length left.now) }
    ensures front { take result out.new ≡ take result left.now }
{
    let n = left.len().min(out.len());
    out[..n].copy_from_slice(&left[..n]);
    n
}

impl Source for Client {
    ghost use Rattle.ftp_bench.specs.Client.{sending};

    ghost left = { λ c. Some (input c) };

    ghost faults = { λ _. 0 };

    ghost sending = { sending };

    ghost is_link = { true };

    fn read(&mut self, out: &mut [u8]) -> Result<usize, Failed> {
        self.go_round();
        let n = copy_front(&self.packet.as_slice()[self.at..], out);
        self.at += n;
        Ok(n)
    }
}

impl Link for Client {
    fn write(&mut self, bytes: &[u8]) -> Result<usize, Failed> {
        self.count(bytes);
        Ok(bytes.len())
    }

    fn flush(&mut self) -> Result<(), Failed> {
        Ok(())
    }

    fn close(&mut self) -> Result<(), Failed> {
        self.closed = true;
        Ok(())
    }

    fn last_fault(&self) -> Option<LinkFault> {
        None
    }

    ghost connects = { refl };
}

impl Control for Client {
    ghost is_always_ready = { true };

    fn ready(&mut self, _millis: u64) -> Result<bool, Failed> {
        Ok(true)
    }
}
