//! How often each decision came.

ghost use Rattle.std.specs.Prelude.{◌≡◌, ◌-◌, ◌^◌, ◌<◌, ◌++◌, ◌∷◌, [], List, length, map, Some, slice_get, OnOk, IfOk};
ghost use Rattle.ftp_events.specs.declared.entry.Entry.{Entry};
ghost use Rattle.ftp_script_run.specs.Counts.{names, count_line, count_lines, AreCounts};

use ftp_events::Entry;
use ftp_text::decision_text;
use ftp_text::writing::{put_byte, put_decimal, put_field};
use std::alloc::{AllocError, Global};

/// The names of all decisions, in byte order.
const NAMES: [&[u8]; 46] = [
    b"aborted",
    b"aborting",
    b"attached",
    b"badaddress",
    b"badsequence",
    b"closed",
    b"cut",
    b"cwdok",
    b"cwdrefused",
    b"early",
    b"finished",
    b"full",
    b"granted",
    b"headerfault",
    b"loggedin",
    b"loginfailed",
    b"misplaced",
    b"modeoff",
    b"moved",
    b"needpass",
    b"noconnection",
    b"nolookup",
    b"norestart",
    b"noslot",
    b"nosocket",
    b"notexpected",
    b"nothingtoabort",
    b"notloggedin",
    b"opened",
    b"otheraddress",
    b"passout",
    b"portok",
    b"queued",
    b"quit",
    b"reauth",
    b"restok",
    b"scavenged",
    b"slotdropped",
    b"stopped",
    b"swept",
    b"timedout",
    b"told",
    b"turned",
    b"unknown",
    b"used",
    b"waited",
];

// The name at a place.
fn name(place: usize) -> &'static [u8]
    requires { place < 46 }
    ensures { slice_get names place ≡ Some result.now }
{
    text_at(&NAMES, place)
}

// What stands at a place of a table.
fn text_at<'a>(table: &[&'a [u8]], place: usize) -> &'a [u8]
    requires { place < length table.now }
    ensures { slice_get (map (λ text. text.now) table.now) place ≡ Some result.now }
{
    table[place]
}

/// The counts of the decisions, in the order of their names.
#[derive(Drop)]
pub struct Counts {
    numbers: [u64; NAMES.len()],
}

impl Counts {
    /// Nothing came.
    #[tactic(auto, unfolding(crate::specs::Counts::names))]
    pub fn new() -> Counts
        ensures { AreCounts result.numbers [] }
    {
        Counts {
            numbers: [0; NAMES.len()],
        }
    }

    /// Counts the decision of an entry.
    pub fn add(&mut self, entry: &Entry)
        requires { (log : List Entry) × AreCounts self.old.numbers log × (length log < 2 ^ 64 - 1) }
        ensures { (log : List Entry) → AreCounts self.old.numbers log → AreCounts self.new.numbers (entry.now ∷ log) }
    {
        let came = decision_text(entry.decision);
        for i in 0..NAMES.len() {
            self.numbers[i] += u64::from(came == name(i));
        }
    }

    /// The lines of the decisions that came.
    pub fn lines(&self, alloc: Global) -> Result<Vec<u8>, AllocError>
        ensures { IfOk result (λ text. (log : List Entry) → AreCounts self.now.numbers log → text.items ≡ count_lines log) }
    {
        let mut text = Vec::new(alloc);
        for i in 0..NAMES.len() {
            put_count(&mut text, name(i), self.numbers[i])?;
        }
        Ok(text)
    }
}

// Writes the line of a decision, where it came.
fn put_count(out: &mut Vec<u8>, name: &[u8], count: u64) -> Result<(), AllocError>
    ensures { OnOk result (out.new.items ≡ out.old.items ++ count_line name.now count) }
{
    if count == 0 {
        return Ok(());
    }
    put_decimal(out, count)?;
    put_field(out, name)?;
    put_byte(out, b'\n')
}
