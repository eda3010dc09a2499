//! The log.

use crate::entry::Entry;
use std::alloc::{AllocError, AllocFailed, Global};
use std::marker::Model;

/// Entries, which contracts see as a list with the newest first.
#[derive(Drop)]
pub struct Log {
    entries: Vec<Entry>,
}

impl Model for Log {
    ghost use Rattle.std.specs.Prelude.{◌-◌, reverse, vec_len, vec_capacity};
    ghost use Rattle.ftp_events.specs.Log.{LogState};

    ghost Value = { LogState };

    ghost view = { λ log. record { entries = reverse log.entries.items; room = vec_capacity log.entries - vec_len log.entries } };
}

impl Log {
    ghost use Rattle.std.specs.Prelude.{◌≡◌, ◌==◌, ◌<◌, [], ◌∷◌, length, reverse, slice_get, OnOk, IfErr};
    ghost use Rattle.std.specs.Option.{option_copied};

    /// A log with no entry.
    pub fn new(alloc: Global) -> Log
        ensures { result.entries ≡ [] }
    {
        Log {
            entries: Vec::new(alloc),
        }
    }

    /// How many entries there are.
    pub fn len(&self) -> u64
        ensures { result ≡ length self.now.entries }
    {
        self.entries.len() as u64
    }

    pub fn is_empty(&self) -> bool
        ensures { result ≡ (length self.now.entries == 0) }
    {
        self.entries.is_empty()
    }

    /// The entry at a place, counted from 0 with the oldest first.
    pub fn get(&self, i: u64) -> Option<&Entry>
        ensures { option_copied result ≡ slice_get (reverse self.now.entries) i }
    {
        self.entries.get(i as usize)
    }

    /// Lends the entries, the oldest first.
    pub fn as_slice(&self) -> &[Entry]
        ensures { result.now ≡ reverse self.now.entries }
    {
        self.entries.as_slice()
    }

    /// Adds an entry; an error gives it back.
    ///
    /// # Proved
    ///
    /// - An entry is put to the log, or comes back with the log as it was (`pushed`, `unchanged`; also
    ///   `Log::push_reserved`: `pushed`).
    pub fn push(&mut self, entry: Entry) -> Result<(), AllocFailed<Entry>>
        ensures pushed { OnOk result (self.new.entries ≡ entry ∷ self.old.entries) }
        ensures unchanged { IfErr result (λ e. (self.new.entries ≡ self.old.entries) × (e.value ≡ entry)) }
    {
        self.entries.push(entry)
    }

    /// Takes the memory that the next entry needs.
    ///
    /// # Proved
    ///
    /// - Room for the next entry (`ok`, `same`).
    pub fn make_room(&mut self) -> Result<(), AllocError>
        ensures ok { OnOk result (0 < self.new.room) }
        ensures same { self.new.entries ≡ self.old.entries }
    {
        self.entries.reserve(1)
    }

    /// Adds an entry where there is room for it, and takes no memory.
    pub fn push_reserved(&mut self, entry: Entry)
        requires { 0 < self.old.room }
        ensures pushed { self.new.entries ≡ entry ∷ self.old.entries }
    {
        self.entries.push_reserved(entry);
    }
}
