//! Who holds which port for which client.

ghost use Rattle.std.specs.Prelude.{◌≡◌, ◌+◌, ◌-◌, ◌<◌, ◌≤◌, ◌↔◌, ℕ, None, Some, IfErr, IfOk, IsErrOf, IsSome, OnErr, OnOk, if◌then◌else◌};
ghost use Rattle.std.specs.FinMap as finmap;
ghost use Rattle.ftp_base.specs.Ports.{first_free};
ghost use Rattle.ftp_switchboard.specs.Board.{HasRoom, KeepsOtherRoom, KeepsRoom, SameHolds, SameRange, holder_among, holder_at, holder_for, is_key, key as key_pair, present_released, released, still_holder, words_for};
ghost use Rattle.ftp_switchboard.specs.Pairs.{KeepsRoomBut, holder_of_pair, key_of_pair, without};

use crate::key::{SwitchboardKey, key_of};
use crate::looks::Looks;
use crate::ports::Range;
use crate::row::Row;
use crate::rows::{
    Rows, free_port_of, give_up, give_up_present, keep_sessions, locate, make_room, port_of, put,
    take,
};
use ftp_base::SocketAddrPair;
use std::alloc::{AllocError, Global};
use std::collections::{BTreeSet, HashMap};
use std::marker::Model;
use thiserror::Error;

/// Why a port is not given.
#[derive(Clone, Copy, Debug, PartialEq, Eq, Drop, Error)]
pub enum SwitchboardError {
    /// A session holds the port for this client address.
    #[error("the port is held for this client address")]
    EntryNotAvailable,
    /// Every port of the range is held for this client address.
    #[error("every port of the range is held for this client address")]
    MaxRetriesError,
}

/// The ports of a range, and the sessions that hold them, each for one client address.
///
/// A client address with holds has a row: a bit for each port of the range, and its ports with their sessions, in order
/// of ports. A search for a free port looks at each word of 64 bits once and at its first one twice at most. A port is
/// found by halving.
#[derive(Drop)]
pub struct Switchboard {
    range: Range,
    rows: Rows,
    spare: Option<Row>,
    alloc: Global,
}

impl Model for Switchboard {
    ghost use Rattle.std.specs.Prelude.{◌≤◌};
    ghost use Rattle.ftp_switchboard.specs.Board.{Board, board_code};

    ghost Value = { Board };

    ghost coded = { board_code };

    ghost use Rattle.ftp_switchboard.specs.Inside.{IsInside};
    ghost use Rattle.ftp_switchboard.specs.Rows.{held_by, room_of};

    ghost view = { λ b. record {
      lo = b.range.lo;
      hi = b.range.hi;
      held = held_by b.rows;
      room = room_of b.rows b.spare;
    } };

    ghost invariant = { λ b. IsInside b.range b.rows b.spare };
}

impl Switchboard {
    /// A switchboard for the ports from `lo` to `hi`, both included, of which nobody holds one.
    ///
    /// # Proved
    ///
    /// - A new board is free, if a range without 0 (`range`, `free`).
    pub fn new(alloc: Global, lo: u16, hi: u16) -> Switchboard
        requires in_range { (1 ≤ lo) × (lo ≤ hi) }
        ensures range { (result.lo ≡ lo) × (result.hi ≡ hi) }
        ensures free { result.held ≡ finmap.empty }
    {
        Switchboard {
            range: Range { lo, hi },
            rows: HashMap::new(alloc),
            spare: None,
            alloc,
        }
    }

    /// The session that holds the port for the client address.
    ///
    /// # Proved
    ///
    /// - The session that holds a key (also `Switchboard::get_session_by_connection_pair`).
    pub fn holder(&self, source: u32, port: u16) -> Option<u64>
        ensures { result ≡ holder_at self.now source port }
    {
        let key = SwitchboardKey { source, port };
        let (_, session) = locate(&self.rows, key, &mut Looks::new())?;
        Some(session)
    }

    /// The first port, from the word's on and round the range once, that nobody holds for the client address. Where
    /// there is none, as for an IPv6 client, it is the word's port.
    ///
    /// # Proved
    ///
    /// - The first port that is free for a client, which stays free; the looks are those at the words once round, if
    ///   the count has room for 1,059 more (`free`, `looks`).
    pub fn free_port(&self, source: Option<u32>, word: u16, looks: &mut Looks) -> Option<u16>
        requires looks { looks.old ≤ u64.MAX - 1059 }
        ensures free { result ≡ first_free (holder_for self.now source) self.now.lo self.now.hi word }
        ensures looks { (looks.old ≤ looks.new) × (looks.new ≤ looks.old + (words_for self.now.lo self.now.hi + 1)) }
    {
        match source {
            Some(source) => free_port_of(&self.rows, self.range, source, word, looks),
            None => Some(port_of(self.range, word)),
        }
    }

    /// The session that holds the port that a connection came to, for the address that it came from.
    /// For an IPv6 address there is none.
    pub fn get_session_by_connection_pair(&self, c: &SocketAddrPair) -> Option<u64>
        ensures { result ≡ holder_of_pair self.now c.now }
    {
        let key = key_of(c)?;
        self.holder(key.source, key.port)
    }

    /// Makes room, so that the next claim or reservation for the client address takes no memory.
    ///
    /// # Proved
    ///
    /// - Room for the next claim or reservation of a client address, neither of which has an answer of want of memory;
    ///   room for others stays, also where a key is freed (`ok`, `same`, `room`; also `Switchboard::release`,
    ///   `Switchboard::unregister_by_key`: `room`).
    pub fn reserve_room(&mut self, source: u32) -> Result<(), AllocError>
        ensures ok { OnOk result (HasRoom self.new source) }
        ensures same { SameHolds self.old self.new }
        ensures room { KeepsRoom self.old self.new }
    {
        make_room(
            &mut self.rows,
            &mut self.spare,
            self.range,
            source,
            self.alloc,
        )
    }

    /// Gives this port to the session, unless it is held.
    ///
    /// # Proved
    ///
    /// - A key is claimed, or refused exactly where it is held; nothing changes after a refusal (room was made; the
    ///   port is in the range) (`claimed`, `entry_not_available`, `only_entry_not_available`, `unchanged`).
    pub fn try_and_claim(
        &mut self,
        key: SwitchboardKey,
        session: u64,
    ) -> Result<(), SwitchboardError>
        requires room { HasRoom self.old key.source }
        requires in_range { (self.old.lo ≤ key.port) × (key.port ≤ self.old.hi) }
        ensures claimed { OnOk result (self.new.held ≡ finmap.insert self.old.held key session) }

        ensures entry_not_available { IsErrOf result SwitchboardError.EntryNotAvailable ↔ IsSome (holder_at self.old key.source key.port) }
        ensures only_entry_not_available { IfErr result (λ e. e ≡ SwitchboardError.EntryNotAvailable) }

        ensures range { SameRange self.old self.new }
        ensures unchanged { OnErr result (self.new ≡ self.old) }
    {
        if self.holder(key.source, key.port).is_some() {
            return Err(SwitchboardError::EntryNotAvailable);
        }
        let looks = &mut Looks::new();
        put(
            &mut self.rows,
            &mut self.spare,
            self.range,
            key,
            session,
            looks,
        );
        Ok(())
    }

    /// Gives the session the first port, from the word's on and round the range once, that nobody
    /// holds for the client address. Its present port is then free for others.
    ///
    /// The word's port is `lo + word % n`, for a range of n ports. The looks are those at the words once round, and two
    /// searches among the ports that are held.
    ///
    /// # Proved
    ///
    /// - The first port from the word's on that nobody holds for the client address, with the present port of the
    ///   session freed (room was made) (`granted`, `held`, `holders`).
    /// - Full exactly where every port is held for that address; nothing changes (room was made) (`max_retries`,
    ///   `only_max_retries`, `unchanged`).
    /// - A reservation looks at the words of the client's row once round, and twice among its ports: for n ports at
    ///   most n / 64, rounded up, and 35 looks, whatever is held, if the count has room for 1,059 more (`looks`).
    pub fn reserve(
        &mut self,
        source: u32,
        session: u64,
        word: u16,
        present: Option<u16>,
        looks: &mut Looks,
    ) -> Result<u16, SwitchboardError>
        requires room { HasRoom self.old source }
        requires looks { looks.old ≤ u64.MAX - 1059 }
        ensures granted { IfOk result (λ port.
            first_free (holder_at self.old source) self.old.lo self.old.hi word ≡ Some port) }
        ensures held { IfOk result (λ port. self.new.held ≡
            finmap.insert (present_released self.old.held source present session) (key_pair source port) session) }

        // The same key by key.
        ensures holders { IfOk result (λ port. (a p : ℕ) → holder_at self.new a p ≡
            (if is_key a p source port then Some session
            else still_holder source present session a p (holder_at self.old a p))) }

        ensures max_retries { IsErrOf result SwitchboardError.MaxRetriesError ↔
            (first_free (holder_at self.old source) self.old.lo self.old.hi word ≡ None) }
        ensures only_max_retries { IfErr result (λ e. e ≡ SwitchboardError.MaxRetriesError) }

        ensures looks { (looks.old ≤ looks.new) × (looks.new ≤ looks.old + (words_for self.old.lo self.old.hi + 35)) }
        ensures range { SameRange self.old self.new }
        ensures unchanged { OnErr result (self.new ≡ self.old) }
    {
        let Some(port) = free_port_of(&self.rows, self.range, source, word, looks) else {
            return Err(SwitchboardError::MaxRetriesError);
        };
        let key = SwitchboardKey { source, port };
        put(
            &mut self.rows,
            &mut self.spare,
            self.range,
            key,
            session,
            looks,
        );
        give_up_present(
            &mut self.rows,
            &mut self.spare,
            self.range,
            key,
            present,
            session,
            looks,
        );
        Ok(port)
    }

    /// Frees every key. It takes no memory.
    ///
    /// # Proved
    ///
    /// - Every key is freed at once (`free`, `range`).
    pub fn clear(&mut self)
        ensures free { self.new.held ≡ finmap.empty }
        ensures range { SameRange self.old self.new }
    {
        self.rows.clear();
    }

    /// Frees the key where the session holds it.
    ///
    /// # Proved
    ///
    /// - A session gives up a key only where it holds it (`held`).
    pub fn release(&mut self, key: &SwitchboardKey, session: u64)
        ensures held { self.new.held ≡ released self.old.held key.now session }
        ensures range { SameRange self.old self.new }
        ensures room { KeepsOtherRoom key.now.source self.old self.new }
    {
        let looks = &mut Looks::new();
        give_up(
            &mut self.rows,
            &mut self.spare,
            self.range,
            *key,
            session,
            looks,
        );
    }

    /// Frees the key, and gives the session that held it.
    ///
    /// # Proved
    ///
    /// - A key is freed, and its holder given; all other keys stay (`holder`, `held`; also
    ///   `Switchboard::unregister_by_connection_pair`: `holder`, `held`).
    pub fn unregister_by_key(&mut self, key: &SwitchboardKey) -> Option<u64>
        ensures holder { result ≡ holder_at self.old key.now.source key.now.port }
        ensures held { self.new.held ≡ finmap.remove self.old.held key.now }
        ensures range { SameRange self.old self.new }
        ensures room { KeepsOtherRoom key.now.source self.old self.new }
    {
        let (place, session) = locate(&self.rows, *key, &mut Looks::new())?;
        take(&mut self.rows, &mut self.spare, self.range, *key, place);
        Some(session)
    }

    /// Frees the port that a connection came to, for the address that it came from, and gives the
    /// session that held it. For an IPv6 address there is none.
    pub fn unregister_by_connection_pair(&mut self, c: &SocketAddrPair) -> Option<u64>
        ensures holder { result ≡ holder_of_pair self.old c.now }
        ensures held { self.new.held ≡ without self.old.held (key_of_pair c.now) }
        ensures range { SameRange self.old self.new }
        ensures room { KeepsRoomBut (key_of_pair c.now) self.old self.new }
    {
        let key = key_of(c)?;
        self.unregister_by_key(&key)
    }

    /// Frees what is held by sessions that are not among the live ones. It takes no memory.
    ///
    /// # Proved
    ///
    /// - Only live sessions hold afterwards, and each of them what it held (`holders`).
    pub fn scavenge(&mut self, live: &BTreeSet<u64>)
        ensures holders { (a p : ℕ) → holder_at self.new a p ≡ holder_among live.now (holder_at self.old a p) }
        ensures range { SameRange self.old self.new }
    {
        keep_sessions(&mut self.rows, self.range, live);
    }
}
