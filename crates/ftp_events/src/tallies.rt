//! Counts by command, by status and command, and of files. Each stands still at its last value.

ghost use Rattle.std.specs.Prelude.{◌≡◌, ◌+◌};
ghost use Rattle.ftp_events.specs.declared.status.CommandWord.{CommandWord};
ghost use Rattle.ftp_events.specs.declared.status.Status7.{Status7};
ghost use Rattle.ftp_events.specs.Tallies.{saturated, of_word, of_status, GrowsFor, GrowsWith};

use crate::status::{CommandWord, Status7};

/// A count for each command.
#[derive(Clone, Copy)]
pub struct PerCommand {
    pub retr: u64,
    pub stor: u64,
    pub appe: u64,
    pub list: u64,
    pub nlst: u64,
    pub mlsd: u64,
}

/// A count for each status and each command.
#[derive(Clone, Copy)]
pub struct PerStatus {
    pub success: PerCommand,
    pub client_error: PerCommand,
    pub server_error: PerCommand,
    pub permission_error: PerCommand,
    pub client_interrupted: PerCommand,
    pub network_error: PerCommand,
    pub unknown_error: PerCommand,
}

/// How many files were moved, and how many bytes they had.
#[derive(Clone, Copy)]
pub struct Files {
    pub count: u64,
    pub bytes: u64,
}

impl PerCommand {
    /// Counts at 0.
    pub fn new() -> PerCommand
        ensures { (word : CommandWord) → of_word result word ≡ 0 }
    {
        PerCommand {
            retr: 0,
            stor: 0,
            appe: 0,
            list: 0,
            nlst: 0,
            mlsd: 0,
        }
    }

    /// The count of a command.
    pub fn get(&self, word: CommandWord) -> u64
        ensures { result ≡ of_word self.now word }
    {
        match word {
            CommandWord::Retr => self.retr,
            CommandWord::Stor => self.stor,
            CommandWord::Appe => self.appe,
            CommandWord::List => self.list,
            CommandWord::Nlst => self.nlst,
            CommandWord::Mlsd => self.mlsd,
        }
    }

    /// Adds to the count of a command.
    pub fn add(&mut self, word: CommandWord, n: u64)
        ensures { GrowsFor word n self.old self.new }
    {
        match word {
            CommandWord::Retr => self.retr = self.retr.saturating_add(n),
            CommandWord::Stor => self.stor = self.stor.saturating_add(n),
            CommandWord::Appe => self.appe = self.appe.saturating_add(n),
            CommandWord::List => self.list = self.list.saturating_add(n),
            CommandWord::Nlst => self.nlst = self.nlst.saturating_add(n),
            CommandWord::Mlsd => self.mlsd = self.mlsd.saturating_add(n),
        }
    }
}

impl PerStatus {
    /// Counts at 0.
    pub fn new() -> PerStatus
        ensures { (status : Status7) (word : CommandWord) → of_word (of_status result status) word ≡ 0 }
    {
        let none = PerCommand::new();
        PerStatus {
            success: none,
            client_error: none,
            server_error: none,
            permission_error: none,
            client_interrupted: none,
            network_error: none,
            unknown_error: none,
        }
    }

    /// The count of a command with a status.
    pub fn get(&self, word: CommandWord, status: Status7) -> u64
        ensures { result ≡ of_word (of_status self.now status) word }
    {
        match status {
            Status7::Success => self.success.get(word),
            Status7::ClientError => self.client_error.get(word),
            Status7::ServerError => self.server_error.get(word),
            Status7::PermissionError => self.permission_error.get(word),
            Status7::ClientInterrupted => self.client_interrupted.get(word),
            Status7::NetworkError => self.network_error.get(word),
            Status7::UnknownError => self.unknown_error.get(word),
        }
    }

    /// Adds 1 to the count of a command with a status.
    pub fn add(&mut self, word: CommandWord, status: Status7)
        ensures { GrowsWith word status self.old self.new }
    {
        match status {
            Status7::Success => self.success.add(word, 1),
            Status7::ClientError => self.client_error.add(word, 1),
            Status7::ServerError => self.server_error.add(word, 1),
            Status7::PermissionError => self.permission_error.add(word, 1),
            Status7::ClientInterrupted => self.client_interrupted.add(word, 1),
            Status7::NetworkError => self.network_error.add(word, 1),
            Status7::UnknownError => self.unknown_error.add(word, 1),
        }
    }
}

impl Files {
    /// Counts a file with so many bytes.
    pub fn add(&mut self, bytes: u64)
        ensures count { self.new.count ≡ saturated (self.old.count + 1) }
        ensures bytes { self.new.bytes ≡ saturated (self.old.bytes + bytes) }
    {
        self.count = self.count.saturating_add(1);
        self.bytes = self.bytes.saturating_add(bytes);
    }
}
