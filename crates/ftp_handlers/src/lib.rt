//! The handlers: each decides on one kind of event for a live session that it is lent, and puts what is done into a
//! room, whose memory was taken before.
//!
//! A handler promises the decision of its row, the session and the actions that follow. Begin with `command`.
#![tactic(auto)]

pub mod abor;
mod auth_done;
pub mod closed;
mod commands;
mod copies;
pub mod cwd;
pub mod end;
mod endings;
mod filling;
mod fixed;
mod idle_time;
mod internal;
mod leavers;
mod login;
pub mod pass;
pub mod pasv;
pub mod port;
mod putting;
pub mod quit;
pub mod rest;
mod room;
mod slot_tick;
mod stops;
mod telling;
pub mod transfer;
mod user;

// The commands that queue a transfer have one handler.
pub mod appe {
    pub use crate::transfer::handle;
}

pub mod list {
    pub use crate::transfer::handle;
}

pub mod mlsd {
    pub use crate::transfer::handle;
}

pub mod nlst {
    pub use crate::transfer::handle;
}

pub mod retr {
    pub use crate::transfer::handle;
}

pub mod stor {
    pub use crate::transfer::handle;
}

pub mod stou {
    pub use crate::transfer::handle;
}

pub use commands::command;
pub use endings::ending;
pub use filling::Prepared;
pub use fixed::{copy_alone, copy_kept, copy_user, fix_transfer};
pub use idle_time::idle_tick;
pub use leavers::Leavers;
pub use room::{Extent, Need, Room};
pub use stops::stop;
pub use telling::{Telling, Told, copy_telling};
