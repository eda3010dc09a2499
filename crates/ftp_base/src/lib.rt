//! The values that all crates share, and the traits of the outside: sources, sinks, links, storages, the control
//! connection, the edge of the system, authenticators, listeners, and what stands before threads and transfers.
//!
//! What can fail counts its faults, so that a caller's contract can tell a fault from a made-up answer.
//! Begin with `outside`.
#![tactic(auto)]

mod authenticator;
mod bytes;
mod calls;
mod chunk;
mod coming;
mod command;
mod control;
mod decimal;
mod edge;
mod error_kind;
mod fault;
mod file_bytes;
mod link_table;
mod listener;
mod login;
mod memory_edge;
mod memory_link;
mod memory_sink;
mod memory_source;
mod memory_storage;
mod message;
mod net;
mod notice;
mod outside;
mod path;
mod port_error;
mod reply;
mod reply_text;
mod rows;
mod storage;
mod trace;
mod word_table;
mod worker;

pub use authenticator::{Authenticator, SameAnswer};
pub use bytes::Bytes;
pub use calls::{FailingCall, rise};
pub use command::DataChanCmd;
pub use control::Control;
pub use decimal::{decimal_in, is_decimal};
pub use edge::Edge;
pub use error_kind::ErrorKind;
pub use fault::{Failed, LinkFault};
pub use file_bytes::FileBytes;
pub use link_table::{InsertError, LinkTable};
pub use listener::{DataListener, NopListener, PresenceListener};
pub use login::{AuthAnswer, LockState, SessionState};
pub use memory_edge::MemoryEdge;
pub use memory_link::MemoryLink;
pub use memory_sink::MemorySink;
pub use memory_source::MemorySource;
pub use memory_storage::{MemoryStorage, StoredFiles};
pub use message::ControlChanMsg;
pub use net::{IpAddr, SocketAddr, SocketAddrPair};
pub use notice::{DataEvent, EventMeta, Notice, PresenceEvent};
pub use outside::{Link, Sink, Source};
pub use path::{is_below, parent_of};
pub use port_error::PortAllocationError;
pub use reply::{Reply, ReplyCode};
pub use reply_text::ReplyText;
pub use rows::Rows;
pub use storage::{
    FEATURE_RESTART, FileInfo, Looks, Meta, Storage, StoreError, StoreResult, count_failed,
};
pub use trace::TraceId;
pub use word_table::{value_named, value_named_in_any_case};
pub use worker::{Gate, Spawner};
