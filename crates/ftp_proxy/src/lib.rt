//! The header that a proxy sends ahead of a connection (the PROXY protocol, section 2.1).
//!
//! What a header says depends on the bytes alone, and never on the pieces in which they come; nothing behind it is taken.
//! Begin with `read_proxy_header`.
#![tactic(auto)]

mod any;
mod encode;
mod error;
mod fields;
mod head;
mod header;
mod laws;
mod number;
mod pieces;
mod reader;
mod v2_error;
mod v2_header;
mod v2_reader;
mod version1;

pub use any::{AnyError, AnyHeader, read_proxy_any, to_answer};
pub use encode::encode2;
pub use error::{ProxyError, ReadError};
pub use header::ProxyHeader;
pub use laws::no_header_begins_another;
pub use number::value_below;
pub use pieces::cut;
pub use reader::read_proxy_header;
pub use v2_error::{Encode2Error, Proxy2Error};
pub use v2_header::{Body, Field, Fields, Header2};
pub use v2_reader::read_header2;
