//! What a server does on lines beside the profile's commands: the words that clients send to look at files and to change
//! them. Each is answered by a definition, and none in place of a command of the profile.
//! Begin with `Extras`, and with specs/Plan.antt.
#![tactic(auto)]

mod answer;
mod archive;
mod extra;
mod file_extras;
mod laws;
mod memory_archive;
mod moment;
mod plan;
mod reply_lines;
mod session_word;
mod text;
mod word;

pub use archive::{Archive, Found, Request, Response};
pub use extra::{Asker, Extra, ExtraResult, Extras, NoExtras};
pub use file_extras::FileExtras;
pub use laws::{renames_follow_looks, words_wait_for_login};
pub use moment::is_moment;
pub use plan::Offers;
pub use reply_lines::put_epsv_reply;
pub use word::ExtraWord;
