//! Where a path of a client leads below a root, and when a file was changed, as listings tell it.
//!
//! A place is the root or lies below it, whatever the client sent, as nothing else makes one. A moment has one date of the Gregorian
//! calendar, and its text is that date's. Begin with `Place` and `moment_of`.
#![tactic(auto)]

mod date;
mod date_laws;
mod laws;
mod moment;
mod names;
mod place;

pub use date::Date;
pub use date_laws::a_day_has_one_date;
pub use laws::names_are_plain;
pub use moment::{date_at, list_date, moment_of, time_val};
pub use names::names_of;
pub use place::{Place, PlaceError};
