//! Laws of every right log: what may be relied on, whoever keeps the log and however.
//!
//! The functions do nothing, and each clause is a law.
//! Begin with `right_logs`.
#![tactic(auto)]

mod right_logs;

pub use right_logs::{
    client_part_is_right_and_acted, counts_are_exact, empty_slots_have_no_age, ends_set_offset,
    holders_wait, holds_end, links_take_one_job, logged_out_comes_last, notices_are_numbered,
    passive_replies_are_read_back, pieces_add_up, replies_follow_openings,
    right_logs_are_determined, right_logs_serve, scavenges_change_nothing, sessions_run_one_job,
    slots_are_of_users, stops_last, stops_part_with_all, sweeps_change_nothing,
    transfers_are_cancelled_with_their_slot, transfers_are_fixed_when_queued,
    transfers_have_one_fate, transfers_wait_for_what_comes,
};
