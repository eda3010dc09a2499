//! Each law, called from another crate.

use ftp_laws::{
    client_part_is_right_and_acted, counts_are_exact, ends_set_offset, holders_wait, holds_end,
    links_take_one_job, logged_out_comes_last, notices_are_numbered, replies_follow_openings,
    right_logs_are_determined, right_logs_serve, scavenges_change_nothing, sessions_run_one_job,
    stops_last, stops_part_with_all, sweeps_change_nothing,
    transfers_are_cancelled_with_their_slot, transfers_are_fixed_when_queued,
    transfers_have_one_fate, transfers_wait_for_what_comes,
};

#[test]
fn each_law_can_be_called(_rt: HostRuntime) {
    right_logs_are_determined();
    right_logs_serve();
    holders_wait();
    holds_end();
    notices_are_numbered();
    logged_out_comes_last();
    links_take_one_job();
    sessions_run_one_job();
    transfers_have_one_fate();
    transfers_wait_for_what_comes();
    transfers_are_fixed_when_queued();
    transfers_are_cancelled_with_their_slot();
    ends_set_offset();
    counts_are_exact();
    replies_follow_openings();
    client_part_is_right_and_acted();
    sweeps_change_nothing();
    scavenges_change_nothing();
    stops_last();
    stops_part_with_all();
}
