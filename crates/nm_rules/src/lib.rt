//! The server that never moves (RFC 7530): the definitions that every contract above cites, and the laws about them.
#![tactic(auto)]

mod laws;
mod lock_laws;
mod lock_rows;
mod repeats;

pub use laws::{
    closed_opens_are_kept_closes, files_are_in_directories, files_read_as_written,
    files_stay_within_their_limits, holders_have_rows, legal_tables_are_sound,
    owners_are_kept_as_noted, owners_of_opens_are_known, repeats_change_nothing, rows_grow_by_two,
    rows_stay_within_the_limit, seqids_are_apart, shares_never_conflict, stateids_are_counted,
    tables_keep_shares, tables_show_what_stands,
};
pub use lock_laws::{
    barriers_are_least, joined_ranges_are_told_by_bytes, ranges_hold_bytes, ranges_never_conflict,
    ranges_stay_joined,
};
pub use lock_rows::{
    held_locks_never_conflict, legal_locks_stand, locks_are_held_as_taken, locks_are_held_at_bytes,
    locks_never_conflict, locks_stand,
};
pub use repeats::{is_repeat, judge};
