//! Further laws of the server that never moves (RFC 7530): what the definitions of nm_rules are told to do by the table that
//! follows the entries, said here in the standard's own words. Each is the contract of a function that does nothing, and
//! nothing stands on this crate: a law that is added proves no other crate anew.
#![tactic(auto)]

mod attributes;
mod calls;
mod data;
mod files;
mod rows;
mod stateids;

pub use attributes::one_list_of_attributes_is_supported;
pub use calls::{rows_are_of_callers, same_calls_are_equal};
pub use data::{reads_meet_no_deny, sizes_meet_no_deny, writes_meet_no_deny};
pub use files::{
    changes_are_counted, files_are_as_made, files_are_numbered, files_are_there_as_made,
};
pub use rows::{denied_ranges_have_one_spelling, resource_comes_past_the_limit};
pub use stateids::{
    closed_stateids_are_kept_closes, counters_stand_once, lock_stateids_are_told,
    lock_stateids_have_their_opens, open_stateids_are_told, stateids_live_as_told,
};
