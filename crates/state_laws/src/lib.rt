//! What holds of every state that a volume comes to: where bytes may differ, which places files have, and what is cached.
#![tactic(auto)]

mod laws;

pub use laws::{
    accepted_is_done, always_coherent, blocks_have_bytes, cache_lists_are, changes_follow,
    directories_are_wide, fingerprints_are_true, fresh_is_mountable, holes_read, kept_stays,
    places_are_in_files, stored_is_mountable, stores_itself,
};
