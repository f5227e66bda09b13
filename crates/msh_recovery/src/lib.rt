//! The records of an end's journal, and what a disk opens to, as an end.
#![tactic(auto)]

mod laws;

pub use laws::{
    a_fold_leads_to_its_end, a_fold_of_few_bytes_is_short, a_leaf_is_no_journal_at_one_place,
    a_record_is_put, a_stopped_record_stands_or_not, an_image_opens_to_one_end,
    no_whole_disk_is_unfit,
};
