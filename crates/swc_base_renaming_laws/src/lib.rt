//! What renaming keeps of a program, and when it changes nothing.
//!
//! Each definition of `specs` that a module is called after states its laws. Each is the contract of a function that does nothing, so that it is
//! proved. `hygiene_laws` is on what fits and can be written down, `new_texts_laws` and `ids_laws` on names, `errors_laws` on early errors,
//! `units_laws` and `tries_laws` on maps and tries, `source_laws` and `readers_laws` on what reads names, and the others on second runs.
#![tactic(auto)]

mod carried_laws;
mod contexts_laws;
mod errors_laws;
mod hygiene_laws;
mod ids_laws;
mod kept_meetings_laws;
mod labelled_laws;
mod named_meetings_laws;
mod new_texts_laws;
mod readers_laws;
mod settled_laws;
mod source_laws;
mod tries_laws;
mod units_laws;

pub use carried_laws::labelled_answers_are_apart;
pub use contexts_laws::{labels_carry_texts, labels_keep_texts, substitution_needs_no_contexts};
pub use errors_laws::{
    answer_declares_by_the_rules, answer_has_no_early_error_of_names,
    renamed_answer_declares_by_the_rules, renamed_answer_has_no_early_error_of_names,
};
pub use hygiene_laws::{
    hygiene_is_lawful, hygiene_keeps_normal_form, hygiene_spares_global_values,
    hygiene_stays_fitting, hygiene_stays_settled, hygiene_stays_writable,
    renaming_keeps_normal_form, renaming_stays_fitting, renaming_stays_settled,
    renaming_stays_writable,
};
pub use ids_laws::{
    hygiene_keeps_ids, hygiene_keeps_meanings, renamers_keep_ids, renamers_keep_meanings,
};
pub use kept_meetings_laws::{due_pairs_keep_meetings, stripping_adds_no_pairs};
pub use labelled_laws::{
    fixed_names_are_left, labels_are_ids, labels_are_meant, labels_tell_texts,
    loose_names_were_loose,
};
pub use named_meetings_laws::substitution_keeps_meetings;
pub use new_texts_laws::{
    hygiene_gives_normal_form_new_texts, hygiene_keeps_spans, renaming_gives_normal_form_new_texts,
    renaming_keeps_spans,
};
pub use readers_laws::{
    blocks_add_no_reader, contexts_add_no_reader, due_pairs_add_no_reader, new_names_add_no_reader,
    stripping_adds_no_reader,
};
pub use settled_laws::{
    blocks_add_no_pairs, hygiene_keeps_apart, hygiene_tells_met_apart, labels_carry_apart,
    meetings_are_met, one_scope_declares, pairs_meet, programs_take_all,
};
pub use source_laws::{readers_need_no_contexts, sameness_needs_no_contexts};
pub use tries_laws::{spent_are_crowded, tries_are_few, tries_by_units_are_few};
pub use units_laws::{maps_by_units_are_flat, maps_have_bounds, refusals_are_of_crowding};

// Libraries below that crates above name through this one.
pub use swc_tree_sites_kept;
