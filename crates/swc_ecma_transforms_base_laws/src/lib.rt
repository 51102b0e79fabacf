//! What is promised of programs that are renamed and then fixed.
//!
//! `specs/Headline.antt`, `specs/Finished.antt`, `specs/Renamers.antt` and `specs/Sources.antt` state the laws of a chain, `specs/Settled.antt`
//! those of a second one, `specs/SourceNames.antt` and `specs/KeptForms.antt` those on names of sources and normal forms. Each is the contract
//! of a function that does nothing, so that it is proved.
#![tactic(auto)]

mod apart_laws;
mod finishing_laws;
mod kept_forms_laws;
mod settling_laws;
mod source_names_laws;

pub use apart_laws::{
    a_chain_changes_nothing, a_chain_changes_spans, answers_are_apart, labels_meet_as_the_old,
};
pub use finishing_laws::{
    chaining_keeps_forms, chaining_keeps_sources, finishing_keeps_forms, finishing_keeps_ids,
    finishing_keeps_meanings, finishing_keeps_programs, finishing_keeps_promises,
    finishing_keeps_sources, finishing_keeps_spans, finishing_meets_no_target,
    finishing_renamed_keeps_ids, finishing_renamed_keeps_meanings,
    finishing_renamed_keeps_programs, finishing_renamed_keeps_sources,
    finishing_renamed_keeps_spans, finishing_renamed_meets_no_target, lawful_renamers_keep_forms,
    lawful_renamers_keep_forms_of_sources, lawful_renamers_keep_promises,
    lawful_renamers_keep_sources, renamers_that_preserve_none_keep_promises,
    renamers_that_preserve_none_suit, renamers_that_preserve_top_names_suit,
    resolved_sources_are_ready, resolved_sources_have_their_form,
};
pub use kept_forms_laws::alpha_keeps_forms;
pub use settling_laws::{
    answers_are_clean_programs, answers_read_no_names, chain_changes_nothing, chain_changes_spans,
    hygiene_leaves_apart,
};
pub use source_names_laws::{
    hygiene_keeps_sources, normal_forms_catch_none, normal_names_mean_their_ids,
    renamers_keep_sources,
};
