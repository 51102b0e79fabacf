//! What the passes keep of a text: that a tree is shaped and spelled, and its tokens.
//!
//! Each definition of `specs` that a module is called after states its laws. Each is the contract of a function that does nothing, so that it is
//! proved.
#![tactic(auto)]

mod chain_laws;
mod mangle_laws;
mod namings_laws;
mod pairs_laws;
mod pieces_laws;
mod renames_laws;
mod resolved_laws;
mod spelling_laws;
mod stripping_laws;
mod tokens_laws;
mod units_laws;

pub use chain_laws::{
    chain_keeps_texts, fixer_keeps_texts, hygiene_keeps_texts, short_chain_keeps_texts,
    short_names_keep_texts, unparen_keeps_texts,
};
pub use mangle_laws::{mangling_keeps_texts, short_texts_are_words};
pub use namings_laws::{
    hygiene_gives_new_words, hygiene_keeps_shape, hygiene_keeps_spelling, renaming_keeps_shape,
    renaming_keeps_spelling,
};
pub use pairs_laws::{
    blocks_keep_shape, blocks_keep_spelling, due_pairs_keep_shape, due_pairs_keep_spelling,
};
pub use pieces_laws::{
    bound_names_alone_differ, names_alone_differ, new_names_keep_pieces, pairs_alone_are_set,
    resolver_keeps_pieces,
};
pub use renames_laws::new_names_keep_shape;
pub use resolved_laws::{
    resolved_is_as_shaped, resolved_is_as_spelled, texts_are_as_shaped, texts_are_as_spelled,
};
pub use spelling_laws::new_names_keep_spelling;
pub use stripping_laws::{
    fixer_keeps_shape, fixer_keeps_spelling, unparen_keeps_shape, unparen_keeps_spelling,
};
pub use tokens_laws::{
    answers_keep_tokens, chains_keep_tokens, normal_forms_keep_tokens, stripping_keeps_tokens,
    unpairing_keeps_tokens, writing_out_keeps_tokens,
};
pub use units_laws::{any_hygiene_keeps_texts, any_renaming_keeps_texts};
