//! What is said of two programs that are one but for names, by the names that the first one binds.
//!
//! `specs/Laws.antt` states the law. It is the contract of a function that does nothing but call the laws that it rests on.

ghost use Rattle.swc_ecma_transforms_base_laws.specs.KeptForms.{AlphaKeepsForms};

use swc_base_fixer_laws::targets_stand_bare;
use swc_base_normal_form_laws::normal_form_is_clean;
use swc_tree_grammar_texts::texts_are_as_writable;
use swc_tree_sites_kept::{
    plain_scripts_are_left, writable_modules_are_tame, writable_normal_form_is_left,
};
use swc_tree_sites_laws::stripped_takes_the_same;
use swc_tree_sites_written::written_out_is_left;

/// A program without contexts that can be written down has the normal form of each that it is one with but for names, but for the names
/// that it binds.
pub fn alpha_keeps_forms()
    ensures { AlphaKeepsForms }
{
    normal_form_is_clean();
    texts_are_as_writable();
    writable_normal_form_is_left();
    plain_scripts_are_left();
    targets_stand_bare();
    writable_modules_are_tame();
    written_out_is_left();
    stripped_takes_the_same();
}
