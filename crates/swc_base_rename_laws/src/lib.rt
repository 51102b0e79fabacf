//! What giving names anew keeps, said apart from how it is done.
//!
//! `specs/Laws.antt` states the laws. Each is the contract of a function that does nothing, so that it is proved.
#![tactic(auto)]

ghost use Rattle.swc_base_rename_laws.specs.Laws.{EmptyMapChangesNothing, KeptTextsChangeNothing, NormalFormHasNewNames, NormalFormKeepsSpans, NormalFormStays, OuterTextsStay, WritableStays};

/// A map without names changes nothing.
pub fn empty_map_changes_nothing()
    ensures { EmptyMapChangesNothing }
{}

/// A map that gives each id its own text changes nothing.
pub fn kept_texts_change_nothing()
    ensures { KeptTextsChangeNothing }
{}

/// Strings, keys, labels, imported and exported names stay, in their order.
pub fn outer_texts_stay()
    ensures { OuterTextsStay }
{}

/// A tree that fits and can be written down still can, where each new text is an identifier's.
pub fn writable_stays()
    ensures { WritableStays }
{}

/// A writable program has the same normal form but for the names that change.
pub fn normal_form_stays()
    ensures { NormalFormStays }
{}

/// A writable program has its own normal form with the new ids where names are bound or referred to.
pub fn normal_form_has_new_names()
    ensures { NormalFormHasNewNames }
{}

/// The normal form of a writable program has the spans that it had.
pub fn normal_form_keeps_spans()
    ensures { NormalFormKeepsSpans }
{}
