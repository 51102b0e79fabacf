//! The names of a tree with the scopes round them, where a scope is known by what it takes and not by its path.
//!
//! A tree and what is left of it, as its normal form, have other paths; so names are compared by what stands round them.
//! `specs/Laws.antt` states what is kept. Each law is the contract of a function that does nothing, so that it is proved.
#![tactic(auto)]

ghost use Rattle.swc_tree_sites.specs.Laws.{NoCaptureStays, OneScopeStays};

/// Where each name of a tree has one scope, each name of what is left of it has one.
pub fn one_scope_stays()
    ensures { OneScopeStays }
{}

/// Where new texts capture nothing in a tree, they capture nothing in what is left of it.
pub fn no_capture_stays()
    ensures { NoCaptureStays }
{}
