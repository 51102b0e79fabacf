//! What becomes of the names that a module exports and declares.
//!
//! `specs/Exported.antt` says which these are; `specs/Laws.antt` states the laws. Each is the contract of a function that
//! does nothing, so that it is proved.

ghost use Rattle.swc_tree_sites_kept.specs.Exports.{ExportListsAreListed, StrippedExportsTheSame, WrittenOutExports};

/// A stripped module exports the same.
pub fn stripped_exports_the_same()
    ensures { StrippedExportsTheSame }
{}

/// A module that is written out exports what it did, and else only what its program takes.
pub fn written_out_exports()
    ensures { WrittenOutExports }
{}

/// The references in the export lists of a module, each of which is an item of it, are what it exports so.
pub fn export_lists_are_listed()
    ensures { ExportListsAreListed }
{}
