//! The pieces of trees that a pass leads from one to the other.
//!
//! `specs/Laws.antt` states the laws. Each is the contract of a function that does nothing, so that it is proved.

ghost use Rattle.text_kept_laws.specs.Pieces.{BoundNamesAloneDiffer, NamesAloneDiffer, NewNamesKeepPieces, PairsAloneAreSet, ResolverKeepsPieces};

use swc_base_rename_laws::normal_form_keeps_spans;

/// A resolver changes no piece.
pub fn resolver_keeps_pieces()
    ensures { ResolverKeepsPieces }
{}

/// Trees that are the same but for names have the same pieces but for what these name.
pub fn names_alone_differ()
    ensures { NamesAloneDiffer }
{}

/// Programs that are the same but for bound names, with all written out, have the same pieces but for these.
pub fn bound_names_alone_differ()
    ensures { BoundNamesAloneDiffer }
{}

/// New names change what is named alone, once all is written out.
pub fn new_names_keep_pieces()
    ensures { NewNamesKeepPieces }
{
    normal_form_keeps_spans();
}

/// Due pairs add parentheses alone.
pub fn pairs_alone_are_set()
    ensures { PairsAloneAreSet }
{}
