//! Early errors of names, where a scope is known by what it takes and not by its path.
//!
//! `specs/Laws.antt` states the laws. Each is the contract of a function that does nothing, so that it is proved.

ghost use Rattle.swc_tree_sites_kept.specs.Errors.{AnswerDeclares, AnswerRedeclaresNone, DeclaredStays, NewTextsRedeclareNone, NoRedeclarationStays, ReadingsKeepScopes};

/// Where no name of a program is declared against the rules, none is in one of its goal that keeps its scopes.
pub fn no_redeclaration_stays()
    ensures { NoRedeclarationStays }
{}

/// Nor in a program of the same shape whose new texts capture none.
pub fn new_texts_redeclare_none()
    ensures { NewTextsRedeclareNone }
{}

/// What is declared in a program that keeps the scopes of another is declared in that one.
pub fn declared_stays()
    ensures { DeclaredStays }
{}

/// A tree keeps the scopes of another where both are read by other names.
pub fn readings_keep_scopes()
    ensures { ReadingsKeepScopes }
{}

/// What is left of a program, with new texts that capture none, declares no name against the rules, where the program
/// declares none; so does an answer that keeps its scopes.
pub fn answer_redeclares_none()
    ensures { AnswerRedeclaresNone }
{}

/// Such an answer declares at its top what the program does there, by its new text.
pub fn answer_declares()
    ensures { AnswerDeclares }
{}
