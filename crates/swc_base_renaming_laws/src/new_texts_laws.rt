//! Which texts a renamer gives the names of a normal form, said apart from how it is done; hygiene is one.
//!
//! `specs/Laws.antt` states the laws. Each is the contract of a function that does nothing, so that it is proved.

ghost use Rattle.swc_base_renaming_laws.specs.NewTexts.{HygieneGivesNormalFormNewTexts, HygieneKeepsSpans, RenamingGivesNormalFormNewTexts, RenamingKeepsSpans};

/// The normal form of what hygiene makes of a program is the program's own, with the texts that hygiene gives where names
/// are bound or referred to, where nothing reads names and classes don't keep theirs.
pub fn hygiene_gives_normal_form_new_texts()
    ensures { HygieneGivesNormalFormNewTexts }
{}

/// The normal form of what hygiene makes of such a program is the program's own, spans too, but for texts and contexts.
pub fn hygiene_keeps_spans()
    ensures { HygieneKeepsSpans }
{}

/// The normal form of what a renamer makes of a program is the program's own, with the texts that the renamer gives where names
/// are bound or referred to, where no two preserved ids that a module binds at its top have one text.
pub fn renaming_gives_normal_form_new_texts()
    ensures { RenamingGivesNormalFormNewTexts }
{}

/// The normal form of what a renamer makes of such a program is the program's own, spans too, but for texts and contexts.
pub fn renaming_keeps_spans()
    ensures { RenamingKeepsSpans }
{}
