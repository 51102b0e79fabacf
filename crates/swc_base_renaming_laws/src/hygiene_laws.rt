//! What a renamer keeps, said apart from how it is done; hygiene is one.
//!
//! `specs/Laws.antt` states the laws. Each is the contract of a function that does nothing, so that it is proved.

ghost use Rattle.swc_base_renaming_laws.specs.Hygiene.{HygieneIsLawful, HygieneKeepsNormalForm, HygieneSparesGlobalValues, HygieneStaysFitting, HygieneStaysSettled, HygieneStaysWritable, RenamingKeepsNormalForm, RenamingStaysFitting, RenamingStaysSettled, RenamingStaysWritable};

/// A program of the table is one still, of its goal, where nothing reads names and classes don't keep theirs.
pub fn hygiene_stays_fitting()
    ensures { HygieneStaysFitting }
{}

/// A program that can be written down still can, where nothing reads names and classes don't keep theirs.
pub fn hygiene_stays_writable()
    ensures { HygieneStaysWritable }
{}

/// A plain function stands in a block of sloppy code, and a label names a function, only where one did, where nothing reads
/// names and classes don't keep theirs.
pub fn hygiene_stays_settled()
    ensures { HygieneStaysSettled }
{}

/// A program that can be written down has the same normal form but for the names that it binds, where nothing reads names
/// and classes don't keep theirs.
pub fn hygiene_keeps_normal_form()
    ensures { HygieneKeepsNormalForm }
{}

/// A program of the table is one still, of its goal, whichever renamer gives the names.
pub fn renaming_stays_fitting()
    ensures { RenamingStaysFitting }
{}

/// A program that can be written down still can, whichever lawful renamer gives the names, and whatever it preserves.
pub fn renaming_stays_writable()
    ensures { RenamingStaysWritable }
{}

/// A plain function stands in a block of sloppy code, and a label names a function, only where one did, whichever lawful
/// renamer gives the names.
pub fn renaming_stays_settled()
    ensures { RenamingStaysSettled }
{}

/// A program that can be written down has the same normal form but for the names that it binds, whichever renamer gives the
/// names, where no two preserved ids that a module binds at its top have one text.
pub fn renaming_keeps_normal_form()
    ensures { RenamingKeepsNormalForm }
{}

/// The renamer of hygiene is lawful.
pub fn hygiene_is_lawful()
    ensures { HygieneIsLawful }
{}

/// The renamer of hygiene gives `undefined`, `NaN` and `Infinity` to none but themselves.
pub fn hygiene_spares_global_values()
    ensures { HygieneSparesGlobalValues }
{}
