//! What bringing helpers into a program keeps, said apart from how it is done.
//!
//! `specs/Laws.antt` and `specs/Injection.antt` state the laws. Each is the contract of a function that does nothing, so that it is proved.
#![tactic(auto)]

ghost use Rattle.swc_base_tables_laws.specs.Injection.{InjectionKeepsScriptWellScoped, InjectionKeepsWellScoped};
ghost use Rattle.swc_base_tables_laws.specs.Laws.{BodiesKeepScriptWellScoped, BodiesKeepWellScoped, ImportsKeepWellScoped, RequiresKeepWellScoped};

/// A well-scoped module stays so when an import is put in for each helper that it refers to, whose names have the helper mark
/// as context.
pub fn imports_keep_a_module_well_scoped()
    ensures { ImportsKeepWellScoped }
{}

/// A well-scoped module stays so when the bodies of the helpers that it refers to are put in, each name in them with the mark
/// of its scope.
pub fn bodies_keep_a_module_well_scoped()
    ensures { BodiesKeepWellScoped }
{}

/// A well-scoped module stays so once the helpers that it was given are brought in, from a package or written out.
pub fn injection_keeps_a_module_well_scoped()
    ensures { InjectionKeepsWellScoped }
{}

/// A well-scoped script stays so when a `require` is put in for each helper that it refers to, and each such reference becomes a
/// member.
pub fn requires_keep_a_script_well_scoped()
    ensures { RequiresKeepWellScoped }
{}

/// A well-scoped script stays so when the bodies of the helpers that it refers to are put in, each name in them with the mark
/// of its scope, where they are a plain script and don't make it strict.
pub fn bodies_keep_a_script_well_scoped()
    ensures { BodiesKeepScriptWellScoped }
{}

/// A well-scoped script stays so once the helpers that it was given are brought in, from a package or written out.
pub fn injection_keeps_a_script_well_scoped()
    ensures { InjectionKeepsScriptWellScoped }
{}
