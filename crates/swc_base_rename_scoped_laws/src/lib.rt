//! Laws of the names that ids get in well-scoped trees: each is the contract of a function that does nothing (`specs/Laws`).
#![tactic(auto)]

ghost use Rattle.swc_base_rename_scoped_laws.specs.Laws.{ChainedIsFlat, NamesAreApart, NamesAreApartWhereNoBodyDeclares};

/// In a well-scoped module in which no body of a `for` statement is a lexical declaration, two ids that occur in one scope of the
/// language and are declared there or further out get two texts, a free id has another text than what the scope declares, and
/// free ids keep their text.
pub fn names_are_apart_where_no_body_declares()
    ensures { NamesAreApartWhereNoBodyDeclares }
{}

/// The same of each well-scoped module that can be written down: no body of a `for` statement is a lexical declaration there.
pub fn names_are_apart()
    ensures { NamesAreApart }
{}

/// On a well-scoped tree that fits some place, as each module and each script does, the ids get the same names where all earlier
/// names count at a scope, and where only those of the scope and of the scopes round it do: no other id occurs there.
pub fn chained_is_flat()
    ensures { ChainedIsFlat }
{}
