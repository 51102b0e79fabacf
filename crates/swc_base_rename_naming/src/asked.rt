//! What naming asks of a program.

use swc_tree_marks::Id;

/// What naming asks of a program, whose ids and scopes are numbered.
pub trait Asked {
    ghost use Rattle.std.specs.Prelude.{◌≡◌, ℕ, Bool, List, Option, Some, None, MatchOption};
    ghost use Rattle.std.specs.List.{list_any};
    ghost use Rattle.swc_base_rename_naming.specs.Stretches.{is_within};
    ghost use Rattle.swc_base_rename_substitution.specs.Names.{Id};

    /// The id of a number.
    ghost id_of: { Self → ℕ → Option Id };

    /// Whether the id of a number occurs at a scope or below it.
    ghost occurs: { Self → ℕ → ℕ → Bool };

    /// The positions of the id of a number.
    ghost positions: { Self → ℕ → List ℕ };

    /// The stretch of positions of a scope: where it starts, and where it ends.
    ghost stretch: { Self → ℕ → ℕ × ℕ };

    /// Whether an id keeps its text.
    ghost keeps: { Self → Id → Bool };

    /// Whether no id may get a text.
    ghost preserved: { Self → List ℕ → Bool };

    /// The id of a number.
    fn id(&self, number: usize) -> Option<&Id>
        ensures { MatchOption result (id_of self.now number ≡ None) (λ id. id_of self.now number ≡ Some id.now) };

    /// Whether the id of a number occurs at a scope or below it.
    fn occurs(&self, scope: usize, id: usize) -> bool
        ensures { result ≡ occurs self.now scope id };

    /// The positions of the id of a number.
    fn positions(&self, id: usize) -> &[usize]
        ensures { result.now ≡ positions self.now id };

    /// The stretch of positions of a scope.
    fn stretch(&self, scope: usize) -> (usize, usize)
        ensures { result ≡ stretch self.now scope };

    /// Whether an id keeps its text.
    fn keeps(&self, id: &Id) -> bool
        ensures { result ≡ keeps self.now id.now };

    /// Whether no id may get a text.
    fn is_preserved(&self, text: &str) -> bool
        ensures { result ≡ preserved self.now text.now };

    /// An id occurs at a scope or below it where one of its positions is in the scope's stretch.
    ghost placed: { (a : Self) (s x : ℕ) → occurs a s x ≡ list_any (is_within (stretch a s)) (positions a x) };
}

/// How the scopes of a program lie in one another.
pub trait Nesting {
    ghost use Rattle.std.specs.Prelude.{◌≡◌, ℕ, Bool, true};

    /// Whether a scope is another one, or lies round it.
    ghost surrounds: { Self → ℕ → ℕ → Bool };

    /// Whether a scope is another one, or lies round it.
    fn surrounds(&self, outer: usize, inner: usize) -> bool
        ensures { result ≡ surrounds self.now outer inner };

    /// A scope is itself.
    ghost own: { (a : Self) (s : ℕ) → surrounds a s s ≡ true };

    /// What lies in a scope lies in those round it.
    ghost through: { (a : Self) (s t u : ℕ) → surrounds a s t ≡ true → surrounds a t u ≡ true → surrounds a s u ≡ true };

    /// No two scopes lie in one another.
    ghost same: { (a : Self) (s t : ℕ) → surrounds a s t ≡ true → surrounds a t s ≡ true → s ≡ t };
}
