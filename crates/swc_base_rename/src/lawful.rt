//! What a renamer is.
ghost use Rattle.std.specs.Prelude.{◌≡◌, ◌<◌, ◌^◌, IsTrue, IfOk, IfErr, OnOk, codes};
ghost use Rattle.swc_tree_modules.specs.Nodes.{module_node, script_node};
ghost use Rattle.swc_tree_grammar.specs.Writable.{is_identifier_text};
ghost use Rattle.swc_base_rename_naming.specs.Ids.{HasJust};
ghost use Rattle.swc_base_rename_naming.specs.Counters.{IsCounted, IsRefusal};

use std::alloc::Global;
use std::collections::HashSet;
use swc_tree_marks::{Id, JsWord, NoMemory, PassError};
use swc_tree_modules::{Module, Script};

/// Gives ids new texts: each id has a text for each counter from 0 to the greatest `usize`.
///
/// An implementation says what its texts are, and which ids it preserves, and proves the laws.
pub trait Renamer {
    ghost use Rattle.std.specs.Prelude.{◌≡◌, ℕ, Bool, true, false, List};
    ghost use Rattle.swc_tree_node.specs.declared.node.Node.{Node};
    ghost use Rattle.swc_base_rename_substitution.specs.Names.{Id};

    /// Whether the counter starts again at each id of a scope. It is asked where `MANGLE` is not set.
    const RESET_N: bool;

    /// Whether scopes beside one another may share texts: the counter then goes on within a scope.
    const MANGLE: bool;

    ghost RESET_N: { Bool };

    ghost MANGLE: { Bool };

    /// The text of an id at a counter.
    ghost text: { Self → Id → ℕ → List ℕ };

    /// Whether an id keeps its text in a program; by default none does.
    ghost preserved: { Self → Node → Id → Bool } = { λ _ _ _. false };

    /// What being asked for these ids makes of the renamer, whatever the answer; by default nothing is said of it.
    ghost asked: { Self → Node → Self → Type 0 } = { λ _ _ _. Unit {0} };

    /// The ids that keep their texts in a module.
    ///
    /// # Errors
    ///
    /// `NoMemory` where memory is refused.
    fn preserved_ids_for_module(
        &mut self,
        alloc: Global,
        program: &Module,
    ) -> Result<HashSet<Id>, NoMemory>
        ensures just { IfOk result (HasJust (preserved self.old (module_node program.now))) }
        ensures asked { asked self.old (module_node program.now) self.new };

    /// The ids that keep their texts in a script.
    ///
    /// # Errors
    ///
    /// `NoMemory` where memory is refused.
    fn preserved_ids_for_script(
        &mut self,
        alloc: Global,
        program: &Script,
    ) -> Result<HashSet<Id>, NoMemory>
        ensures just { IfOk result (HasJust (preserved self.old (script_node program.now))) }
        ensures asked { asked self.old (script_node program.now) self.new };

    /// Whether ids of one text are known to have the same texts, so that what one could not get another need not try; by default
    /// they are not. Else the ids of a scope that share a text cost the square of how many they are.
    fn are_alike(&self) -> bool
        ensures { result ≡ true → (x y : Id) → x.0 ≡ y.0 → (n : ℕ) → text self.now x n ≡ text self.now y n }
    {
        false
    }

    /// The text of an id at a counter, which goes one up.
    ///
    /// # Errors
    ///
    /// `CounterSpent` at the greatest `usize` alone, where the counter stays, and `NoMemory`.
    fn new_name_for(&self, alloc: Global, orig: &Id, n: &mut usize) -> Result<JsWord, PassError>
        ensures made { IfOk result (λ made. made ≡ text self.now orig.now n.old) }
        ensures counted { OnOk result (IsCounted n.old n.new) }
        ensures refused { IfErr result (λ e. IsRefusal e n.old n.new) };

    /// Different counters give one id different texts.
    ghost differ: { (r : Self) (x : Id) (m n : ℕ) → m < 2 ^ 64 → n < 2 ^ 64 → text r x m ≡ text r x n → m ≡ n };

    /// An id whose text is an identifier's gets such texts.
    ghost identifiers: { (r : Self) (x : Id) (n : ℕ) → n < 2 ^ 64 → IsTrue (is_identifier_text x.0) → IsTrue (is_identifier_text (text r x n)) };

    /// Only `eval` itself gets the text `eval`.
    ghost no_eval: { (r : Self) (x : Id) (n : ℕ) → n < 2 ^ 64 → text r x n ≡ codes "eval" → x.0 ≡ codes "eval" };

    /// Only `arguments` itself gets the text `arguments`.
    ghost no_arguments: { (r : Self) (x : Id) (n : ℕ) → n < 2 ^ 64 → text r x n ≡ codes "arguments" → x.0 ≡ codes "arguments" };
}
