//! A program of the goal Module as a pass works on it.
ghost use Rattle.std.specs.Prelude.{◌≡◌, [], None};
ghost use Rattle.swc_tree_node.specs.declared.kind.Class.TheVariants as class;
ghost use Rattle.swc_tree_node.specs.declared.slot.Slot.TheVariants.{One};
ghost use Rattle.swc_tree_node.specs.declared.slot.Content.TheVariants.{Node as Of};
ghost use Rattle.swc_tree_node.specs.Fits.{AllFit};

use crate::module_::Module;
use std::alloc::Global;
use std::mem;
use swc_tree_handle::Trees;
use swc_tree_items::Items;
use swc_tree_marks::Atom;
use swc_tree_node::Node;

impl Module {
    /// Takes the items and the `#!` line out, and leaves an empty program of the same span.
    ///
    /// Nothing is copied: a pass works on the nodes in place, and puts them back by `put`.
    pub fn take(&mut self, alloc: Global) -> (Items<Node>, Option<Atom>)
        ensures items { result.0 ≡ self.old.body }
        ensures fit { AllFit (One (Of class.ModuleItem)) result.0 }
        ensures shebang { result.1 ≡ self.old.shebang }
        ensures span_stays { self.new.span ≡ self.old.span }
        ensures no_body { self.new.body ≡ [] }
        ensures no_shebang { self.new.shebang ≡ None }
    {
        let body = mem::replace(&mut self.body, Trees::new(alloc));
        (body.into_nodes(), self.shebang.take())
    }

    /// Puts items and a `#!` line into the program, in the place of those that it has.
    pub fn put(&mut self, items: Items<Node>, shebang: Option<Atom>)
        requires { AllFit (One (Of class.ModuleItem)) items }
        ensures items { self.new.body ≡ items }
        ensures shebang { self.new.shebang ≡ shebang }
        ensures span_stays { self.new.span ≡ self.old.span }
    {
        self.body = Trees::from_nodes(items);
        self.shebang = shebang;
    }
}
