//! Printed by tools/print_table.py from tools/tree.txt.
ghost use Rattle.std.specs.Prelude.{◌≡◌, IfOk};
ghost use Rattle.swc_tree_node.specs.declared.kind.Class.TheVariants as class;
ghost use Rattle.swc_tree_node.specs.declared.slot.Slot.TheVariants.{One};
ghost use Rattle.swc_tree_node.specs.declared.slot.Content.TheVariants.{Node as Of};
ghost use Rattle.swc_tree_node.specs.Fits.{Fits};
ghost use Rattle.swc_tree_leaves.specs.Nodes.{regex_node};

use std::alloc::{AllocError, Global};
use swc_tree_handle::{Opened, class, clone_three, close_three, open_three};
use swc_tree_marks::{Atom, Span};
use swc_tree_node::{Kind, Node};

/// A regular expression: its pattern and its flags (ECMA-262, RegularExpressionLiteral).
#[derive(Debug, Drop, PartialEq, Eq)]
pub struct Regex {
    pub span: Span,
    pub exp: Atom,
    pub flags: Atom,
}

impl Clone for Regex {
    ghost is_clone = { λ it copy. copy ≡ it };

    fn clone(&self) -> Result<Regex, AllocError> {
        let (span, exp, flags) = clone_three(&self.span, &self.exp, &self.flags)?;
        Ok(Regex { span, exp, flags })
    }
}

impl Opened<class::Regex> for Regex {
    ghost class = { class.Regex };

    ghost node = { regex_node };

    fn from_node(closed: Node) -> Regex
        requires { Fits closed (One (Of class.Regex)) }
        ensures { regex_node result ≡ closed }
    {
        let (span, exp, flags) = open_three::<class::Regex, _, _, _>(closed, Kind::Regex);
        Regex { span, exp, flags }
    }

    fn into_node(self, alloc: Global) -> Result<Node, AllocError>
        ensures { IfOk result (λ closed. (closed ≡ regex_node self) × Fits closed (One (Of class.Regex))) }
    {
        let Regex { span, exp, flags } = self;
        close_three::<class::Regex, _, _, _>(alloc, Kind::Regex, (span, exp, flags))
    }
}
