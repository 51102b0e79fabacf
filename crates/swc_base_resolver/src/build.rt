//! Making a resolver.
ghost use Rattle.std.specs.Prelude.{◌≡◌, ◌≢◌};

use crate::pass::Resolver;
use swc_tree_marks::Mark;

/// The resolver that gives a program the top mark, and the unresolved mark to what it does not declare.
pub fn resolver(unresolved_mark: Mark, top_level_mark: Mark) -> Resolver
    requires unresolved { unresolved_mark ≢ 0 }
    requires top { top_level_mark ≢ 0 }
    ensures { result ≡ (unresolved_mark, top_level_mark) }
{
    Resolver::with_marks(unresolved_mark, top_level_mark)
}
