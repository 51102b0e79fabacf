//! Programs as a pass leaves them while it holds their items.
ghost use Rattle.std.specs.Prelude.{◌≡◌, [], None};

use std::alloc::Global;
use swc_tree_handle::Trees;
use swc_tree_marks::Span;
use swc_tree_modules::{Module, Script};

/// A program of a span, with no item and no `#!` line.
pub fn empty_module(alloc: Global, span: Span) -> Module
    ensures { result ≡ record { span = span; body = []; shebang = None } }
{
    Module {
        span,
        body: Trees::new(alloc),
        shebang: None,
    }
}

/// A program of the goal Script, of a span, with no item and no `#!` line.
pub fn empty_script(alloc: Global, span: Span) -> Script
    ensures { result ≡ record { span = span; body = []; shebang = None } }
{
    Script {
        span,
        body: Trees::new(alloc),
        shebang: None,
    }
}
