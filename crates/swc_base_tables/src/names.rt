//! Naming a helper where a program calls it.
ghost use Rattle.std.specs.Prelude.{◌≡◌, IfOk, OnOk, OnErr, true, false};
ghost use Rattle.swc_tree_handle.specs.Handles.{ident_node};
ghost use Rattle.swc_base_tables_helpers.specs.Chosen.{KeepsForm};
ghost use Rattle.swc_base_tables_helpers.specs.Closure.{InClosure};
ghost use Rattle.swc_base_tables_helpers.specs.Sets.{Gains};
ghost use Rattle.swc_base_tables.specs.Helpers.{named};

use std::alloc::Global;
use swc_base_tables_helpers::{Helper, Helpers};
use swc_tree::{Callee, Expr};
use swc_tree_handle::{Tree, class};
use swc_tree_items::Text;
use swc_tree_marks::{Ident, Mark, NoMemory, Span, SyntaxContext};
use swc_tree_node::Kind;

// `_throw`, in the context of one mark.
fn name_of(alloc: Global, mark: Mark, span: Span, helper: Helper) -> Result<Ident, NoMemory>
    ensures { IfOk result (λ name. name ≡ named mark span helper) }
{
    let mut text = String::from_str(alloc, "_")?;
    text.push_str(helper.name())?;
    let sym = Text::from_string(alloc, text)?;
    let mut ctxt = SyntaxContext::empty(alloc);
    ctxt.apply_mark(mark)?;
    Ok(Ident { span, ctxt, sym })
}

/// A helper's name as an expression, as `_throw` with the helper mark; the program is given the helper, as by
/// `Helpers::enable`.
///
/// # Errors
///
/// `NoMemory` where memory is refused: the program then has the helpers that it had.
pub fn helper_expr(
    alloc: Global,
    helpers: &mut Helpers,
    span: Span,
    helper: Helper,
) -> Result<Expr, NoMemory>
    ensures name { IfOk result (λ expr. expr ≡ Expr.Ident (named helpers.old.mark span helper)) }
    ensures inline { OnOk result (helpers.old.external ≡ false → Gains helpers.old.enabled helpers.new.enabled (InClosure helper)) }
    ensures alone { OnOk result (helpers.old.external ≡ true → Gains helpers.old.enabled helpers.new.enabled (λ other. other ≡ helper)) }
    ensures form { KeepsForm helpers.old helpers.new }
    ensures refusal { OnErr result (helpers.new ≡ helpers.old) }
{
    let name = name_of(alloc, helpers.mark(), span, helper)?;
    helpers.enable(helper);
    Ok(Expr::Ident(name))
}

/// A helper's name as what is called, as by `helper_expr`.
///
/// # Errors
///
/// As `helper_expr`.
pub fn helper(
    alloc: Global,
    helpers: &mut Helpers,
    span: Span,
    helper: Helper,
) -> Result<Callee, NoMemory>
    ensures name { IfOk result (λ callee. callee ≡ Callee.Expr (ident_node (named helpers.old.mark span helper))) }
    ensures inline { OnOk result (helpers.old.external ≡ false → Gains helpers.old.enabled helpers.new.enabled (InClosure helper)) }
    ensures alone { OnOk result (helpers.old.external ≡ true → Gains helpers.old.enabled helpers.new.enabled (λ other. other ≡ helper)) }
    ensures form { KeepsForm helpers.old helpers.new }
    ensures refusal { OnErr result (helpers.new ≡ helpers.old) }
{
    let name = name_of(alloc, helpers.mark(), span, helper)?;
    let name = Tree::<class::Expr>::from_identifier(alloc, Kind::Ident, name)?;
    helpers.enable(helper);
    Ok(Callee::Expr(name))
}
