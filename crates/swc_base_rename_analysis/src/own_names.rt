//! Functions that count as using their own name.
ghost use Rattle.std.specs.Prelude.{◌≡◌, slice_get};
ghost use Rattle.std.specs.List.{list_any};
ghost use Rattle.std.specs.Option.{option_copied};
ghost use Rattle.swc_tree_node.specs.declared.node.Node.{out-Node};
ghost use Rattle.swc_base_rename_analysis.specs.Analysis.{parameter_is_rest_or_default as is_such, function_has_rest_or_default as has_such};
ghost use Rattle.swc_base_rename_analysis.specs.Walk.{own_name_below};

use swc_tree_marks::Ident;
use swc_tree_node::fields::{fn_decl, function, param};
use swc_tree_node::{Kind, Node};

// Whether a node is a parameter that is a rest or has a default.
fn is_such_parameter(node: &Node) -> bool
    ensures { result ≡ is_such (out-Node node.now) }
{
    match node {
        Node::Tree(Kind::Param, fields) => matches!(
            fields.get(param::PAT),
            Some(Node::Tree(Kind::RestPat | Kind::AssignPat, _))
        ),
        _ => false,
    }
}

// Whether one of some nodes is such a parameter.
fn is_any_such(parameters: &[Node]) -> bool
    ensures { result ≡ list_any (λ c. is_such (out-Node c)) parameters.now }
{
    for parameter in parameters {
        if is_such_parameter(parameter) {
            return true;
        }
    }
    false
}

// Whether a node is a function with a rest parameter or a default.
fn has_such_parameter(node: &Node) -> bool
    ensures { result ≡ has_such (out-Node node.now) }
{
    match node {
        Node::Tree(Kind::Function, fields) => match fields.get(function::PARAMS) {
            Some(Node::List(parameters)) => is_any_such(parameters.as_slice()),
            _ => false,
        },
        _ => false,
    }
}

/// The name of the function that stands in a field, where it counts as using it: that of a function declaration or a
/// function expression of which a parameter is a rest or has a default.
pub fn own_name(kind: Kind, fields: &[Node], index: usize) -> Option<&Ident>
    ensures { option_copied result ≡ own_name_below kind fields.now index }
{
    if index != fn_decl::FUNCTION || !matches!(kind, Kind::FnDecl | Kind::FnExpr) {
        return None;
    }
    match (fields.get(fn_decl::IDENT), fields.get(index)) {
        (Some(Node::Identifier(_, name)), Some(function)) if has_such_parameter(function) => {
            Some(name.get())
        }
        _ => None,
    }
}
