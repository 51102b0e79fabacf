//! Expressions read anew as patterns (ECMA-262, 13.15.5, 14.3.3 and 15.3).
use std::alloc::{AllocError, AllocFailed, Global};
use swc_tree_items::{Boxed, Items};
use swc_tree_marks::{Ident, Span};
use swc_tree_node::{Kind, Node, Word};

/// Why an expression is not read as a pattern.
#[derive(Clone, Copy, PartialEq, Eq)]
pub enum PatternError {
    NoMemory,
    NotPattern,
    /// A comma stands behind what takes the rest: which of those that were told.
    CommaBehindRest(usize),
}

impl From<AllocError> for PatternError {
    ghost use Rattle.std.specs.Prelude.{◌≡◌};
    ghost use Rattle.text_patterns.specs.declared.patterns.PatternError.TheVariants.{NoMemory};

    ghost from_gives = { λ _ error. error ≡ NoMemory };

    fn from(_: AllocError) -> PatternError {
        PatternError::NoMemory
    }
}

impl<T: Drop> From<AllocFailed<T>> for PatternError {
    ghost use Rattle.std.specs.Prelude.{◌≡◌};
    ghost use Rattle.text_patterns.specs.declared.patterns.PatternError.TheVariants.{NoMemory};

    ghost from_gives = { λ _ error. error ≡ NoMemory };

    fn from(_: AllocFailed<T>) -> PatternError {
        PatternError::NoMemory
    }
}

/// What a pattern is for.
#[derive(Clone, Copy)]
pub struct Reading<'a> {
    pub alloc: Global,
    /// Whether names are bound; else what may be assigned to stands for a name.
    pub binds: bool,
    /// Where elements end, in spans, before which dots stand and behind which a comma stands that closes their list; in order.
    pub commas: &'a [u32],
}

/// What is assigned to, and is no pattern: a name or a member, in parentheses or not.
#[cycle(simple)]
pub fn is_simple_target(node: &Node, depth: u32) -> bool {
    if depth == 0 {
        return false;
    }
    match node {
        Node::Identifier(_, _) => true,
        Node::Tree(Kind::MemberExpr | Kind::SuperPropExpr, _) => true,
        Node::Tree(Kind::ParenExpr, fields) => match fields.get(1) {
            Some(inner) => is_simple_target(inner, depth - 1),
            None => false,
        },
        _ => false,
    }
}

/// What an expression is as a pattern that binds names, or as one that is assigned to. How many properties with a
/// default it has in literals is added to `covers`.
///
/// # Errors
///
/// Where it is no such pattern, and where memory is refused.
pub fn pattern_of(
    node: Node,
    reading: Reading<'_>,
    depth: u32,
    covers: &mut usize,
) -> Result<Node, PatternError> {
    as_pattern(node, reading, depth, covers)
}

/// What a list of expressions is as parameters.
///
/// # Errors
///
/// As of `pattern_of`.
pub fn parameters_of(
    node: Node,
    reading: Reading<'_>,
    depth: u32,
    covers: &mut usize,
) -> Result<Node, PatternError> {
    as_list(node, false, reading, depth, covers)
}

fn is_cover(node: &Node) -> bool {
    matches!(node, Node::Tree(Kind::AssignPatProp, _))
}

fn covers_in(fields: &Items<Node>) -> usize {
    match fields.get(1) {
        Some(Node::List(items)) => items
            .as_slice()
            .iter()
            .filter(|node| is_cover(*node))
            .count(),
        _ => 0,
    }
}

#[cycle(pattern)]
fn as_pattern(
    node: Node,
    reading: Reading<'_>,
    depth: u32,
    covers: &mut usize,
) -> Result<Node, PatternError> {
    if depth == 0 {
        return Err(PatternError::NotPattern);
    }
    match node {
        Node::Identifier(_, ident) => Ok(Node::Identifier(Kind::BindingIdent, ident)),
        Node::Tree(Kind::ArrayLit | Kind::ArrayPat, fields) => {
            as_many(Kind::ArrayPat, fields, reading, depth - 1, covers)
        }
        Node::Tree(Kind::ObjectLit, fields) => {
            *covers = covers.saturating_add(covers_in(&fields));
            as_many(Kind::ObjectPat, fields, reading, depth - 1, covers)
        }
        Node::Tree(Kind::ObjectPat, fields) => {
            as_many(Kind::ObjectPat, fields, reading, depth - 1, covers)
        }
        Node::Tree(Kind::AssignExpr | Kind::AssignPat, fields) => {
            as_default(fields, reading, depth - 1, covers)
        }
        other => {
            if !reading.binds && is_simple_target(&other, depth) {
                Ok(other)
            } else {
                Err(PatternError::NotPattern)
            }
        }
    }
}

/// A pattern of many parts, of its span and the list of them.
#[cycle(pattern)]
fn as_many(
    kind: Kind,
    mut fields: Items<Node>,
    reading: Reading<'_>,
    depth: u32,
    covers: &mut usize,
) -> Result<Node, PatternError> {
    if depth == 0 {
        return Err(PatternError::NotPattern);
    }
    let Some(list) = fields.pop() else {
        return Err(PatternError::NotPattern);
    };
    let list = as_list(list, kind == Kind::ObjectPat, reading, depth - 1, covers)?;
    fields.push(list)?;
    Ok(Node::Tree(kind, fields))
}

fn is_rest(node: &Node) -> bool {
    matches!(node, Node::Tree(Kind::RestPat, _))
}

#[cycle(pattern)]
fn as_list(
    list: Node,
    is_object: bool,
    reading: Reading<'_>,
    depth: u32,
    covers: &mut usize,
) -> Result<Node, PatternError> {
    if depth == 0 {
        return Err(PatternError::NotPattern);
    }
    let Node::List(mut items) = list else {
        return Err(PatternError::NotPattern);
    };
    for i in 0..items.len() {
        let node = items.replace(i, Node::Absent);
        let node = if is_object {
            as_property(node, reading, depth - 1, covers)?
        } else {
            as_element(node, reading, depth - 1, covers)?
        };
        if is_rest(&node) && i + 1 != items.len() {
            return Err(PatternError::NotPattern);
        }
        items.set(i, node);
    }
    Ok(Node::List(items))
}

/// A pattern with a default, of an assignment. What stood on the left of that was read anew with it, but maybe as
/// something else than a name that is bound.
#[cycle(pattern)]
fn as_default(
    mut fields: Items<Node>,
    reading: Reading<'_>,
    depth: u32,
    covers: &mut usize,
) -> Result<Node, PatternError> {
    if depth == 0 {
        return Err(PatternError::NotPattern);
    }
    if fields.len() == 4 {
        match fields.remove(1) {
            Node::Word(Word::Assign) => (),
            _ => return Err(PatternError::NotPattern),
        }
    }
    if fields.len() != 3 {
        return Err(PatternError::NotPattern);
    }
    if reading.binds {
        let left = fields.replace(1, Node::Absent);
        let left = as_pattern(left, reading, depth - 1, covers)?;
        fields.set(1, left);
    }
    Ok(Node::Tree(Kind::AssignPat, fields))
}

/// A node whose last field is read anew.
#[cycle(pattern)]
fn as_last(
    kind: Kind,
    mut fields: Items<Node>,
    reading: Reading<'_>,
    depth: u32,
    covers: &mut usize,
) -> Result<Node, PatternError> {
    if depth == 0 {
        return Err(PatternError::NotPattern);
    }
    let Some(last) = fields.pop() else {
        return Err(PatternError::NotPattern);
    };
    let last = as_pattern(last, reading, depth - 1, covers)?;
    fields.push(last)?;
    Ok(Node::Tree(kind, fields))
}

/// Where an expression ends.
fn end_of(node: &Node) -> u32 {
    match node {
        Node::Identifier(_, ident) => ident.get().span.hi,
        Node::Tree(_, fields) => match fields.get(0) {
            Some(Node::Span(span)) => span.hi,
            _ => 0,
        },
        _ => 0,
    }
}

/// What stands for an element: itself, or a pattern that takes the rest where dots stand before it. No comma stands behind
/// such a pattern.
fn with_dots(
    mut fields: Items<Node>,
    element: Node,
    reading: Reading<'_>,
) -> Result<Node, PatternError> {
    match fields.pop() {
        Some(Node::Absent) => Ok(element),
        Some(Node::Span(dots)) => {
            let span = Span {
                lo: dots.lo,
                hi: end_of(&element),
            };
            if let Ok(comma) = reading.commas.binary_search(&span.hi) {
                return Err(PatternError::CommaBehindRest(comma));
            }
            fields.push(Node::Span(span))?;
            fields.push(element)?;
            Ok(Node::Tree(Kind::RestPat, fields))
        }
        _ => Err(PatternError::NotPattern),
    }
}

/// Whether what dots stand before has a default.
fn is_rest_with_default(fields: &Items<Node>) -> bool {
    matches!(fields.get(0), Some(Node::Span(_)))
        && matches!(fields.get(1), Some(Node::Tree(Kind::AssignExpr, _)))
}

/// An element of a pattern, or a parameter.
#[cycle(pattern)]
fn as_element(
    node: Node,
    reading: Reading<'_>,
    depth: u32,
    covers: &mut usize,
) -> Result<Node, PatternError> {
    if depth == 0 {
        return Err(PatternError::NotPattern);
    }
    match node {
        Node::Absent => Ok(Node::Absent),
        Node::Tree(Kind::RestPat, fields) => as_last(
            Kind::RestPat,
            fields,
            reading,
            depth - 1,
            covers,
        ),
        Node::Tree(Kind::ExprOrSpread, mut fields) => {
            let has_default = is_rest_with_default(&fields);
            match fields.pop() {
                Some(element) if !has_default => {
                    let element = as_pattern(element, reading, depth - 1, covers)?;
                    with_dots(fields, element, reading)
                }
                _ => Err(PatternError::NotPattern),
            }
        }
        other => as_pattern(other, reading, depth - 1, covers),
    }
}

/// A name that stands for a property and what is bound to it.
fn shorthand(alloc: Global, ident: Boxed<Ident>) -> Result<Node, PatternError> {
    let mut fields = Items::new(alloc);
    fields.push(Node::Span(ident.get().span))?;
    fields.push(Node::Identifier(Kind::BindingIdent, ident))?;
    fields.push(Node::Absent)?;
    Ok(Node::Tree(Kind::AssignPatProp, fields))
}

/// A property of a pattern.
#[cycle(pattern)]
fn as_property(
    node: Node,
    reading: Reading<'_>,
    depth: u32,
    covers: &mut usize,
) -> Result<Node, PatternError> {
    if depth == 0 {
        return Err(PatternError::NotPattern);
    }
    match node {
        Node::Identifier(_, ident) => shorthand(reading.alloc, ident),
        Node::Tree(Kind::KeyValueProp | Kind::KeyValuePatProp, fields) => {
            as_last(Kind::KeyValuePatProp, fields, reading, depth - 1, covers)
        }
        Node::Tree(Kind::AssignPatProp, fields) => Ok(Node::Tree(Kind::AssignPatProp, fields)),
        Node::Tree(Kind::SpreadElement, mut fields) => match fields.pop() {
            Some(rest) if is_simple_target(&rest, depth) => {
                let rest = as_pattern(rest, reading, depth - 1, covers)?;
                with_dots(fields, rest, reading)
            }
            _ => Err(PatternError::NotPattern),
        },
        Node::Tree(Kind::RestPat, fields) => as_last(
            Kind::RestPat,
            fields,
            reading,
            depth - 1,
            covers,
        ),
        _ => Err(PatternError::NotPattern),
    }
}
