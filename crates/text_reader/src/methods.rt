//! The nodes of methods, accessors, constructors and fields.
use crate::fault::Expected;
use crate::modifiers::Modifiers;
use crate::parser::Parser;
use crate::waiting::{Part, View};
use swc_tree_node::{Kind, Node, Word};

/// The parts of a function: its parameters and its body.
fn parts_of(function: Node) -> Option<(Node, Node)> {
    let Node::Tree(_, fields) = function else {
        return None;
    };
    let mut fields = fields.into_vec();
    let _ = fields.pop();
    let _ = fields.pop();
    let body = fields.pop()?;
    let parameters = fields.pop()?;
    Some((parameters, body))
}

/// What a parameter binds.
fn pattern_of(parameter: Node) -> Option<Node> {
    match parameter {
        Node::Tree(_, fields) => fields.into_vec().pop(),
        _ => None,
    }
}

/// What the only parameter of a list binds.
fn only_pattern(parameters: Node) -> Option<Node> {
    match parameters {
        Node::List(items) => pattern_of(items.into_vec().pop()?),
        _ => None,
    }
}

fn is_rest_parameter(node: View<'_>) -> bool {
    match node.get(1) {
        Some(pattern) => matches!(pattern.node, Node::Tree(Kind::RestPat, _)),
        None => false,
    }
}

fn suit(kind: Word, parameters: View<'_>) -> bool {
    match kind {
        Word::Getter => parameters.len() == 0,
        Word::Setter => match parameters.get(0) {
            Some(parameter) => parameters.len() == 1 && !is_rest_parameter(parameter),
            None => false,
        },
        _ => true,
    }
}

/// Whether a function has as many parameters as a method of its kind (15.4).
fn suits(kind: Word, function: Option<View<'_>>) -> bool {
    let Some(function) = function else {
        return false;
    };
    match function.get(1) {
        Some(parameters) => { matches!(parameters.node, Node::List(_)) && suit(kind, parameters) }
        None => false,
    }
}

fn says_constructor(fields: &[Node]) -> bool {
    match fields.get(1) {
        Some(Node::Text(text)) => text.as_str() == "constructor",
        _ => false,
    }
}

fn is_constructor_key(key: Option<&Node>) -> bool {
    match key {
        Some(Node::Tree(Kind::IdentName | Kind::Str, fields)) => {
            says_constructor(fields.as_slice())
        }
        _ => false,
    }
}

impl<'a> Parser<'a> {
    /// Makes a method or an accessor of an object of the last two nodes, a key and a function.
    pub fn build_property(&mut self, kind: Word, start: usize, before: usize) {
        if !suits(kind, self.last_view()) {
            return self.unexpected(Expected::Parameters);
        }
        if kind == Word::Method {
            return self.close(Kind::MethodProp, before);
        }
        let Some((parameters, body, part)) = self.pop_function() else {
            return self.unexpected(Expected::Parameters);
        };
        if kind == Word::Getter {
            self.push_high(body, part);
            return self.build(Kind::GetterProp, start, before);
        }
        let Some(parameter) = only_pattern(parameters) else {
            return self.unexpected(Expected::Parameters);
        };
        self.push_high(parameter, part);
        self.push_high(body, part);
        self.build(Kind::SetterProp, start, before);
    }

    // The parameters and the body of the last node, a function, and its height.
    fn pop_function(&mut self) -> Option<(Node, Node, Part)> {
        let (function, part) = self.pop_high()?;
        let (parameters, body) = parts_of(function)?;
        Some((parameters, body, part))
    }

    /// Makes a method, an accessor or the constructor of a class of the last two nodes, a key and a function.
    pub fn build_method(
        &mut self,
        modifiers: Modifiers,
        is_static: bool,
        start: usize,
        before: usize,
    ) {
        let is_constructor = !is_static && is_constructor_key(self.nodes.get(before));
        if is_constructor && modifiers.is_plain() {
            return self.build_constructor(start, before);
        }
        if is_constructor || !suits(modifiers.kind, self.last_view()) {
            return self.unexpected(Expected::Parameters);
        }
        self.push_word(modifiers.kind);
        self.push_flag(is_static);
        if self.is_at(before, Kind::PrivateName) {
            self.build(Kind::PrivateMethod, start, before);
        } else {
            self.build(Kind::ClassMethod, start, before);
        }
    }

    fn build_constructor(&mut self, start: usize, before: usize) {
        let Some((parameters, body, part)) = self.pop_function() else {
            return self.unexpected(Expected::Parameters);
        };
        self.push_high(parameters, part);
        self.push_high(body, part);
        self.build(Kind::Constructor, start, before);
    }

    /// Makes a field of a class.
    pub fn build_field(&mut self, start: usize, before: usize) {
        if self.is_at(before, Kind::PrivateName) {
            self.build(Kind::PrivateProp, start, before);
        } else {
            self.build(Kind::ClassProp, start, before);
        }
    }
}
