//! A digest of results: the hash of Fowler, Noll and Vo, over 64 bits, which takes whole numbers too.
//!
//! It takes in all that a result holds: of each node which of the forms it has, its kind, how many parts, and what it says.
//! No memory is asked for.
use swc_tree::{Globals, Ident, Module, Span};
use swc_tree_node::Node;
use swc_tree_walk::Site;

/// What was made so far.
#[derive(Clone, Copy)]
pub struct Digest {
    hash: u64,
}

impl Digest {
    /// Of nothing.
    pub fn new() -> Digest {
        Digest {
            hash: 0xcbf2_9ce4_8422_2325,
        }
    }

    /// The digest as a number.
    pub fn value(self) -> u64 {
        self.hash
    }

    fn number(&mut self, number: u64) {
        self.hash = (self.hash ^ number).wrapping_mul(0x100_0000_01b3);
    }

    fn flag(&mut self, flag: bool) {
        self.number(if flag { 1 } else { 0 });
    }

    fn count(&mut self, count: usize) {
        self.number(count as u64);
    }

    /// Some bytes more.
    pub fn bytes(&mut self, bytes: &[u8]) {
        let mut hash = self.hash;
        for byte in bytes {
            hash = (hash ^ u64::from(*byte)).wrapping_mul(0x100_0000_01b3);
        }
        self.hash = hash;
    }

    // A text: how many bytes it has, and they.
    fn text(&mut self, text: &str) {
        self.count(text.len());
        self.bytes(text.as_bytes());
    }

    fn span(&mut self, span: Span) {
        self.number(u64::from(span.lo));
        self.number(u64::from(span.hi));
    }

    fn ident(&mut self, ident: &Ident) {
        self.span(ident.span);
        self.text(ident.sym.as_str());
        let marks = ident.ctxt.marks();
        self.count(marks.len());
        for mark in marks {
            self.number(u64::from(mark.as_u32()));
        }
    }

    /// A table of marks more: of each mark its number and its parent's.
    pub fn globals(&mut self, globals: &Globals) {
        let table = globals.table();
        self.count(table.len());
        for (mark, parent) in table {
            self.number(u64::from(*mark));
            self.number(u64::from(*parent));
        }
    }

    /// A module more, with its `#!` line.
    pub fn module(&mut self, module: &Module) {
        self.span(module.span);
        self.nodes(module.body.as_slice());
        match &module.shebang {
            None => self.flag(false),
            Some(line) => {
                self.flag(true);
                self.text(line.as_str());
            }
        }
    }

    /// The names of a tree more: of each as what it stands, what that makes of it, and the identifier.
    pub fn sites(&mut self, sites: &[Site<'_>]) {
        self.count(sites.len());
        for site in sites {
            self.number(u64::from(site.standing as u8));
            self.flag(site.is_reference());
            self.flag(site.is_binding());
            self.ident(site.ident);
        }
    }

    #[cycle(digest)]
    fn nodes(&mut self, nodes: &[Node]) {
        self.count(nodes.len());
        for node in nodes {
            self.node(node);
        }
    }

    #[cycle(digest)]
    fn node(&mut self, node: &Node) {
        match node {
            Node::Absent => self.number(1),
            Node::Flag(flag) => {
                self.number(2);
                self.flag(*flag);
            }
            Node::Word(word) => {
                self.number(3);
                self.number(u64::from(*word as u8));
            }
            Node::Text(text) => {
                self.number(4);
                self.text(text.as_str());
            }
            Node::Span(span) => {
                self.number(5);
                self.span(*span);
            }
            Node::List(items) => {
                self.number(6);
                self.nodes(items.as_slice());
            }
            Node::Identifier(kind, ident) => {
                self.number(7);
                self.number(u64::from(*kind as u8));
                self.ident(ident.get());
            }
            Node::Tree(kind, fields) => {
                self.number(8);
                self.number(u64::from(*kind as u8));
                self.nodes(fields.as_slice());
            }
        }
    }
}
