//! Nodes that wait to be laid. Walks over a tree are fastest where each node lies in memory before those below it, and a parser makes it
//! behind them: so what is below a node that is not small waits, until there is much of it, and is laid from the top down.
use crate::fault::TextFault;
use crate::parser::Parser;
use std::alloc::Global;
use std::mem;
use swc_tree_items::Items;
use swc_tree_node::{Kind, Node};

/// How many nodes a node is, at most, that is laid as it is made.
const SMALL: u32 = 16;

/// How many nodes may wait.
const MANY: usize = 4096;

/// What is known of a node that is to be a part of another.
#[derive(Clone, Copy)]
pub(crate) struct Part {
    /// How high it is: how many nodes stand one in another, at most.
    pub(crate) height: u32,
    /// How many nodes it is, itself among them.
    size: u32,
    below: Below,
}

/// What waits below a node.
#[derive(Clone, Copy)]
struct Below {
    /// How many nodes,
    waiting: u32,
    /// and how many of these are its own fields or items: the last of them, in reverse.
    own: u32,
}

/// Below a node that is laid.
const NOTHING: Below = Below { waiting: 0, own: 0 };

impl Part {
    /// Of a node that is laid.
    pub(crate) fn laid(height: u32, size: u32) -> Part {
        Part {
            height,
            size,
            below: NOTHING,
        }
    }

    /// Of a leaf.
    pub(crate) fn leaf() -> Part {
        Part::laid(1, 1)
    }

    /// The same of a node that is one higher.
    pub(crate) fn raised(self) -> Part {
        Part::laid(self.height.saturating_add(1), self.size)
    }

    /// The same of a node that is laid.
    pub(crate) fn settled(self) -> Part {
        Part::laid(self.height, self.size)
    }

    /// Whether a node of which all is known but its fields is laid at once.
    pub(crate) fn is_small(self) -> bool {
        self.size <= SMALL
    }
}

/// What is known of a node of parts.
pub(crate) fn joined(parts: &[Part]) -> Part {
    let own = u32::try_from(parts.len()).unwrap_or(u32::MAX);
    let mut height: u32 = 0;
    let mut size: u32 = 1;
    let mut waiting: u32 = own;
    for part in parts {
        if height < part.height {
            height = part.height;
        }
        size = size.saturating_add(part.size);
        waiting = waiting.saturating_add(part.below.waiting);
    }
    Part {
        height: height.saturating_add(1),
        size,
        below: Below { waiting, own },
    }
}

/// A node that waits, and how many do below it.
#[derive(Drop)]
pub(crate) struct Waiting {
    pub(crate) node: Node,
    below: Below,
}

/// What is laid when a node is made.
#[derive(Clone, Copy)]
enum Lays {
    /// All that waits, since a program is a part of nothing.
    All,
    /// The node, since the parser looks into it for its operator.
    Last,
    /// All that waits, if it is much.
    Full,
}

fn when_laid(node: &Node) -> Lays {
    match node {
        Node::Tree(Kind::Script | Kind::Module, _) => Lays::All,
        Node::Tree(Kind::BinExpr, _) => Lays::Last,
        _ => Lays::Full,
    }
}

/// Puts what has waited into a node.
fn fill(node: &mut Node, parts: Items<Node>) {
    match node {
        Node::Tree(_, fields) => *fields = parts,
        Node::List(items) => *items = parts,
        _ => (),
    }
}

/// The last nodes before a place among those that wait, so many, which are the fields of one in reverse, with what waits below them.
/// They are laid in order: all that are fields, and what is below each.
#[cycle(laid)]
fn laid(
    alloc: Global,
    waiting: &mut [Waiting],
    end: usize,
    part: Below,
    depth: u32,
) -> Result<Items<Node>, TextFault> {
    if depth == 0 {
        return Err(TextFault::NotTheText);
    }
    let mut fields = Items::with_capacity(alloc, part.own as usize)?;
    let mut behind = end.saturating_sub(part.waiting as usize);
    for i in 0..part.own as usize {
        let Some(field) = waiting.get_mut(end.saturating_sub(i + 1)) else {
            return Err(TextFault::NotTheText);
        };
        let mut node = mem::replace(&mut field.node, Node::Absent);
        let below = field.below;
        behind = behind.saturating_add(below.waiting as usize);
        if below.own != 0 {
            let parts = laid(alloc, waiting, behind, below, depth - 1)?;
            fill(&mut node, parts);
        }
        fields.push(node)?;
    }
    Ok(fields)
}

impl<'a> Parser<'a> {
    /// Makes a node, whose fields or items are the last of the nodes, and wait.
    pub(crate) fn wait(&mut self, node: Node, part: Part) {
        if part.height > self.height {
            return self.too_deep();
        }
        for _ in 0..part.below.own {
            let below = self.last_part().below;
            let _ = self.parts.pop();
            if let Some(node) = self.nodes.pop()
                && self.waiting.push(Waiting { node, below }).is_err()
            {
                return self.refuse(TextFault::NoMemory);
            }
        }
        self.laid = self.laid.min(self.nodes.len());
        let lays = when_laid(&node);
        self.push_high(node, part);
        match lays {
            Lays::All => self.lay_all(),
            Lays::Last => self.lay_last(),
            Lays::Full if self.waiting.len() > MANY => self.lay_all(),
            Lays::Full => (),
        }
    }

    /// What is known of the last node.
    pub(crate) fn last_part(&self) -> Part {
        match self.parts.last() {
            Some(part) => *part,
            None => Part::leaf(),
        }
    }

    /// Lays the node of a number with what waits below it, from a place on; and answers where that ends.
    fn lay(&mut self, number: usize, start: usize) -> Result<usize, TextFault> {
        let (Some(node), Some(part)) = (self.nodes.get_mut(number), self.parts.get_mut(number))
        else {
            return Err(TextFault::NotTheText);
        };
        let end = start.saturating_add(part.below.waiting as usize);
        if part.below.own != 0 {
            let parts = laid(
                self.alloc,
                self.waiting.as_mut_slice(),
                end,
                part.below,
                part.height,
            )?;
            fill(node, parts);
            *part = part.settled();
        }
        Ok(end)
    }

    /// Lays all that waits.
    fn lay_all(&mut self) {
        let mut start = 0;
        for number in self.laid..self.nodes.len() {
            match self.lay(number, start) {
                Ok(end) => start = end,
                Err(fault) => return self.refuse(fault),
            }
        }
        self.laid = self.nodes.len();
        self.waiting.clear();
    }

    /// Lays the last node.
    pub(crate) fn lay_last(&mut self) {
        let part = self.last_part();
        if part.below.own == 0 {
            return;
        }
        let start = self
            .waiting
            .len()
            .saturating_sub(part.below.waiting as usize);
        let last = self.nodes.len().saturating_sub(1);
        match self.lay(last, start) {
            Ok(_) => self.waiting.truncate(start),
            Err(fault) => self.refuse(fault),
        }
    }

    /// The last node, as it is before it is laid.
    pub(crate) fn last_view(&self) -> Option<View<'_>> {
        let part = self.parts.last()?;
        self.view(self.nodes.last()?, *part, self.waiting.len())
    }

    /// The node before the last.
    pub(crate) fn view_before_last(&self) -> Option<View<'_>> {
        let number = self.nodes.len().saturating_sub(2);
        let last = self.parts.last()?;
        let end = self
            .waiting
            .len()
            .saturating_sub(last.below.waiting as usize);
        self.view(self.nodes.get(number)?, *self.parts.get(number)?, end)
    }

    fn view<'p>(&'p self, node: &'p Node, part: Part, end: usize) -> Option<View<'p>> {
        let (waiting, _) = self.waiting.as_slice().split_at_checked(end)?;
        let start = end.saturating_sub(part.below.waiting as usize);
        let (_, waiting) = waiting.split_at_checked(start)?;
        Some(View {
            node,
            waiting,
            own: part.below.own,
        })
    }
}

/// A node as it is seen before it is laid.
#[derive(Clone, Copy)]
pub(crate) struct View<'a> {
    pub(crate) node: &'a Node,
    waiting: &'a [Waiting],
    own: u32,
}

impl<'a> View<'a> {
    /// What is laid of its fields or items: all or nothing.
    pub(crate) fn laid(self) -> &'a [Node] {
        match self.node {
            Node::Tree(_, parts) | Node::List(parts) => parts.as_slice(),
            _ => &[],
        }
    }

    /// What waits of its fields or items, in reverse: all or nothing.
    pub(crate) fn waiting(self) -> &'a [Waiting] {
        let below = self.waiting.len().saturating_sub(self.own as usize);
        match self.waiting.split_at_checked(below) {
            Some((_, own)) => own,
            None => &[],
        }
    }

    /// How many fields or items it has.
    pub(crate) fn len(self) -> usize {
        self.laid().len().max(self.waiting().len())
    }

    /// A field or an item, of the first.
    pub(crate) fn get(self, index: usize) -> Option<View<'a>> {
        if let Some(node) = self.laid().get(index) {
            return Some(View {
                node,
                waiting: &[],
                own: 0,
            });
        }
        let mut rest = self.waiting;
        for (i, field) in self.waiting().iter().rev().enumerate() {
            let (first, others) = rest.split_at_checked(field.below.waiting as usize)?;
            if i == index {
                return Some(View {
                    node: &field.node,
                    waiting: first,
                    own: field.below.own,
                });
            }
            rest = others;
        }
        None
    }
}
