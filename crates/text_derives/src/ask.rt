//! What is asked of a node in its place.
ghost use Rattle.std.specs.Prelude.{◌≡◌, ◌&&◌, false, true, not};
ghost use Rattle.std.specs.List.{list_all};
ghost use Rattle.swc_tree_grammar.specs.Kinds.{has_kind, is_private_name};
ghost use Rattle.swc_tree_grammar.specs.Shapes.{items_of};
ghost use Rattle.text_derives.specs.Asks.{Derives, ask_at, meets as are_met, seen};

use crate::context::Context;
use crate::demand::{Demand, is_block, is_private, items, meets};
use crate::form::{is_bare_using, is_body, is_branch, is_strict, is_using};
use crate::start::may_be_body;
use swc_tree_node::Node;

/// What is asked of a child of a node, and in which context the grammar has to derive it.
#[derive(Clone, Copy)]
pub enum Ask {
    Nothing,
    Derived(Context),
    /// That it is derived as the base of an optional chain.
    Chain(Context),
    /// What the place of an expression asks, and that it is no private name.
    Fits(Demand, Context),
    /// The same of each item of a list.
    Each(Demand, Context),
    /// What the place of a key asks.
    Part(Demand, Context),
    /// What the left side of an operator is asked; of `in` it may be a private name.
    Left(bool, Demand, Context),
    /// That it may be the body of a loop.
    Body(Context),
    /// That it may be the branch of an `if`.
    Branch(Context),
    /// Of the head of a `for` in or of.
    Head(Context),
    /// Of the body of an arrow function.
    ArrowBody(Context),
}

/// The children of a node of which something is asked, with what it is. Their numbers take a byte each, since a row is given back by value.
#[derive(Clone, Copy)]
pub enum Row {
    Nothing,
    Each(Ask),
    One(u8, Ask),
    Two(u8, Ask, u8, Ask),
    Three(u8, Ask, u8, Ask, u8, Ask),
    Four(u8, Ask, u8, Ask, u8, Ask, u8, Ask),
}

impl Row {
    /// What is asked of a child.
    #[inline]
    pub fn at(&self, index: usize) -> Ask
        ensures { result ≡ ask_at self.now index }
    {
        match self {
            Row::Each(ask) => *ask,
            Row::One(i, ask) if index == usize::from(*i) => *ask,
            Row::Two(i, ask, _, _) if index == usize::from(*i) => *ask,
            Row::Two(_, _, j, ask) if index == usize::from(*j) => *ask,
            Row::Three(i, ask, _, _, _, _) if index == usize::from(*i) => *ask,
            Row::Three(_, _, j, ask, _, _) if index == usize::from(*j) => *ask,
            Row::Three(_, _, _, _, k, ask) if index == usize::from(*k) => *ask,
            Row::Four(i, ask, _, _, _, _, _, _) if index == usize::from(*i) => *ask,
            Row::Four(_, _, j, ask, _, _, _, _) if index == usize::from(*j) => *ask,
            Row::Four(_, _, _, _, k, ask, _, _) if index == usize::from(*k) => *ask,
            Row::Four(_, _, _, _, _, _, l, ask) if index == usize::from(*l) => *ask,
            _ => Ask::Nothing,
        }
    }
}

/// What a look at a node says: whether it is as asked, and whether it has to be derived, too: in which context, and whether as the
/// base of an optional chain.
#[derive(Clone, Copy)]
pub struct Look {
    pub met: bool,
    pub goes_on: bool,
    pub context: Context,
    pub in_chain: bool,
}

// A node that has to be derived if it is as asked.
fn derived_if(met: bool, context: Context) -> Look
    ensures { (f : Derives) → seen result f ≡ (met && f false context) }
{
    Look {
        met,
        goes_on: true,
        context,
        in_chain: false,
    }
}

// A node of which no more is asked.
fn decided(met: bool, context: Context) -> Look
    ensures { (f : Derives) → seen result f ≡ met }
{
    Look {
        met,
        goes_on: false,
        context,
        in_chain: false,
    }
}

// Whether none of the items of a list is a private name.
fn has_no_private(node: &Node) -> bool
    ensures { result ≡ list_all (λ t. not (has_kind is_private_name t)) (items_of node.now) }
{
    items(node).iter().all(|item| !is_private(item))
}

// What is asked of an expression.
fn look_at_expression(demand: Demand, context: Context, node: &Node) -> Look
    ensures { (f : Derives) → seen result f ≡ are_met (Ask.Fits demand context) node.now f }
{
    derived_if(meets(demand, node) && !is_private(node), context)
}

// What is asked of the left side of an operator.
fn look_at_left(of_in: bool, demand: Demand, context: Context, node: &Node) -> Look
    ensures { (f : Derives) → seen result f ≡ are_met (Ask.Left of_in demand context) node.now f }
{
    if of_in && is_private(node) {
        decided(true, context)
    } else {
        look_at_expression(demand, context, node)
    }
}

// What is asked of the head of a `for` in or of.
fn look_at_head(context: Context, node: &Node) -> Look
    ensures { (f : Derives) → seen result f ≡ are_met (Ask.Head context) node.now f }
{
    if is_using(node) {
        decided(is_bare_using(node), context)
    } else {
        derived_if(true, context.outside())
    }
}

// What is asked of the body of an arrow function.
fn look_at_arrow_body(context: Context, node: &Node) -> Look
    ensures { (f : Derives) → seen result f ≡ are_met (Ask.ArrowBody context) node.now f }
{
    if is_block(node) {
        derived_if(true, context.strictly(is_strict(node)))
    } else if may_be_body(node) {
        look_at_expression(Demand::Body, context, node)
    } else {
        decided(false, context)
    }
}

/// Whether a node is as asked, and what is left to be asked.
pub fn look_at(ask: Ask, context: Context, node: &Node) -> Look
    ensures { (f : Derives) → seen result f ≡ are_met ask node.now f }
{
    match ask {
        Ask::Nothing => decided(true, context),
        Ask::Derived(context) => derived_if(true, context),
        Ask::Chain(context) => Look {
            met: true,
            goes_on: true,
            context,
            in_chain: true,
        },
        Ask::Fits(demand, context) => look_at_expression(demand, context, node),
        Ask::Each(demand, context) => {
            derived_if(meets(demand, node) && has_no_private(node), context)
        }
        Ask::Part(demand, context) => derived_if(meets(demand, node), context),
        Ask::Left(of_in, demand, context) => look_at_left(of_in, demand, context, node),
        Ask::Body(context) => derived_if(is_body(node), context),
        Ask::Branch(context) => derived_if(is_branch(context.strict, node), context),
        Ask::Head(context) => look_at_head(context, node),
        Ask::ArrowBody(context) => look_at_arrow_body(context, node),
    }
}
