//! What is asked of a node in its place.
ghost use Rattle.std.specs.Prelude.{◌≡◌, ◌&&◌, false, true};
ghost use Rattle.swc_tree_node.specs.declared.node.Node.{out-Node};
ghost use Rattle.swc_tree_grammar.specs.Writable.{declares_in as declares_inside};
ghost use Rattle.swc_base_writable_rules.specs.Asks.{Sounds, ask_at, meets, seen};

use crate::patterns::{is_absent, is_pattern, is_private};
use crate::round::Round;
use crate::statements::{has_no_using, is_body, is_branch};
use swc_tree_node::{Kind, Node};

/// What is asked of a child of a node, and in which round it has to be sound.
#[derive(Clone, Copy)]
pub enum Ask {
    Nothing,
    Sound(Round),
    /// That it is no private name, too.
    Part(Round),
    /// That it is a statement that may be the body of a loop.
    Body(Round),
    /// That it is one that may be the branch of an `if`.
    Branch(Round),
    /// The same, if something stands there.
    BranchIfThere(Round),
    /// Of the statements of a case: that none is a `using`.
    Consequent(Round),
    /// Of the head of a `for` in or of: that it is a declaration or can be assigned to.
    Head(Round),
}

/// The children of a node of which something is asked, with what it is. Their numbers take a byte each, since a row is given back by value.
#[derive(Clone, Copy)]
pub enum Row {
    Nothing,
    Each(Ask),
    One(u8, Ask),
    Two(u8, Ask, u8, Ask),
    Three(u8, Ask, u8, Ask, u8, Ask),
    Four(u8, Ask, u8, Ask, u8, Ask, u8, Ask),
}

impl Row {
    /// What is asked of a child.
    #[inline]
    pub fn at(&self, index: usize) -> Ask
        ensures { result ≡ ask_at self.now index }
    {
        match self {
            Row::Each(ask) => *ask,
            Row::One(i, ask) if index == usize::from(*i) => *ask,
            Row::Two(i, ask, _, _) if index == usize::from(*i) => *ask,
            Row::Two(_, _, j, ask) if index == usize::from(*j) => *ask,
            Row::Three(i, ask, _, _, _, _) if index == usize::from(*i) => *ask,
            Row::Three(_, _, j, ask, _, _) if index == usize::from(*j) => *ask,
            Row::Three(_, _, _, _, k, ask) if index == usize::from(*k) => *ask,
            Row::Four(i, ask, _, _, _, _, _, _) if index == usize::from(*i) => *ask,
            Row::Four(_, _, j, ask, _, _, _, _) if index == usize::from(*j) => *ask,
            Row::Four(_, _, _, _, k, ask, _, _) if index == usize::from(*k) => *ask,
            Row::Four(_, _, _, _, _, _, l, ask) if index == usize::from(*l) => *ask,
            _ => Ask::Nothing,
        }
    }
}

/// What a look at a node says: whether it is as asked, and whether it has to be sound, too: in which round, and whether as the
/// declaration in the head of a `for`.
#[derive(Clone, Copy)]
pub struct Look {
    pub met: bool,
    pub goes_on: bool,
    pub round: Round,
    pub in_head: bool,
}

// A node that has to be sound if it is as asked.
fn sound_if(met: bool, round: Round) -> Look
    ensures { (f : Sounds) → seen result f ≡ (met && f false round) }
{
    Look {
        met,
        goes_on: true,
        round,
        in_head: false,
    }
}

// A node of which no more is asked.
fn met(round: Round) -> Look
    ensures { (f : Sounds) → seen result f ≡ true }
{
    Look {
        met: true,
        goes_on: false,
        round,
        in_head: false,
    }
}

// Whether a node is a declaration by `var`, `let`, `const` or `using`.
fn declares(node: &Node) -> bool
    ensures { result ≡ declares_inside (out-Node node.now) }
{
    match node {
        Node::Tree(kind, fields) => {
            matches!(kind, Kind::VarDecl | Kind::UsingDecl) && fields.len() == 3
        }
        _ => false,
    }
}

// What is asked of the head of a `for` in or of.
fn look_at_head(round: Round, node: &Node) -> Look
    ensures { (f : Sounds) → seen result f ≡ meets (Ask.Head round) node.now f }
{
    if declares(node) {
        Look {
            met: true,
            goes_on: true,
            round,
            in_head: true,
        }
    } else {
        let round = round.assigning();
        sound_if(is_pattern(node, round), round)
    }
}

/// Whether a node is as asked, and what is left to be asked.
pub fn look_at(ask: Ask, round: Round, node: &Node) -> Look
    ensures { (f : Sounds) → seen result f ≡ meets ask node.now f }
{
    match ask {
        Ask::Nothing => met(round),
        Ask::Sound(round) => sound_if(true, round),
        Ask::Part(round) => sound_if(!is_private(node), round),
        Ask::Body(round) => sound_if(is_body(node), round),
        Ask::Branch(round) => sound_if(is_branch(round.strict, node), round),
        Ask::BranchIfThere(round) => {
            if is_absent(node) {
                met(round)
            } else {
                sound_if(is_branch(round.strict, node), round)
            }
        }
        Ask::Consequent(round) => sound_if(has_no_using(node), round),
        Ask::Head(round) => look_at_head(round, node),
    }
}
