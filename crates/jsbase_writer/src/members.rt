//! The members of an object, in the order of their keys.
ghost use Rattle.std.specs.Prelude.{◌≡◌, ◌≤◌, IfOk, OnOk, IsTrue, length, map};
ghost use Rattle.swc_tree_node.specs.Table.{fields_of};
ghost use Rattle.jsbase_form.specs.Known.{all_keyed, numbers_short};
ghost use Rattle.jsbase_form.specs.Writing.{json, put, typed, fields_put};
ghost use Rattle.jsbase_writer.specs.Members.{greatest, height, part_data, members_data, IsNew, IsPlace, Inserts, tallest, MembersShort};

use std::alloc::{AllocError, Global};
use std::cmp::Ordering;
use swc_tree_node::{Kind, Node, fields_of};

/// What is written as a member's value.
#[derive(Clone, Copy)]
pub(crate) enum Part<'a> {
    /// The name of a kind.
    Name(Kind),
    Node(&'a Node),
}

/// A key and what is written at it.
#[derive(Clone, Copy)]
pub(crate) struct Member<'a> {
    pub(crate) key: &'a str,
    pub(crate) part: Part<'a>,
}

// How many members have keys below a key that none has.
fn place_of(members: &[Member<'_>], key: &str) -> usize
    ensures { IsPlace key.now members.now result }
{
    let mut place = 0;
    while place < members.len() {
        match key.cmp(members[place].key) {
            Ordering::Greater => place += 1,
            _ => return place,
        }
    }
    place
}

fn insert<'a>(members: &mut Vec<Member<'a>>, member: Member<'a>) -> Result<(), AllocError>
    requires { IsNew member.key.now members.old.items }
    ensures data { OnOk result (members_data members.new.items ≡ put member.entry.key.now (part_data member.entry.part) (members_data members.old.items)) }
    ensures inserts { OnOk result (Inserts member.entry members.old.items members.new.items) }
{
    let place = place_of(members, member.key);
    members.insert(place, member)?;
    Ok(())
}

// The members of a tree, with the one that names its kind.
pub(crate) fn members_of<'a>(
    alloc: Global,
    kind: Kind,
    nodes: &'a [Node],
) -> Result<Vec<Member<'a>>, AllocError>
    ensures data { IfOk result (λ members. members_data members.items
        ≡ fields_put (fields_of kind) (map json nodes.now) (typed kind)) }
    ensures tallest { IfOk result (λ members. tallest members.items ≤ greatest (map height nodes.now)) }
    ensures short { IfOk result (λ members. MembersShort members.items
        → IsTrue (all_keyed (fields_of kind) (map numbers_short nodes.now))) }
{
    let fields = fields_of(kind);
    let mut members = Vec::with_capacity(alloc, 8)?;
    members.push(Member {
        key: "type",
        part: Part::Name(kind),
    })?;
    for (field, node) in fields.iter().zip(nodes) {
        insert(
            &mut members,
            Member {
                key: field.key,
                part: Part::Node(node),
            },
        )?;
    }
    Ok(members)
}
