//! The identifiers of a tree, with as what each stands.
ghost use Rattle.std.specs.Prelude.{◌≡◌, ◌↔◌, ◌++◌, Contains, IfOk, OnOk, map};
ghost use Rattle.swc_tree_marks.specs.declared.ident.Ident.{Ident};
ghost use Rattle.swc_tree_scoping.specs.declared.places.Standing.{Standing};
ghost use Rattle.swc_tree_scoping.specs.Below.{places_of};
ghost use Rattle.swc_tree_scoping.specs.Folds.{each_in};
ghost use Rattle.swc_tree_scoping.specs.Places.{program_place};
ghost use Rattle.swc_tree_walk.specs.Sites.{StandsIn, joined, site_of, sites};

use std::alloc::{AllocError, Global};
use swc_tree_marks::Ident;
use swc_tree_node::Node;
use swc_tree_scoping::{
    PROGRAM_PLACE, Place, PlacesBelow, Standing, is_binding, is_reference, places_of_fields,
    places_of_items,
};

/// An identifier of a tree, with as what it stands.
#[derive(Clone, Copy, Debug)]
pub struct Site<'a> {
    pub standing: Standing,
    pub ident: &'a Ident,
}

impl Site<'_> {
    ghost use Rattle.swc_tree_scoping.specs.Scopes.{is_binding as binds, is_reference as refers};

    /// Whether it is a reference (ECMA-262, IdentifierReference).
    pub fn is_reference(&self) -> bool
        ensures { result ≡ refers self.now.standing }
    {
        is_reference(self.standing)
    }

    /// Whether it binds its name.
    pub fn is_binding(&self) -> bool
        ensures { result ≡ binds self.now.standing }
    {
        is_binding(self.standing)
    }
}

/// The identifiers of a program, in the order of the source: each that stands somewhere in it, with as what it stands there.
///
/// It costs time in step with the size of the program.
///
/// # Errors
///
/// Where memory was refused.
pub fn sites(alloc: Global, program: &Node) -> Result<Vec<Site<'_>>, AllocError>
    ensures all { IfOk result (λ found. map site_of found.items ≡ sites program_place program.now) }
    ensures each { (r : Standing) (i : Ident) → IfOk result (λ found. Contains (map site_of found.items) (r, i) ↔ StandsIn program_place program.now r i) }
{
    let mut found = Vec::new(alloc);
    add_sites(program, PROGRAM_PLACE, &mut found)?;
    Ok(found)
}

#[cycle(add_sites)]
fn add_sites<'a>(node: &'a Node, place: Place, found: &mut Vec<Site<'a>>) -> Result<(), AllocError>
    ensures { OnOk result (map site_of found.new.items ≡ map site_of found.old.items ++ sites place node.now) }
{
    match node {
        Node::Identifier(_, ident) => {
            found.push(Site {
                standing: place.standing,
                ident: ident.get(),
            })?;
            Ok(())
        }
        Node::List(items) => add_sites_below(items.as_slice(), places_of_items(place), found),
        Node::Tree(kind, fields) => {
            let fields = fields.as_slice();
            add_sites_below(fields, places_of_fields(place, *kind, fields), found)
        }
        _ => Ok(()),
    }
}

#[cycle(add_sites)]
fn add_sites_below<'a>(
    nodes: &'a [Node],
    places: PlacesBelow,
    found: &mut Vec<Site<'a>>,
) -> Result<(), AllocError>
    ensures { OnOk result (map site_of found.new.items ≡ map site_of found.old.items ++ joined (each_in sites (places_of places nodes.now) nodes.now)) }
{
    for i in 0..nodes.len() {
        let node = &nodes[i];
        // Where no identifier can stand, no place is worked out.
        if !node.may_hold_names() {
            continue;
        }
        add_sites(node, places.at(i, node), found)?;
    }
    Ok(())
}
