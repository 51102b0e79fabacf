//! The places of a node's children.
ghost use Rattle.std.specs.Prelude.{◌≡◌, Some, if◌then◌else◌, slice_get};
ghost use Rattle.swc_tree_node.specs.declared.node.Node.{List as Many, Tree};
ghost use Rattle.swc_tree_scoping.specs.Below.{field_place, fields_are, place_of, scope_of_fields, standing_beside, view_of};
ghost use Rattle.swc_tree_scoping.specs.Places.{binds_patterns as is_binding_patterns, by_keyword, by_word, default_name as stands_as_default, expression_name as stands_as_expression, field_role, function_standing as stands_as_function, is_plain_function as is_plain, is_there as stands_there, keyword_in, nested_below as is_nested_below, own_name as stands_as_name, part_standing as is_part_standing, place_below, plain_standing as stands_plain};

use crate::directives::{is_plain_function, is_strict};
use crate::opened::{is_inside, is_there, nests, opened_by, own_block, view_from};
use crate::places::{Place, Scope, Standing, View};
use swc_tree_node::fields::{export_default_decl, fn_decl, if_stmt, named_export};
use swc_tree_node::{Kind, Node, Role, Word, fields_of};

/// The place of a whole program.
pub const PROGRAM_PLACE: Place = Place {
    standing: Standing::Plain,
    strict: false,
    nested: false,
};

// What the place of a field goes by beside the place of the whole tree.
#[derive(Clone, Copy, Debug)]
pub struct Fields {
    kind: Kind,
    whole: Place,
    opened: Option<Scope>,
    strict: bool,
    keyword: Standing,
    function: Standing,
    exported: Standing,
}

/// The places of a node's children.
#[derive(Clone, Copy, Debug)]
pub enum PlacesBelow {
    /// Those of a list's items: that of the list.
    Items(Place),
    /// Those of a tree's fields.
    Fields(Fields),
}

impl PlacesBelow {
    /// The place of the child at an index.
    pub fn at(&self, index: usize, child: &Node) -> Place
        ensures { result ≡ place_of self.now index (Some child.now) }
    {
        match self {
            PlacesBelow::Items(place) => Place {
                standing: part_standing(place.standing, child),
                ..*place
            },
            PlacesBelow::Fields(fields) => fields.at(index, child),
        }
    }

    /// The scope that the node opens.
    pub fn opened(&self) -> Option<Scope>
        ensures { result ≡ scope_of_fields self.now }
    {
        match self {
            PlacesBelow::Items(_) => None,
            PlacesBelow::Fields(fields) => fields.opened,
        }
    }

    /// How much of the scope that the node opens is seen from the child at an index.
    pub fn view(&self, index: usize) -> View
        ensures { result ≡ view_of self.now index }
    {
        match self {
            PlacesBelow::Items(_) => View::Whole,
            PlacesBelow::Fields(fields) => view_from(fields.kind, index),
        }
    }
}

impl Fields {
    fn at(&self, index: usize, child: &Node) -> Place
        ensures { result ≡ field_place self.now index (Some child.now) }
    {
        let view = view_from(self.kind, index);
        Place {
            standing: self.standing(index, child),
            strict: self.whole.strict || (is_inside(view) && self.strict),
            nested: nested_below(self.whole.nested, self.opened, view),
        }
    }

    fn standing(&self, index: usize, child: &Node) -> Standing
        ensures { result ≡ standing_beside self.now index (Some child.now) }
    {
        match role_of_field(self.kind, index) {
            Role::Plain => plain_standing(self.kind, index),
            Role::Inherited => part_standing(self.whole.standing, child),
            Role::Reference => Standing::Reference,
            Role::Declared => self.keyword,
            Role::Function => self.function,
            Role::Class | Role::Lexical => Standing::Lexical,
            Role::OwnName => own_name(self.whole.standing, self.kind),
            Role::Parameter => part_standing(Standing::Parameter, child),
            Role::Catch => part_standing(Standing::CatchParameter, child),
            Role::Import => Standing::Import,
            Role::FunctionBody => Standing::Body,
            Role::ExportLocal => self.exported,
            Role::Label => Standing::Label,
            Role::Imported => Standing::Imported,
            Role::Exported => Standing::Exported,
            Role::TypeName => Standing::TypeName,
            Role::TypeReference => Standing::TypeReference,
        }
    }
}

/// The places of the items of a list in a place.
pub fn places_of_items(place: Place) -> PlacesBelow
    ensures { result ≡ PlacesBelow.Items place }
{
    PlacesBelow::Items(place)
}

/// The places of the fields of a tree in a place. It costs time in step with the number of fields, and with the
/// directives at the beginning of a function or a script.
pub fn places_of_fields(place: Place, kind: Kind, fields: &[Node]) -> PlacesBelow
    ensures { result ≡ PlacesBelow.Fields (fields_are place kind fields.now) }
{
    PlacesBelow::Fields(Fields {
        kind,
        whole: place,
        opened: opened_by(place, kind, is_there(fields, 0)),
        strict: is_strict(kind, fields),
        keyword: keyword_standing(fields),
        function: function_standing(place, is_plain_function(fields, fn_decl::FUNCTION)),
        exported: exported_standing(is_there(fields, named_export::SRC)),
    })
}

// As what a pattern or a part of one stands.
fn part_standing(standing: Standing, part: &Node) -> Standing
    ensures { result ≡ is_part_standing standing (Some part.now) }
{
    if binds_patterns(standing) && matches!(part, Node::Identifier(Kind::Ident, _)) {
        Standing::Reference
    } else {
        standing
    }
}

fn binds_patterns(standing: Standing) -> bool
    ensures { result ≡ is_binding_patterns standing }
{
    matches!(
        standing,
        Standing::Variable | Standing::Lexical | Standing::Parameter | Standing::CatchParameter
    )
}

/// The role of a field by the table.
pub fn role_of_field(kind: Kind, index: usize) -> Role
    ensures { result ≡ field_role kind index }
{
    match fields_of(kind).get(index) {
        Some(field) => field.role,
        None => Role::Plain,
    }
}

fn plain_standing(kind: Kind, index: usize) -> Standing
    ensures { result ≡ stands_plain kind index }
{
    match kind {
        Kind::IfStmt if index == if_stmt::CONS || index == if_stmt::ALT => Standing::Branch,
        Kind::ExportDefaultDecl if index == export_default_decl::DECL => Standing::DefaultExport,
        _ => Standing::Plain,
    }
}

fn own_name(standing: Standing, kind: Kind) -> Standing
    ensures { result ≡ stands_as_name standing kind }
{
    match standing {
        Standing::DefaultExport => default_name(kind),
        _ => expression_name(kind),
    }
}

fn default_name(kind: Kind) -> Standing
    ensures { result ≡ stands_as_default kind }
{
    match kind {
        Kind::FnExpr => Standing::Function,
        _ => Standing::Lexical,
    }
}

fn expression_name(kind: Kind) -> Standing
    ensures { result ≡ stands_as_expression kind }
{
    match kind {
        Kind::FnExpr => Standing::FunctionName,
        _ => Standing::ClassName,
    }
}

fn exported_standing(has_source: bool) -> Standing
    ensures { result ≡ (if has_source then Standing.Imported else Standing.Reference) }
{
    if has_source {
        Standing::Imported
    } else {
        Standing::Reference
    }
}

// As what the name of a function declaration is bound.
fn function_standing(place: Place, plain: bool) -> Standing
    ensures { result ≡ stands_as_function place plain }
{
    if !(place.nested || own_block(place)) {
        Standing::Function
    } else if !place.strict && plain {
        Standing::SloppyFunction
    } else {
        Standing::BlockFunction
    }
}

fn nested_below(nested: bool, opened: Option<Scope>, view: View) -> bool
    ensures { result ≡ is_nested_below nested opened view }
{
    match opened {
        Some(scope) if is_inside(view) => nests(scope, nested),
        _ => nested,
    }
}

// As what the names are bound that the keyword among the fields declares.
fn keyword_standing(fields: &[Node]) -> Standing
    ensures { result ≡ by_keyword fields.now }
{
    for field in fields {
        if let Node::Word(word) = field {
            return standing_of_word(*word);
        }
    }
    Standing::Lexical
}

fn standing_of_word(word: Word) -> Standing
    ensures { result ≡ by_word word }
{
    match word {
        Word::Var => Standing::Variable,
        _ => Standing::Lexical,
    }
}
