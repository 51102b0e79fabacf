//! The scopes and the names of a tree, in the order in which a renamer comes to them.
ghost use Rattle.std.specs.Prelude.{◌≡◌, [], IfOk, OnOk, length};
ghost use Rattle.swc_base_rename_analysis.specs.Walk.{begin as is_begun, end as is_ended, enter as is_entered, function_at as function_of, laid_of, meet, met_of};

use crate::scopes::ScopeKind;
use std::alloc::{AllocError, Global};
use swc_tree_marks::Ident;
use swc_tree_scoping::Standing;

/// A scope, by its number: what takes the names in it, and their positions.
#[derive(Clone, Copy)]
pub struct Region {
    pub kind: ScopeKind,
    /// The number of the first of it and the scopes round it that takes all names.
    pub function: Option<usize>,
    /// The position of the first name in it or below it, if there is one.
    pub start: usize,
    /// The position behind the last.
    pub end: usize,
}

/// An identifier that stands as a name or a label.
#[derive(Clone, Copy)]
pub struct Name<'a> {
    pub ident: &'a Ident,
    pub standing: Standing,
    /// The number of the innermost scope round it.
    pub scope: Option<usize>,
    /// Whether it stands in an export list.
    pub exported: bool,
}

/// The scopes in the order in which they are entered, and the names, whose positions are their indices.
#[derive(Drop)]
pub struct Layout<'a> {
    pub regions: Vec<Region>,
    pub names: Vec<Name<'a>>,
}

impl<'a> Layout<'a> {
    /// No scopes and no names.
    pub fn new(alloc: Global) -> Layout<'a>
        ensures { laid_of result ≡ record { regions = []; names = [] } }
    {
        Layout {
            regions: Vec::new(alloc),
            names: Vec::new(alloc),
        }
    }

    // The nearest scope that takes all names, at a scope of that kind in another one.
    fn function_at(&self, kind: ScopeKind, parent: Option<usize>) -> Option<usize>
        ensures { result ≡ function_of self.now.regions.items kind parent }
    {
        match (kind, parent) {
            (ScopeKind::Fn, _) => Some(self.regions.len()),
            (ScopeKind::Block, Some(parent)) => match self.regions.get(parent) {
                Some(region) => region.function,
                None => None,
            },
            (ScopeKind::Block, None) => None,
        }
    }

    /// One scope more, which has no names yet: its number.
    pub fn enter(&mut self, kind: ScopeKind, parent: Option<usize>) -> Result<usize, AllocError>
        ensures number { IfOk result (λ number. number ≡ length self.old.regions.items) }
        ensures entered { OnOk result (laid_of self.new ≡ is_entered kind parent (laid_of self.old)) }
    {
        let number = self.regions.len();
        let function = self.function_at(kind, parent);
        let start = self.names.len();
        self.regions.push(Region {
            kind,
            function,
            start,
            end: start,
        })?;
        Ok(number)
    }

    /// The names of a scope begin here.
    pub fn begin(&mut self, number: usize)
        ensures { laid_of self.new ≡ is_begun number (laid_of self.old) }
    {
        let start = self.names.len();
        if let Some(region) = self.regions.get(number) {
            let region = Region { start, ..*region };
            self.regions[number] = region;
        }
    }

    /// The names of a scope end here.
    pub fn end(&mut self, number: usize)
        ensures { laid_of self.new ≡ is_ended number (laid_of self.old) }
    {
        let end = self.names.len();
        if let Some(region) = self.regions.get(number) {
            let region = Region { end, ..*region };
            self.regions[number] = region;
        }
    }

    /// One name more.
    pub fn push(&mut self, name: Name<'a>) -> Result<(), AllocError>
        ensures { OnOk result (laid_of self.new ≡ meet (met_of name.entry) (laid_of self.old)) }
    {
        self.names.push(name)?;
        Ok(())
    }
}
