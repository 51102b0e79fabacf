//! Old names, each with its number.
ghost use Rattle.std.specs.Prelude.{◌≡◌, [], IfOk};
ghost use Rattle.mucwathi_mappings.specs.Names.{AreNumbered, GetsNumber, number_in, texts_of};

use std::alloc::{AllocError, Global};
use std::collections::BTreeMap;

#[derive(Drop)]
pub(crate) struct Names<'a> {
    numbers: BTreeMap<&'a str, usize>,
    pub texts: Vec<&'a str>,
}

impl<'a> Names<'a> {
    pub(crate) fn new(alloc: Global) -> Names<'a>
        ensures numbered { AreNumbered result }
        ensures none { texts_of result ≡ [] }
    {
        Names {
            numbers: BTreeMap::new(alloc),
            texts: Vec::new(alloc),
        }
    }

    // The number of a name that is known.
    fn known(&self, name: &'a str) -> Option<usize>
        ensures { result ≡ number_in self.now name.entry.now }
    {
        self.numbers.get(&name).copied()
    }

    /// The number of a name, from 0: one that is not known comes behind the others.
    pub(crate) fn number(&mut self, name: &'a str) -> Result<usize, AllocError>
        requires { AreNumbered self.old }
        ensures { IfOk result (GetsNumber self.old self.new name.entry.now) }
    {
        if let Some(number) = self.known(name) {
            return Ok(number);
        }
        let number = self.texts.as_slice().len();
        self.texts.push(name)?;
        self.numbers.insert(name, number)?;
        Ok(number)
    }
}
