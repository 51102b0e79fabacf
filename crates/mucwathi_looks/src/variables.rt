//! Which names of a program are one variable's.
ghost use Rattle.std.specs.Prelude.{◌≡◌, ◌++◌, IfOk, OnOk, map};
ghost use Rattle.std.specs.List.{flat_map};
ghost use Rattle.std.specs.Option.{option_map};
ghost use Rattle.swc_tree_walk.specs.Sites.{site_of};
ghost use Rattle.mucwathi_looks.specs.Coloured.{AreUses, told, told_at, variables_at};
ghost use Rattle.mucwathi_looks.specs.Numbered.{AreApart, AreNumbered, HasNews, Keeps, Knows, KnowsAll, new_in, number_in, variable_in, variables_in};

use mucwathi_lists::Change;
use mucwathi_page::Use;
use std::alloc::{AllocError, Global};
use std::collections::BTreeMap;
use swc_tree_walk::Site;

// The mark of a scope, and a name of that scope.
type Variable<'a> = (u32, &'a str);

// The variable that an identifier with one mark is a name of.
fn variable_of<'a>(site: &Site<'a>) -> Option<Variable<'a>>
    ensures { variables_in result ≡ variables_at (site_of site.now) }
{
    let ident = site.ident;
    match ident.ctxt.marks() {
        [mark] => Some((mark.as_u32(), ident.sym.as_str())),
        _ => None,
    }
}

// Gives a variable the next number, unless it has one.
fn add_number<'a>(
    numbers: &mut BTreeMap<Variable<'a>, usize>,
    variable: Variable<'a>,
) -> Result<(), AllocError>
    requires { AreApart numbers.old }
    ensures apart { OnOk result (AreApart numbers.new) }
    ensures keeps { OnOk result (Keeps numbers.old numbers.new) }
    ensures known { OnOk result (Knows numbers.new variable.entry) }
{
    if numbers.get(&variable).is_none() {
        let number = numbers.len();
        numbers.insert(variable, number)?;
    }
    Ok(())
}

// The same of the variable that an identifier is a name of, if it is one's.
fn meet<'a>(numbers: &mut BTreeMap<Variable<'a>, usize>, site: &Site<'a>) -> Result<(), AllocError>
    requires { AreApart numbers.old }
    ensures apart { OnOk result (AreApart numbers.new) }
    ensures keeps { OnOk result (Keeps numbers.old numbers.new) }
    ensures known { OnOk result (KnowsAll numbers.new (variables_at (site_of site.now))) }
{
    match variable_of(site) {
        Some(variable) => add_number(numbers, variable),
        None => Ok(()),
    }
}

// The variables of a program, by number, in the order in which they are met.
fn numbers_of<'a>(
    alloc: Global,
    sites: &[Site<'a>],
) -> Result<BTreeMap<Variable<'a>, usize>, AllocError>
    ensures { IfOk result (AreNumbered (flat_map variables_at (map site_of sites.now))) }
{
    let mut numbers = BTreeMap::new(alloc);
    for site in sites {
        meet(&mut numbers, site)?;
    }
    Ok(numbers)
}

// What names are called anew, by where they stand.
fn news_of<'a>(alloc: Global, changes: &'a [Change]) -> Result<BTreeMap<usize, &'a str>, AllocError>
    ensures { IfOk result (HasNews changes.now) }
{
    let mut news = BTreeMap::new(alloc);
    for change in changes {
        news.insert(change.at, change.new.as_str())?;
    }
    Ok(news)
}

// The number of a variable.
fn number_of<'a>(numbers: &BTreeMap<Variable<'a>, usize>, variable: Variable<'a>) -> usize
    ensures { result ≡ number_in numbers.now (variable_in variable.entry) }
{
    numbers.get(&variable).copied().unwrap_or(0)
}

// What the name at a place is called anew, if it is.
fn new_name<'c>(news: &BTreeMap<usize, &'c str>, place: usize) -> Option<&'c str>
    ensures { option_map (λ name. name.now) result ≡ new_in news.now place }
{
    news.get(&place).copied()
}

// Adds a name, if it is a variable's.
fn add_use<'a, 'c>(
    site: &Site<'a>,
    numbers: &BTreeMap<Variable<'a>, usize>,
    news: &BTreeMap<usize, &'c str>,
    uses: &mut Vec<Use<'c>>,
) -> Result<(), AllocError>
    ensures { OnOk result (map told uses.new.items ≡ map told uses.old.items ++ told_at (number_in numbers.now) (new_in news.now) (site_of site.now)) }
{
    let Some(variable) = variable_of(site) else {
        return Ok(());
    };
    let from = site.ident.span.lo.saturating_sub(1) as usize;
    uses.push(Use {
        from,
        to: site.ident.span.hi.saturating_sub(1) as usize,
        variable: number_of(numbers, variable),
        mark: variable.0,
        new: new_name(news, from),
    })?;
    Ok(())
}

// The names of a program, one after another.
fn all_uses<'a, 'c>(
    alloc: Global,
    sites: &[Site<'a>],
    numbers: &BTreeMap<Variable<'a>, usize>,
    news: &BTreeMap<usize, &'c str>,
) -> Result<Vec<Use<'c>>, AllocError>
    ensures { IfOk result (λ uses. map told uses.items ≡ flat_map (told_at (number_in numbers.now) (new_in news.now)) (map site_of sites.now)) }
{
    let mut uses = Vec::new(alloc);
    for site in sites {
        add_use(site, numbers, news, &mut uses)?;
    }
    Ok(uses)
}

/// The names of a program that was resolved, in the order of its text, with what they are called anew.
pub(crate) fn uses_of<'a>(
    alloc: Global,
    sites: &[Site<'_>],
    changes: &'a [Change],
) -> Result<Vec<Use<'a>>, AllocError>
    ensures { IfOk result (λ uses. AreUses (map site_of sites.now) changes.now uses.items) }
{
    let numbers = numbers_of(alloc, sites)?;
    let news = news_of(alloc, changes)?;
    let mut uses = all_uses(alloc, sites, &numbers, &news)?;
    uses.sort_by_key(|each| each.from)?;
    Ok(uses)
}
