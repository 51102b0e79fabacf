//! Whether a name meets a catch parameter, told by texts where they tell it.
ghost use Rattle.std.specs.Prelude.{◌≡◌, ◌↔◌, ◌&&◌, true, false, not, IsTrue, IfOk, OnOk, map};
ghost use Rattle.swc_tree_node.specs.declared.node.Node.{Node as Node'};
ghost use Rattle.swc_tree_scoping.specs.Places.{program_place};
ghost use Rattle.swc_tree_scoping.specs.WellScoped.{is_catch_parameter};
ghost use Rattle.swc_tree_walk.specs.Sites.{site_of, sites as sites_in};
ghost use Rattle.swc_base_scope_checks.specs.Caught.{NoCaughtName, is_asked as asks_about};
ghost use Rattle.swc_base_alpha.specs.CatchTexts.{AreKept, HasTexts, NoneMeet, has_text};
ghost use Rattle.swc_base_alpha.specs.Judged.{IsOrdinary, IsOwnAnswer};

use std::alloc::{AllocError, Global};
use std::collections::BTreeSet;
use swc_base_rename_substitution::clear_contexts;
use swc_base_scope_checks::catches_name;
use swc_tree_marks::JsWord;
use swc_tree_node::Node;
use swc_tree_scoping::Standing;
use swc_tree_walk::Site;

fn is_parameter(standing: Standing) -> bool
    ensures { result ≡ is_catch_parameter standing }
{
    matches!(standing, Standing::CatchParameter)
}

fn is_asked(standing: Standing) -> bool
    ensures { result ≡ asks_about true standing }
{
    matches!(standing, Standing::Variable | Standing::SloppyFunction)
}

// Adds the text of an identifier, if it is a catch parameter.
fn note<'a>(texts: &mut BTreeSet<&'a JsWord>, site: &Site<'a>) -> Result<(), AllocError>
    ensures kept { OnOk result (AreKept texts.old texts.new) }
    ensures noted { OnOk result (IsTrue (is_catch_parameter site.now.standing) → IsTrue (has_text texts.new site.now.ident.now.sym)) }
{
    if !is_parameter(site.standing) {
        return Ok(());
    }
    let ident = site.ident;
    texts.insert(&ident.sym)?;
    Ok(())
}

// The texts of catch parameters. The set is ordered, so that no texts can make it slow.
fn catch_texts<'a>(alloc: Global, sites: &[Site<'a>]) -> Result<BTreeSet<&'a JsWord>, AllocError>
    ensures { IfOk result (HasTexts (map site_of sites.now)) }
{
    let mut texts = BTreeSet::new(alloc);
    for site in sites {
        note(&mut texts, site)?;
    }
    Ok(texts)
}

// Whether an identifier can be caught, and has one of the texts.
fn may_meet<'a>(texts: &BTreeSet<&'a JsWord>, site: &Site<'a>) -> bool
    ensures { result ≡ (asks_about true site.now.standing && has_text texts.now site.now.ident.now.sym) }
{
    let ident = site.ident;
    let text = &ident.sym;
    is_asked(site.standing) && texts.contains(&text)
}

// Whether a name may meet a catch parameter: one that can be caught has the text of such a parameter, wherever both stand.
fn may_be_caught<'a>(alloc: Global, sites: &[Site<'a>]) -> Result<bool, AllocError>
    ensures { IfOk result (λ may. may ≡ false → NoneMeet (map site_of sites.now)) }
{
    let texts = catch_texts(alloc, sites)?;
    for site in sites {
        if may_meet(&texts, site) {
            return Ok(true);
        }
    }
    Ok(false)
}

/// Whether a `var`, or a plain function in a block of sloppy code, meets a catch parameter of its name, in a program that was resolved
/// and whose identifiers are given.
///
/// Where none has the text of a catch parameter, the identifiers tell. Else the program is copied, without contexts, and looked through.
///
/// # Errors
///
/// Where memory was refused.
pub fn is_caught<'a>(alloc: Global, resolved: &Node, sites: &[Site<'a>]) -> Result<bool, AllocError>
    requires { map site_of sites.now ≡ sites_in program_place resolved.now }
    ensures { (t : Node') → IsOrdinary t → IsOwnAnswer t resolved.now → IfOk result (λ caught. IsTrue (not caught) ↔ NoCaughtName t) }
{
    if !may_be_caught(alloc, sites)? {
        return Ok(false);
    }
    let copy = resolved.clone()?;
    let plain = clear_contexts(alloc, copy);
    let caught = catches_name(alloc, &plain)?;
    Ok(caught)
}
