//! A program, as naming asks of it.
ghost use Rattle.std.specs.Prelude.{◌≡◌, ◌||◌};
ghost use Rattle.std.specs.BTreeSet.{contains_text};
ghost use Rattle.swc_base_rename_analysis.specs.Read.{PositionsRise};
ghost use Rattle.swc_base_rename_analysis_laws.specs.Means.{surrounds as is_surrounding};
ghost use Rattle.swc_base_rename_naming_laws.proofs.Surrounds.{surrounds_own, surrounds_same, surrounds_through};
ghost use Rattle.swc_base_rename_naming_laws.specs.Rules.{id_in, occurs_at};
ghost use Rattle.swc_base_rename_program.specs.Kept.{is_kept};
ghost use Rattle.swc_base_rename_program.specs.Asked.{is_preserved_text};
ghost use Rattle.swc_base_rename_program.specs.Spans.{spans as spans_in};
ghost use Rattle.swc_base_rename_naming_laws.specs.Stretches.{positions_in, stretch_in};
ghost use Rattle.swc_base_rename_naming_laws.proofs.Placed.{placed_in};

use crate::kept::Kept;
use crate::spans::{Span, is_apart};
use crate::surrounding::surrounds;
use std::collections::BTreeSet;
use swc_base_rename_analysis::Analysis;
use swc_base_rename_naming::{Asked, Nesting};
use swc_tree_marks::Id;

/// What was read off a program, the ids that keep their texts, and texts that no name may be beside those of loose ids.
#[derive(Clone, Copy)]
pub struct Program<'a> {
    pub analysis: &'a Analysis,
    pub kept: &'a Kept<'a>,
    pub left: &'a BTreeSet<String>,
    /// The first and the last position of each id.
    pub spans: &'a [Span],
    ghost spanned: { spans.now ≡ spans_in analysis.now.ids.items },
    ghost rising: { PositionsRise analysis.now },
}

impl Asked for Program<'_> {
    ghost id_of = { λ p k. id_in p.analysis.now k };

    ghost occurs = { λ p s k. occurs_at p.analysis.now s k };

    ghost positions = { λ p k. positions_in p.analysis.now k };

    ghost stretch = { λ p s. stretch_in p.analysis.now s };

    ghost keeps = { λ p x. is_kept p.kept.now x };

    ghost preserved = { λ p text. is_preserved_text p.analysis.now p.left.now text };

    fn id(&self, number: usize) -> Option<&Id> {
        match self.analysis.ids.get(number) {
            Some(entry) => Some(&entry.id),
            None => None,
        }
    }

    // An id whose first and last positions tell that it occurs elsewhere alone is not looked up.
    fn occurs(&self, scope: usize, id: usize) -> bool {
        if is_apart(self.analysis.regions.as_slice(), self.spans, scope, id) {
            return false;
        }
        self.analysis.occurs(scope, id)
    }

    fn positions(&self, id: usize) -> &[usize] {
        match self.analysis.ids.get(id) {
            Some(entry) => entry.positions.as_slice(),
            None => &[],
        }
    }

    fn stretch(&self, scope: usize) -> (usize, usize) {
        match self.analysis.regions.get(scope) {
            Some(region) => (region.start, region.end),
            None => (0, 0),
        }
    }

    fn keeps(&self, id: &Id) -> bool {
        self.kept.keeps(id)
    }

    fn is_preserved(&self, text: &str) -> bool {
        self.analysis.loose.contains(text) || self.left.contains(text)
    }

    ghost placed = { λ p s k. placed_in p.analysis.now s k };
}

impl Nesting for Program<'_> {
    ghost surrounds = { λ p m n. is_surrounding p.analysis.now m n };

    fn surrounds(&self, outer: usize, inner: usize) -> bool {
        surrounds(self.analysis, outer, inner)
    }

    ghost own = { λ p s. surrounds_own p.analysis.now s };

    ghost through = { λ p s t u. surrounds_through p.analysis.now s t u };

    ghost same = { λ p s t. surrounds_same p.analysis.now s t };
}
