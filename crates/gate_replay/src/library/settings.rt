//! Rows of features, assumptions and native names.
use bitflags::Flags;
use serde_json::Value;
use std::alloc::Global;
use std::cmp::Ordering;
use std::fmt::Write;
use std::hash::{DefaultHasher, Hash, Hasher};
use swc_base_tables_settings::{
    Assumptions, FeatureFlag, enable_available_feature_from_es_version, is_native,
};
use swc_tree_version::EsVersion;

fn version(name: &str) -> Option<EsVersion> {
    match name {
        "Es3" => Some(EsVersion::Es3),
        "Es5" => Some(EsVersion::Es5),
        "Es2015" => Some(EsVersion::Es2015),
        "Es2016" => Some(EsVersion::Es2016),
        "Es2017" => Some(EsVersion::Es2017),
        "Es2018" => Some(EsVersion::Es2018),
        "Es2019" => Some(EsVersion::Es2019),
        "Es2020" => Some(EsVersion::Es2020),
        "Es2021" => Some(EsVersion::Es2021),
        "Es2022" => Some(EsVersion::Es2022),
        "EsNext" => Some(EsVersion::EsNext),
        _ => None,
    }
}

fn features(alloc: Global, name: &str) -> Option<String> {
    let bits = enable_available_feature_from_es_version(version(name)?).bits();
    format!(in alloc; "{bits:x}").ok()
}

// The sets that the operators make of two features.
fn operations(alloc: Global, input: &str) -> Option<String> {
    let (first, second) = input.split_once(' ')?;
    let (one, other) = (
        FeatureFlag::from_name(first)?,
        FeatureFlag::from_name(second)?,
    );
    let both = one | other;
    let sets = [one & other, both, both ^ one, both - one, !one, !!one];
    let mut text = String::new(alloc);
    for set in sets {
        write!(text, "{:x} ", set.bits()).ok()?;
    }
    write!(text, "{} {}", both.contains(one), one.contains(both)).ok()?;
    Some(text)
}

// The same by the forms that assign.
fn assigned(alloc: Global, input: &str) -> Option<String> {
    let (first, second) = input.split_once(' ')?;
    let (one, other) = (
        FeatureFlag::from_name(first)?,
        FeatureFlag::from_name(second)?,
    );
    let (mut meet, mut both, mut differ, mut rest) = (one, one, one, one);
    meet &= other;
    both |= other;
    differ ^= other;
    rest -= other;
    let none = FeatureFlag::default();
    format!(in alloc;
        "{:x} {:x} {:x} {:x} {:x}",
        meet.bits(),
        both.bits(),
        differ.bits(),
        rest.bits(),
        none.bits()
    )
    .ok()
}

// What is read of a text, written again; or why it is refused.
fn assumed(alloc: Global, input: &str) -> Option<String> {
    let value = Value::from_str(alloc, input).ok()?;
    match Assumptions::from_value(&value) {
        Ok(assumptions) => written(alloc, &assumptions),
        Err(error) => format!(in alloc; "{error}").ok(),
    }
}

// What is written of assumptions, if it is read as these again.
fn written(alloc: Global, assumptions: &Assumptions) -> Option<String> {
    let value = assumptions.to_value(alloc).ok()?;
    if Assumptions::from_value(&value) == Ok(*assumptions) {
        value.to_string(alloc).ok()
    } else {
        None
    }
}

fn hash_of(assumptions: &Assumptions) -> u64 {
    let mut hasher = DefaultHasher::new();
    assumptions.hash(&mut hasher);
    hasher.finish()
}

// The assumptions that a text is.
fn assumptions_of(alloc: Global, text: &str) -> Option<Assumptions> {
    let value = Value::from_str(alloc, text).ok()?;
    Assumptions::from_value(&value).ok()
}

// How two assumptions stand to one another, and whether they hash equally.
fn compared(alloc: Global, input: &str) -> Option<String> {
    let (first, second) = input.split_once(' ')?;
    let (one, other) = (
        assumptions_of(alloc, first)?,
        assumptions_of(alloc, second)?,
    );
    let order = match one.cmp(&other) {
        Ordering::Less => "less",
        Ordering::Equal => "equal",
        Ordering::Greater => "greater",
    };
    let (is_less, is_same) = (one < other, hash_of(&one) == hash_of(&other));
    format!(in alloc; "{order} {is_less} {is_same}").ok()
}

fn native(alloc: Global, name: &str) -> Option<String> {
    format!(in alloc; "{}", is_native(name)).ok()
}

/// What is answered to words about features, assumptions and native names.
pub fn answer(alloc: Global, words: &str, input: &str) -> Option<String> {
    match words {
        "features" => features(alloc, input),
        "operators" => operations(alloc, input),
        "assigning operators" => assigned(alloc, input),
        "native" => native(alloc, input),
        "assumptions" => assumed(alloc, input),
        "no assumptions" => written(alloc, &Assumptions::default()),
        "all assumptions" => written(alloc, &Assumptions::all()),
        "order of assumptions" => compared(alloc, input),
        _ => None,
    }
}
