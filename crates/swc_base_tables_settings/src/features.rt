//! Which version of the language has which features.

ghost use Rattle.std.specs.Prelude.{◌≡◌, ℕ, ◌≤◌, ◌↔◌};
ghost use Rattle.swc_base_tables_settings.specs.Features.{Has, HasFeature, place_of};

use crate::flag::FeatureFlag;
use swc_tree_version::EsVersion;

const ES5: u64 = 0b111 << 29;

const ES2015: u64 = ES5
    | 1 << 0
    | 1 << 2
    | 1 << 3
    | 1 << 4
    | 1 << 5
    | 1 << 6
    | 1 << 7
    | 1 << 8
    | 1 << 9
    | 1 << 10
    | 1 << 11
    | 1 << 13
    | 1 << 14
    | 1 << 15
    | 1 << 16
    | 1 << 17
    | 1 << 18
    | 1 << 19
    | 1 << 20;

const ES2016: u64 = ES2015 | 1 << 21;

const ES2017: u64 = ES2016 | 1 << 22;

const ES2018: u64 = ES2017 | 1 << 12 | 1 << 24 | 1 << 25 | 1 << 28;

const ES2019: u64 = ES2018 | 1 << 27;

const ES2020: u64 = ES2019 | 1 << 32 | 1 << 33 | 1 << 35;

const ES2021: u64 = ES2020 | 1 << 34;

const ES2022: u64 = ES2021 | 1 << 36 | 1 << 39 | 1 << 40;

/// The features that a version has: those that it adds and those of each earlier version.
pub fn enable_available_feature_from_es_version(version: EsVersion) -> FeatureFlag
    ensures features { (feature : ℕ) → Has result.bits feature ↔ HasFeature version feature }
    ensures of_earlier { (earlier : EsVersion) → place_of earlier ≤ place_of version → (feature : ℕ) → HasFeature earlier feature → Has result.bits feature }
{
    FeatureFlag {
        bits: bits_of(version),
    }
}

fn bits_of(version: EsVersion) -> u64
    ensures { (feature : ℕ) → Has result feature ↔ HasFeature version feature }
{
    match version {
        EsVersion::Es3 => 0,
        EsVersion::Es5 => ES5,
        EsVersion::Es2015 => ES2015,
        EsVersion::Es2016 => ES2016,
        EsVersion::Es2017 => ES2017,
        EsVersion::Es2018 => ES2018,
        EsVersion::Es2019 => ES2019,
        EsVersion::Es2020 => ES2020,
        EsVersion::Es2021 => ES2021,
        EsVersion::Es2022 => ES2022,
        EsVersion::EsNext => ES2022,
    }
}
