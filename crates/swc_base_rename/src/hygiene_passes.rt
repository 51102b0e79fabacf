//! Hygiene, as it stands and by a configuration.
ghost use Rattle.std.specs.Prelude.{◌≡◌, false};

use crate::hygienic::Hygiene;
use swc_base_rename_substitution::Config;

/// The pass after which texts alone tell the names of a program apart.
pub fn hygiene() -> Hygiene
    ensures { result.config ≡ record { keep_class_names = false; safari_10 = false; top_level_mark = 0; ignore_eval = false } }
{
    hygiene_with_config(Config::default())
}

/// The same, going by a configuration.
pub fn hygiene_with_config(config: Config) -> Hygiene
    ensures { result.config ≡ config }
{
    Hygiene::new(config)
}
