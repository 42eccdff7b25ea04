//! Laws of the configuration file.
ghost use Rattle.std.specs.Prelude.{◌≡◌, ℕ, List, Some};
ghost use Rattle.sds_types.specs.declared.config.Config.{Config};
ghost use Rattle.sds_types.specs.declared.config_refusal.ConfigRefusal.{ConfigRefusal};
ghost use Rattle.sds_config.specs.Configuration.{IsConfiguration, IsFirstRefusal, without_place};
ghost use Rattle.sds_config.specs.Fields.{NoneBefore, first_unlisted};
ghost use Rattle.toml.specs.Data.{Members};

/// The law that a file has one reading: it writes at most one configuration, or has at most one first refusal, but for the
/// place at which the reading of TOML stopped, and never both.
pub fn files_have_one_reading()
    ensures configuration { (file : List ℕ) (a b : Config) → IsConfiguration file a → IsConfiguration file b → a ≡ b }
    ensures refusal { (file : List ℕ) (a b : ConfigRefusal) → IsFirstRefusal file a → IsFirstRefusal file b
        → without_place a ≡ without_place b }
    ensures apart { (file : List ℕ) (config : Config) (refusal : ConfigRefusal) → IsConfiguration file config → IsFirstRefusal file refusal → ⊥ }
{}

/// The law that of the keys that an entry may not have the first in byte order is answered, in
/// whatever order they stand.
pub fn unlisted_keys_go_by_byte_order()
    ensures { (names : List (List ℕ)) (entry : Members) (key : List ℕ)
        → first_unlisted names entry ≡ Some key → NoneBefore names entry key }
{}
