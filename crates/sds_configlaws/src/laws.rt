//! Laws of configuration files.
ghost use Rattle.std.specs.List.{All};
ghost use Rattle.std.specs.Prelude.{◌⊎◌, ℕ, List};
ghost use Rattle.sds_config.specs.Configuration.{IsConfiguration, IsFirstRefusal};
ghost use Rattle.sds_doclaws.specs.Writable.{HasFewKeys};
ghost use Rattle.sds_trade.specs.rules.Sound.{IsSound};
ghost use Rattle.sds_types.specs.declared.config.Config.{Config};
ghost use Rattle.sds_types.specs.declared.config_refusal.ConfigRefusal.{ConfigRefusal};

/// The law that each file is read: it writes a configuration, or it has a first refusal.
pub fn files_are_read()
    ensures { (file : List ℕ) → ((config : Config) × IsConfiguration file config)
        ⊎ ((refusal : ConfigRefusal) × IsFirstRefusal file refusal) }
{}

/// The law that every configuration that a file writes is sound. The rules of the trade rely on
/// nothing else of it.
pub fn files_are_sound()
    ensures { (file : List ℕ) (config : Config) → IsConfiguration file config → IsSound config }
{}

/// The law that a file's transforms have as few columns for keys as the law of written documents
/// asks.
pub fn files_have_few_keys()
    ensures { (file : List ℕ) (config : Config) → IsConfiguration file config
        → All (HasFewKeys config) config.transforms }
{}
