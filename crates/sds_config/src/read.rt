//! The reading of a configuration file.
ghost use Rattle.std.specs.Prelude.{◌≡◌, ◌≢◌, ◌≤◌, ◌^◌, ℕ, IfOk, IfErr, length};
ghost use Rattle.sds_config.specs.Positions.{IsPosition};
ghost use Rattle.sds_types.specs.declared.config_refusal.ConfigRefusal.TheVariants as refusal;

use crate::position::position_after;
use crate::reading::read_file;
use sds_base::Txt;
use sds_types::limits::MOST_CONFIG_BYTES;
use sds_types::{Config, ConfigRefusal};
use std::alloc::Global;

/// What is read from a configuration file.
pub trait ReadConfig: Drop {
    ghost use Rattle.std.specs.Prelude.{List, ℕ};
    ghost use Rattle.sds_types.specs.declared.config_refusal.ConfigRefusal.{ConfigRefusal};

    ghost is_written: { List ℕ → Self → Type 0 };

    ghost is_refused: { List ℕ → ConfigRefusal → Type 0 };

    /// Reads a configuration file. The answer is Ok exactly where the file writes a configuration, with exactly that value,
    /// and else exactly the first refusal in the order of the file's rules, which are symds' own: the file's length, its
    /// TOML, its version, unlisted keys, and then section after section and entry after entry.
    fn read(alloc: Global, bytes: &[u8]) -> Result<Self, ConfigRefusal>
        ensures ok { IfOk result (λ config. is_written bytes.now config) }
        ensures refused { IfErr result (λ why. why ≢ refusal.NoMemory → is_refused bytes.now why) };
}

impl ReadConfig for Config {
    ghost use Rattle.sds_config.specs.Configuration.{IsConfiguration, IsFirstRefusal};

    ghost is_written = { IsConfiguration };

    ghost is_refused = { IsFirstRefusal };

    fn read(alloc: Global, bytes: &[u8]) -> Result<Config, ConfigRefusal> {
        if bytes.len() > MOST_CONFIG_BYTES {
            return Err(ConfigRefusal::TooMany(Txt::copied(alloc, "file")?));
        }
        match toml::table_from_slice(alloc, bytes) {
            Ok(table) => read_file(alloc, &table),
            Err(error) if error.is_memory() => Err(ConfigRefusal::NoMemory),
            Err(error) => Err(not_toml(bytes, &error)),
        }
    }
}

/// The refusal of a file that isn't TOML, with the place at which the reading of TOML stopped.
fn not_toml(bytes: &[u8], error: &toml::de::Error) -> ConfigRefusal
    requires { length bytes.now ≤ 2 ^ 20 }
    ensures { (line : ℕ) × ((column : ℕ) × (IsPosition bytes.now line column × (result ≡ refusal.NotToml line column))) }
{
    let start = match error.span() {
        Some(span) => span.start.min(bytes.len()),
        None => 0,
    };
    let position = position_after(&bytes[..start]);
    ConfigRefusal::NotToml {
        line: position.line,
        column: position.column,
    }
}
