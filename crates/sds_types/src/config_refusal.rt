//! Why a configuration isn't read.
ghost use Rattle.std.specs.Prelude.{◌≡◌};
ghost use Rattle.sds_types.specs.declared.config_refusal.ConfigRefusal.TheVariants as refusal;

use sds_base::Txt;
use std::alloc::{AllocError, AllocFailed};

/// Why a configuration isn't read: the first refusal in the order of the file's rules, which are symds' own. A text
/// that a refusal has is the path of what is refused, as `channel[0].id`, with places from 0.
#[derive(Debug, PartialEq, Eq, Drop)]
pub enum ConfigRefusal {
    /// The file isn't TOML in UTF-8: the line and the column, from 1, at which the reading of TOML stopped. A column counts
    /// characters.
    NotToml { line: u32, column: u32 },
    /// A field that has no default is absent.
    MissingEntry(Txt),
    /// A value has another type than its field.
    WrongType(Txt),
    /// A name refers to nothing.
    UnknownName(Txt),
    /// An id, or what has to be single, stands twice.
    Duplicate(Txt),
    /// Two groups have no link.
    NoLink(Txt),
    /// A router's expression isn't of its type's form: the router's id, and the place of the first character from which
    /// no continuation is of the form, from 0.
    BadExpression { router: Txt, place: u32 },
    /// A key is unlisted, or a value is none of those that are allowed.
    BadSetting(Txt),
    /// There are more entries than the limit.
    TooMany(Txt),
    /// Out of memory. This is no statement about the file.
    NoMemory,
}

impl From<sds_base::NoMemory> for ConfigRefusal {
    ghost from_gives = { λ _ e. e ≡ refusal.NoMemory };

    fn from(_: sds_base::NoMemory) -> ConfigRefusal {
        ConfigRefusal::NoMemory
    }
}

impl From<AllocError> for ConfigRefusal {
    ghost from_gives = { λ _ e. e ≡ refusal.NoMemory };

    fn from(_: AllocError) -> ConfigRefusal {
        ConfigRefusal::NoMemory
    }
}

impl<T: Drop> From<AllocFailed<T>> for ConfigRefusal {
    ghost from_gives = { λ _ e. e ≡ refusal.NoMemory };

    fn from(_: AllocFailed<T>) -> ConfigRefusal {
        ConfigRefusal::NoMemory
    }
}

impl ConfigRefusal {
    ghost use Rattle.std.specs.Prelude.{option_copied};
    ghost use Rattle.sds_types.specs.ConfigRefusals.{name_of, number_of, path_of};

    /// The refusal's number, 1 to 9 in the order above, and 0 for out of memory.
    pub fn number(&self) -> u8
        ensures { result ≡ number_of self.now }
    {
        match self {
            ConfigRefusal::NotToml { .. } => 1,
            ConfigRefusal::MissingEntry(_) => 2,
            ConfigRefusal::WrongType(_) => 3,
            ConfigRefusal::UnknownName(_) => 4,
            ConfigRefusal::Duplicate(_) => 5,
            ConfigRefusal::NoLink(_) => 6,
            ConfigRefusal::BadExpression { .. } => 7,
            ConfigRefusal::BadSetting(_) => 8,
            ConfigRefusal::TooMany(_) => 9,
            ConfigRefusal::NoMemory => 0,
        }
    }

    /// The refusal's name, as messages print it.
    pub fn name(&self) -> &'static str
        ensures { result.now ≡ name_of self.now }
    {
        match self {
            ConfigRefusal::NotToml { .. } => "NotToml",
            ConfigRefusal::MissingEntry(_) => "MissingEntry",
            ConfigRefusal::WrongType(_) => "WrongType",
            ConfigRefusal::UnknownName(_) => "UnknownName",
            ConfigRefusal::Duplicate(_) => "Duplicate",
            ConfigRefusal::NoLink(_) => "NoLink",
            ConfigRefusal::BadExpression { .. } => "BadExpression",
            ConfigRefusal::BadSetting(_) => "BadSetting",
            ConfigRefusal::TooMany(_) => "TooMany",
            ConfigRefusal::NoMemory => "NoMemory",
        }
    }

    /// The path of what is refused, or the id of the router whose expression is. A file that isn't TOML has none.
    pub fn path(&self) -> Option<&Txt>
        ensures { option_copied result ≡ path_of self.now }
    {
        match self {
            ConfigRefusal::NotToml { .. } | ConfigRefusal::NoMemory => None,
            ConfigRefusal::MissingEntry(path)
            | ConfigRefusal::WrongType(path)
            | ConfigRefusal::UnknownName(path)
            | ConfigRefusal::Duplicate(path)
            | ConfigRefusal::NoLink(path)
            | ConfigRefusal::BadSetting(path)
            | ConfigRefusal::TooMany(path) => Some(path),
            ConfigRefusal::BadExpression { router, .. } => Some(router),
        }
    }
}
