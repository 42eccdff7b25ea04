ghost use Rattle.std.specs.Prelude.{◌≡◌};

use std::alloc::{AllocError, AllocFailed};
use thiserror::Error;

/// Why a text is not read on: what its first byte does from which on no way to go on is a line (symds' own form).
#[derive(Clone, Copy, Debug, PartialEq, Eq, Drop, Error)]
pub enum LineRefusal {
    /// A quote stands inside a field that did not begin with one, or something else than spacing stands between a
    /// closing quote and the next comma or the end of the line. In one line alone, a line feed stands outside quotes.
    #[error("a quote stands inside a plain field, or something behind a closing quote")]
    BareQuote,
    /// The text ends inside quotes.
    #[error("the text ends inside quotes")]
    OpenQuote,
    /// Inside quotes, something else than a quote or a backslash stands behind a backslash.
    #[error("something else than a quote or a backslash stands behind a backslash")]
    BadEscape,
    /// The line has more than 1,048,576 bytes.
    #[error("the line has more than 1048576 bytes")]
    LineTooLong,
    /// The bytes are not UTF-8.
    #[error("the text is not UTF-8")]
    NotUtf8,
    /// Memory was wanting.
    #[error("memory was wanting")]
    NoMemory,
}

impl From<sds_base::NoMemory> for LineRefusal {
    ghost use Rattle.sds_line.specs.declared.refusal.LineRefusal.TheVariants.{NoMemory};

    ghost from_gives = { λ _ refusal. refusal ≡ NoMemory };

    fn from(_: sds_base::NoMemory) -> LineRefusal {
        LineRefusal::NoMemory
    }
}

impl From<AllocError> for LineRefusal {
    ghost use Rattle.sds_line.specs.declared.refusal.LineRefusal.TheVariants.{NoMemory};

    ghost from_gives = { λ _ refusal. refusal ≡ NoMemory };

    fn from(_: AllocError) -> LineRefusal {
        LineRefusal::NoMemory
    }
}

impl<T: Drop> From<AllocFailed<T>> for LineRefusal {
    ghost use Rattle.sds_line.specs.declared.refusal.LineRefusal.TheVariants.{NoMemory};

    ghost from_gives = { λ _ refusal. refusal ≡ NoMemory };

    fn from(_: AllocFailed<T>) -> LineRefusal {
        LineRefusal::NoMemory
    }
}
