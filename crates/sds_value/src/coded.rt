// Bytes as text.
ghost use Rattle.std.specs.Prelude.{◌≡◌, ◌≢◌, IfOk, MatchOption, None, Some, string_bytes};
ghost use Rattle.std.specs.Str.{chars};
ghost use Rattle.sds_value.specs.declared.kind.Binary.TheVariants as forms;
ghost use Rattle.sds_value.specs.Binaries.{coded_bytes, coded_text};
ghost use Rattle.sds_value.specs.Values.{varbinary_of};

use crate::{Binary, List, Value, ValueRefusal};
use base64::DecodeAllocError;
use base64::engine::general_purpose::STANDARD;
use hex::FromHexError;
use sds_base::NoMemory;
use std::alloc::Global;

/// The bytes that a text reads as under VARBINARY of at most so many bytes.
pub(crate) fn read_binary(
    alloc: Global,
    form: Binary,
    text: &str,
    most: u16,
) -> Result<Value, ValueRefusal>
    ensures { result ≢ Err ValueRefusal.NoMemory → result ≡ varbinary_of most form (chars text.now) }
{
    let Some(bytes) = decode(alloc, form, text)? else {
        return Err(ValueRefusal::BadText);
    };
    if bytes.len() > most as usize {
        return Err(ValueRefusal::TooLong);
    }
    Ok(Value::Bin(List::of(bytes)))
}

/// The bytes that a text stands for.
fn decode(alloc: Global, form: Binary, text: &str) -> Result<Option<Vec<u8>>, NoMemory>
    ensures { IfOk result (λ found. MatchOption found (coded_bytes form text.now ≡ None) (λ bytes. coded_bytes form text.now ≡ Some bytes.items)) }
{
    match form {
        Binary::Base64 => decode_base64(alloc, text),
        Binary::Hex => decode_hex(alloc, text),
        Binary::Plain => Ok(None),
    }
}

fn decode_base64(alloc: Global, text: &str) -> Result<Option<Vec<u8>>, NoMemory>
    ensures { IfOk result (λ found. MatchOption found (coded_bytes forms.Base64 text.now ≡ None) (λ bytes. coded_bytes forms.Base64 text.now ≡ Some bytes.items)) }
{
    match STANDARD.decode(alloc, text.as_bytes()) {
        Ok(bytes) => Ok(Some(bytes)),
        Err(DecodeAllocError::OutOfMemory) => Err(NoMemory),
        Err(DecodeAllocError::DecodeError(_)) => Ok(None),
    }
}

fn decode_hex(alloc: Global, text: &str) -> Result<Option<Vec<u8>>, NoMemory>
    ensures { IfOk result (λ found. MatchOption found (coded_bytes forms.Hex text.now ≡ None) (λ bytes. coded_bytes forms.Hex text.now ≡ Some bytes.items)) }
{
    match hex::decode(alloc, text) {
        Ok(bytes) => Ok(Some(bytes)),
        Err(error) => match error {
            FromHexError::OutOfMemory => Err(NoMemory),
            _ => Ok(None),
        },
    }
}

/// The printed text of bytes.
pub(crate) fn encode(alloc: Global, form: Binary, bytes: &[u8]) -> Result<String, NoMemory>
    ensures { IfOk result (λ text. string_bytes text ≡ coded_text form bytes.now) }
{
    match form {
        Binary::Base64 => Ok(STANDARD.encode(alloc, bytes)?),
        Binary::Hex => Ok(hex::encode(alloc, bytes)?),
        Binary::Plain => Ok(String::new(alloc)),
    }
}
