// Bytes, as a field of a line writes them.
ghost use Rattle.std.specs.Prelude.{◌≡◌, MatchResult};
ghost use Rattle.vectors.specs.Days.{Unwritten, Writes};
ghost use Rattle.vectors.specs.Faults.{fault_of};
ghost use Rattle.vectors.specs.declared.hex_field.Fault.TheVariants.{Memory};

use hex::FromHexError;
use std::alloc::{AllocError, Global};

// Why a line gives no day.
#[derive(Clone, Copy, PartialEq, Eq, Debug)]
pub enum Fault {
    // it has fewer than three tabs
    FewFields,
    // one of its first three fields writes no bytes
    NotHex,
    // memory gave out
    Memory,
}

impl From<AllocError> for Fault {
    ghost from_gives = { λ _ fault. fault ≡ Memory };

    fn from(_error: AllocError) -> Fault {
        Fault::Memory
    }
}

// Why no bytes come of hex digits.
fn why(error: FromHexError) -> Fault
    ensures { result ≡ fault_of error }
{
    match error {
        FromHexError::OutOfMemory => Fault::Memory,
        FromHexError::OddLength
        | FromHexError::InvalidStringLength
        | FromHexError::InvalidHexCharacter { .. } => Fault::NotHex,
    }
}

// The bytes that a field writes: by two hex digits each, or none by a `-` alone.
pub fn field_bytes(heap: Global, field: &str) -> Result<Vec<u8>, Fault>
    ensures { MatchResult result (λ bytes. Writes field.now bytes.items) (Unwritten field.now) }
{
    if field == "-" {
        return Ok(Vec::new(heap));
    }
    match hex::decode(heap, field) {
        Ok(bytes) => Ok(bytes),
        Err(error) => Err(why(error)),
    }
}
