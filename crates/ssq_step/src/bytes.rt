//! The bytes under which a state keeps keys.

ghost use Rattle.std.specs.Prelude.{◌≡◌, All, IfOk};
ghost use Rattle.ssq_value.specs.Key.{keys_of};
ghost use Rattle.ssq_version.specs.State.{IsShort};
ghost use Rattle.ssq_meaning.specs.Fit.{IsFit};

use ssq_field::Bytes;
use ssq_value::{Value, key_bytes};
use std::alloc::{AllocError, Global};

/// The bytes, where they are fewer than 2^32, as a state holds. Else they count as too many for the memory.
pub fn short(bytes: Bytes) -> Result<Bytes, AllocError>
    ensures bytes { IfOk result (λ short. short ≡ bytes) }
    ensures short { IfOk result IsShort }
{
    if bytes.len() <= u32::MAX as usize {
        Ok(bytes)
    } else {
        Err(AllocError)
    }
}

/// The bytes under which a key is kept.
pub fn bytes_of_key(alloc: Global, key: &[Value]) -> Result<Bytes, AllocError>
    requires { All IsFit key.now }
    ensures bytes { IfOk result (λ bytes. bytes ≡ keys_of key.now) }
    ensures short { IfOk result IsShort }
{
    short(Bytes::from_vec(key_bytes(alloc, key)?))
}
