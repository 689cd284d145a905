//! Numbers of 4, 8 and 16 bytes, the highest byte first. Any bytes may follow them.

ghost use Rattle.std.specs.Prelude.{◌≡◌, ℕ, ◌+◌, ◌^◌, ◌<◌, ◌≤◌, ◌++◌, length, IfSome, OnOk, OnErr};
ghost use Rattle.std.specs.Int.{w32, w64, to_be_bytes};
ghost use Rattle.ssq_field.specs.Field.{BeginsWith, FindsEach, Anything, Fits32, Fits64, Fits128, twos_complement};

use crate::bytes::Bytes;
use std::alloc::AllocError;

/// Appends a number in four bytes. An `Err` changes nothing.
pub fn put_be32(out: &mut Bytes, number: u32) -> Result<(), AllocError>
    ensures ok { OnOk result (out.new ≡ out.old ++ to_be_bytes w32 number) }
    ensures err { OnErr result (out.new ≡ out.old) }
{
    out.extend(&number.to_be_bytes())
}

/// Appends a number in eight bytes. An `Err` changes nothing.
pub fn put_be64(out: &mut Bytes, number: u64) -> Result<(), AllocError>
    ensures ok { OnOk result (out.new ≡ out.old ++ to_be_bytes w64 number) }
    ensures err { OnErr result (out.new ≡ out.old) }
{
    out.extend(&number.to_be_bytes())
}

/// Appends a number in sixteen bytes, by two's complement. An `Err` changes nothing.
pub fn put_be128(out: &mut Bytes, number: i128) -> Result<(), AllocError>
    ensures ok { OnOk result (out.new ≡ out.old ++ twos_complement number) }
    ensures err { OnErr result (out.new ≡ out.old) }
{
    out.extend(&number.cast_unsigned().to_be_bytes())
}

/// The number in the first four bytes, and how many bytes it takes. None where there are fewer bytes.
pub fn take_be32(from: &[u8]) -> Option<(u32, usize)>
    ensures found { IfSome result (λ field. BeginsWith (to_be_bytes w32) Anything from.now field.0 field.1) }
    ensures within { IfSome result (λ field. field.1 ≤ length from.now) }
    ensures each { FindsEach (to_be_bytes w32) Fits32 Anything from.now result }
{
    let (bytes, _) = from.split_first_chunk::<4>()?;
    Some((u32::from_be_bytes(*bytes), 4))
}

/// The number in the first eight bytes, and how many bytes it takes. None where there are fewer bytes.
pub fn take_be64(from: &[u8]) -> Option<(u64, usize)>
    ensures found { IfSome result (λ field. BeginsWith (to_be_bytes w64) Anything from.now field.0 field.1) }
    ensures within { IfSome result (λ field. field.1 ≤ length from.now) }
    ensures each { FindsEach (to_be_bytes w64) Fits64 Anything from.now result }
{
    let (bytes, _) = from.split_first_chunk::<8>()?;
    Some((u64::from_be_bytes(*bytes), 8))
}

/// The number in the first sixteen bytes, by two's complement, and how many bytes it takes. None where
/// there are fewer bytes.
pub fn take_be128(from: &[u8]) -> Option<(i128, usize)>
    ensures found { IfSome result (λ field. BeginsWith twos_complement Anything from.now field.0 field.1) }
    ensures within { IfSome result (λ field. field.1 ≤ length from.now) }
    ensures each { FindsEach twos_complement Fits128 Anything from.now result }
{
    let (bytes, _) = from.split_first_chunk::<16>()?;
    Some((u128::from_be_bytes(*bytes).cast_signed(), 16))
}
