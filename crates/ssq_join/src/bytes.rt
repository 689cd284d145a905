//! The bytes under which rows are kept.

ghost use Rattle.std.specs.Prelude.{◌≡◌, ◌++◌, ◌∷◌, IfOk, OnOk};
ghost use Rattle.ssq_value.specs.Key.{keys_of};
ghost use Rattle.ssq_version.specs.State.{IsShort};
ghost use Rattle.ssq_meaning.specs.Fit.{IsFitRow};
ghost use Rattle.ssq_meaning.specs.Join.{met_byte, row_key, row_value, side_byte};

use ssq_field::{Bytes, put_be32, put_be64};
use ssq_meaning::FedRow;
use ssq_step::short;
use ssq_value::key_bytes;
use std::alloc::{AllocError, Global};

/// How many bytes tell a row's side.
const SIDE: usize = 1;

/// How many bytes tell a row's place: its epoch, its part and its offset.
pub(crate) const PLACE: usize = 16;

fn side_byte(left: bool) -> u8
    ensures { result ≡ side_byte left }
{
    if left { 0 } else { 1 }
}

fn met_byte(met: bool) -> u8
    ensures { result ≡ met_byte met }
{
    if met { 1 } else { 0 }
}

/// Appends what the bytes of each row of a side begin with that has the join key with these bytes.
fn put_prefix(out: &mut Bytes, left: bool, key: &[u8]) -> Result<(), AllocError>
    ensures { OnOk result (out.new ≡ out.old ++ side_byte left ∷ key.now) }
{
    out.extend(&[side_byte(left)])?;
    out.extend(key)
}

/// What the bytes of each row of a side begin with that has the join key with these bytes.
pub(crate) fn prefix_of(alloc: Global, left: bool, key: &[u8]) -> Result<Bytes, AllocError>
    ensures { IfOk result (λ bytes. bytes ≡ side_byte left ∷ key.now) }
{
    let mut bytes = Bytes::with_capacity(alloc, key.len().saturating_add(SIDE))?;
    put_prefix(&mut bytes, left, key)?;
    Ok(bytes)
}

/// The bytes under which a row is kept, by those of its join key.
pub(crate) fn row_key(alloc: Global, row: &FedRow, key: &[u8]) -> Result<Bytes, AllocError>
    requires { key.now ≡ keys_of row.now.key }
    ensures bytes { IfOk result (λ bytes. bytes ≡ row_key row.now) }
    ensures short { IfOk result IsShort }
{
    let mut bytes = Bytes::with_capacity(alloc, key.len().saturating_add(SIDE + PLACE))?;
    put_prefix(&mut bytes, row.stream() == 0, key)?;
    put_be32(&mut bytes, row.epoch())?;
    put_be32(&mut bytes, row.part())?;
    put_be64(&mut bytes, row.offset())?;
    short(bytes)
}

/// What is kept of a row.
pub(crate) fn row_value(alloc: Global, met: bool, row: &FedRow) -> Result<Bytes, AllocError>
    requires { IsFitRow row.now }
    ensures bytes { IfOk result (λ bytes. bytes ≡ row_value met row.now) }
    ensures short { IfOk result IsShort }
{
    let mut bytes = key_bytes(alloc, row.values())?;
    // A push by itself would double the room.
    bytes.reserve_exact(1)?;
    bytes.push(met_byte(met))?;
    short(Bytes::from_vec(bytes))
}
