//! The key on which an epoch overflows.

ghost use Rattle.std.specs.Prelude.{◌≡◌, ◌≢◌, Some, None};
ghost use Rattle.ssq_meaning.specs.Group.{lesser_key};
ghost use Rattle.ssq_board.specs.declared.front.Cause.TheVariants as cause;
ghost use Rattle.ssq_desk.specs.Contents.{key_in};

use crate::desk::Share;
use ssq_board::Cause;
use ssq_value::{Row, order_rows};
use std::mem;

/// The lesser of two keys.
fn lesser(key: Row, other: Option<Row>) -> Row
    ensures { result ≡ lesser_key key other }
{
    match other {
        Some(other) => {
            if order_rows(key.as_slice(), other.as_slice()).is_gt() {
                other
            } else {
                key
            }
        }
        None => key,
    }
}

/// Takes the least of the keys that partitions have. It takes no memory.
fn take_least<S: Drop>(shares: &mut [Share<S>]) -> Option<Row>
    ensures { result ≡ key_in shares.old }
{
    let (share, rest) = shares.split_first_mut()?;
    match mem::replace(&mut share.key, None) {
        Some(key) => Some(lesser(key, take_least(rest))),
        None => take_least(rest),
    }
}

/// The key for which a desk was stopped: none where it was not stopped for one.
pub(crate) fn take_key<S: Drop>(stop: Option<Cause>, shares: &mut [Share<S>]) -> Option<Row>
    ensures key { stop ≡ Some cause.KeyOverflow → result ≡ key_in shares.old }
    ensures none { stop ≢ Some cause.KeyOverflow → result ≡ None }
{
    match stop {
        Some(Cause::KeyOverflow) => take_least(shares),
        _ => None,
    }
}
