//! The partition of a key: FNV-1a of 64 bits, modulo the number of partitions.

ghost use Rattle.std.specs.Prelude.{◌≤◌, ◌≡◌, ◌<◌};
ghost use Rattle.ssq_route.specs.Place.{fnv_1a, place_of};

/// The hash of no bytes, as Fowler, Noll and Vo give it for 64 bits.
const BASIS: u64 = 14695981039346656037;

/// The prime of 64 bits.
const PRIME: u64 = 1099511628211;

/// The partition of a key, from 0 to below `partitions`, by the FNV-1a hash of its bytes.
pub fn place(key: &[u8], partitions: u32) -> u32
    requires { 1 ≤ partitions }
    ensures place { result ≡ place_of key.now partitions }
    ensures below { result < partitions }
{
    (hash(key) % u64::from(partitions)) as u32
}

#[tactic(auto, unfolding(crate::specs::Place::fnv_1a))]
fn hash(key: &[u8]) -> u64
    ensures { result ≡ fnv_1a key.now }
{
    let mut hash = BASIS;
    for byte in key {
        hash = (hash ^ u64::from(*byte)).wrapping_mul(PRIME);
    }
    hash
}
