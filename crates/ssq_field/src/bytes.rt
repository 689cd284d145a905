//! Bytes, as contracts see them: a list of numbers.

ghost use Rattle.std.specs.Prelude.{◌≡◌, ◌==◌, ◌+◌, ◌≤◌, [], ◌++◌, length, take, true, false, IfOk, OnOk, OnErr};
ghost use Rattle.std.specs.Ordering.{nat_cmp};
ghost use Rattle.std.specs.Cmp.Lexicographic.{slice_cmp};
ghost use Rattle.ssq_field.specs.Kept.{bytes_in};

use std::alloc::{AllocError, Global};
use std::cmp::Ordering;
use std::fmt;
use std::hash::{Hash, Hasher};
use std::marker::Model;

/// How many bytes stand in the value itself, which takes 40 with them.
const FEW: usize = 38;

/// Bytes that grow. A few stand in the value itself, so that a short key is compared where it lies, and takes no memory of its own.
pub struct Bytes {
    alloc: Global,
    kept: Kept,
}

/// Where the bytes stand.
#[derive(Drop)]
enum Kept {
    Few(Few),
    Many(Vec<u8>),
}

/// At most 38 bytes: the first `len` of all.
#[derive(Drop)]
struct Few {
    len: u8,
    all: [u8; FEW],
}

impl Model for Bytes {
    ghost use Rattle.std.specs.Prelude.{List, ℕ};

    ghost Value = { List ℕ };

    ghost use Rattle.ssq_field.specs.Kept.{bytes_in};

    ghost view = { λ bytes. bytes_in bytes.kept };
}

impl Model for Few {
    ghost use Rattle.std.specs.Prelude.{◌≤◌, List, ℕ, take};

    ghost Value = { List ℕ };

    ghost view = { λ few. take few.len few.all };

    ghost invariant = { λ few. few.len ≤ 38 };
}

/// Whoever lets bytes go proves one call, and not a step for each place where they may stand.
impl Drop for Bytes {
    fn drop(self) {
        let Bytes { alloc: _, kept: _ } = self;
    }
}

/// Writes the bytes after the first `len`.
fn put_behind(few: &mut [u8; FEW], len: usize, bytes: &[u8])
    requires { len + length bytes.now ≤ 38 }
    ensures { take (len + length bytes.now) few.new ≡ take len few.old ++ bytes.now }
{
    few[len..len + bytes.len()].copy_from_slice(bytes);
}

/// Both, one after the other.
fn joined(alloc: Global, front: &[u8], bytes: &[u8]) -> Result<Vec<u8>, AllocError>
    ensures { IfOk result (λ made. made.items ≡ front.now ++ bytes.now) }
{
    let mut made = Vec::with_capacity(alloc, front.len() + bytes.len())?;
    made.extend_from_slice(front)?;
    made.extend_from_slice(bytes)?;
    Ok(made)
}

/// Which bytes come first, by eight at a time, which are in the order of the numbers that they spell.
fn order(left: &[u8], right: &[u8]) -> Ordering
    ensures { result ≡ slice_cmp nat_cmp left.now right.now }
{
    let (mut left, mut right) = (left, right);
    while let (Some((front, rest)), Some((other_front, other_rest))) = (
        left.split_first_chunk::<8>(),
        right.split_first_chunk::<8>(),
    ) {
        let first = u64::from_be_bytes(*front).cmp(&u64::from_be_bytes(*other_front));
        if first.is_ne() {
            return first;
        }
        (left, right) = (rest, other_rest);
    }
    left.cmp(&right)
}

impl Few {
    fn new() -> Few
        ensures { result ≡ [] }
    {
        Few {
            len: 0,
            all: [0; FEW],
        }
    }

    fn as_slice(&self) -> &[u8]
        ensures { result.now ≡ self.now }
    {
        &self.all[..self.len as usize]
    }

    /// Appends a copy of the bytes, where there is room for it.
    fn extend(&mut self, bytes: &[u8]) -> bool
        ensures there { result ≡ true → self.new ≡ self.old ++ bytes.now }
        ensures no_room { result ≡ false → self.new ≡ self.old }
    {
        let len = self.len as usize;
        let fits = bytes.len() <= FEW - len;
        if fits {
            put_behind(&mut self.all, len, bytes);
            self.len = (len + bytes.len()) as u8;
        }
        fits
    }

    /// Keeps the first `len` bytes.
    fn truncate(&mut self, len: usize)
        ensures { self.new ≡ take len self.old }
    {
        if len < self.len as usize {
            self.len = len as u8;
        }
    }
}

impl Kept {
    /// Appends a copy of the bytes. An `Err` changes nothing.
    fn extend(&mut self, alloc: Global, bytes: &[u8]) -> Result<(), AllocError>
        ensures ok { OnOk result (bytes_in self.new ≡ bytes_in self.old ++ bytes.now) }
        ensures err { OnErr result (bytes_in self.new ≡ bytes_in self.old) }
    {
        match self {
            Kept::Few(few) => {
                if !few.extend(bytes) {
                    *self = Kept::Many(joined(alloc, few.as_slice(), bytes)?);
                }
                Ok(())
            }
            Kept::Many(many) => many.extend_from_slice(bytes),
        }
    }

    /// Keeps the first `len` bytes, and the memory of all.
    fn truncate(&mut self, len: usize)
        ensures { bytes_in self.new ≡ take len (bytes_in self.old) }
    {
        match self {
            Kept::Few(few) => few.truncate(len),
            Kept::Many(many) => many.truncate(len),
        }
    }
}

/// Copies the bytes.
fn kept_of(alloc: Global, bytes: &[u8]) -> Result<Kept, AllocError>
    ensures { IfOk result (λ made. bytes_in made ≡ bytes.now) }
{
    let mut few = Few::new();
    if few.extend(bytes) {
        return Ok(Kept::Few(few));
    }
    Ok(Kept::Many(Vec::from_slice(alloc, bytes)?))
}

impl Bytes {
    /// No bytes.
    pub fn new(alloc: Global) -> Bytes
        ensures { result ≡ [] }
    {
        Bytes {
            alloc,
            kept: Kept::Few(Few::new()),
        }
    }

    /// No bytes, with room for so many.
    pub fn with_capacity(alloc: Global, room: usize) -> Result<Bytes, AllocError>
        ensures { IfOk result (λ made. made ≡ []) }
    {
        if room <= FEW {
            return Ok(Bytes::new(alloc));
        }
        let many = Vec::with_capacity(alloc, room)?;
        Ok(Bytes {
            alloc,
            kept: Kept::Many(many),
        })
    }

    /// Copies the bytes.
    pub fn from_slice(alloc: Global, bytes: &[u8]) -> Result<Bytes, AllocError>
        ensures { IfOk result (λ made. made ≡ bytes.now) }
    {
        let kept = kept_of(alloc, bytes)?;
        Ok(Bytes { alloc, kept })
    }

    /// Takes the bytes over: many without a copy, a few into the value itself.
    pub fn from_vec(bytes: Vec<u8>) -> Bytes
        ensures { result ≡ bytes.items }
    {
        let alloc = *bytes.allocator();
        let mut few = Few::new();
        let kept = if few.extend(bytes.as_slice()) {
            Kept::Few(few)
        } else {
            Kept::Many(bytes)
        };
        Bytes { alloc, kept }
    }

    pub fn as_slice(&self) -> &[u8]
        ensures { result.now ≡ self.now }
    {
        match &self.kept {
            Kept::Few(few) => few.as_slice(),
            Kept::Many(many) => many.as_slice(),
        }
    }

    pub fn len(&self) -> usize
        ensures { result ≡ length self.now }
    {
        self.as_slice().len()
    }

    pub fn is_empty(&self) -> bool
        ensures { result ≡ (length self.now == 0) }
    {
        self.as_slice().is_empty()
    }

    /// Appends a copy of the bytes. An `Err` changes nothing.
    pub fn extend(&mut self, bytes: &[u8]) -> Result<(), AllocError>
        ensures ok { OnOk result (self.new ≡ self.old ++ bytes.now) }
        ensures err { OnErr result (self.new ≡ self.old) }
    {
        self.kept.extend(self.alloc, bytes)
    }

    /// Keeps the first `len` bytes, and the memory of all.
    pub fn truncate(&mut self, len: usize)
        ensures { self.new ≡ take len self.old }
    {
        self.kept.truncate(len)
    }
}

impl fmt::Debug for Bytes {
    fn fmt<W: fmt::Write>(&self, f: &mut fmt::Formatter<W>) -> fmt::Result {
        f.debug_list().entries(self.as_slice()).finish()
    }
}

/// A copy of its own.
impl Clone for Bytes {
    ghost is_clone = { λ old new. new ≡ old };

    fn clone(&self) -> Result<Bytes, AllocError> {
        Bytes::from_slice(self.alloc, self.as_slice())
    }
}

impl PartialEq for Bytes {
    ghost use Rattle.std.specs.Prelude.{nat_eq};
    ghost use Rattle.std.specs.Cmp.{partial_equiv_from_equiv};
    ghost use Rattle.std.specs.Cmp.Lexicographic.{pointwise, nat_list_eq_equiv};

    ghost eq = { pointwise nat_eq };

    ghost laws = { partial_equiv_from_equiv nat_list_eq_equiv };

    fn eq(&self, other: &Bytes) -> bool {
        self.as_slice() == other.as_slice()
    }
}

impl Eq for Bytes {
    ghost use Rattle.std.specs.Cmp.Lexicographic.{nat_list_eq_equiv};

    ghost laws = { nat_list_eq_equiv };
}

/// By the first byte that differs, and bytes before what they begin.
impl PartialOrd for Bytes {
    ghost use Rattle.std.specs.Ordering.{as_partial_cmp, nat_cmp};
    ghost use Rattle.std.specs.Cmp.{po};
    ghost use Rattle.std.specs.Cmp.Lexicographic.{slice_cmp, nat_list_cmp_total, texts_ties};

    ghost partial_cmp = { as_partial_cmp (slice_cmp nat_cmp) };

    ghost laws = { po nat_list_cmp_total texts_ties };

    fn partial_cmp(&self, other: &Bytes) -> Option<Ordering> {
        Some(self.cmp(other))
    }
}

/// By the first byte that differs, and bytes before what they begin.
impl Ord for Bytes {
    ghost use Rattle.std.proofs.Common.{refl};
    ghost use Rattle.std.specs.Ordering.{nat_cmp};
    ghost use Rattle.std.specs.Cmp.Lexicographic.{slice_cmp, nat_list_cmp_total, texts_ties};

    ghost cmp = { slice_cmp nat_cmp };

    ghost total = { nat_list_cmp_total };

    ghost matches_partial_cmp = { λ left right. refl };

    ghost matches_eq = { texts_ties };

    fn cmp(&self, other: &Bytes) -> Ordering {
        order(self.as_slice(), other.as_slice())
    }
}

/// As a slice of the bytes.
impl Hash for Bytes {
    ghost use Rattle.std.proofs.Common.{ap};
    ghost use Rattle.std.specs.Cmp.Lexicographic.{bytes_decides};
    ghost use Rattle.std.specs.Hash as fed;

    ghost hash_input = { fed.slice fed.u8 };

    ghost respects_eq = { λ one other same. ap (fed.slice fed.u8) ((bytes_decides one other).0 same) };

    fn hash<H: Hasher>(&self, state: &mut H) {
        self.as_slice().hash(state);
    }
}
