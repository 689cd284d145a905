//! Faults of a query, and which of two comes first.

ghost use Rattle.std.specs.Prelude.{◌≡◌, true, false};
ghost use Rattle.ssq_check.specs.Fault.{rank, precedes, earlier, sooner, both, FirstOf};
ghost use Rattle.ssq_check.specs.Broken.{Rule, Told};
ghost use Rattle.ssq_check.specs.Lists.{fault_in};

use thiserror::Error;

/// A rule of binding that is broken. Of two at one place the one that stands first here is told.
#[derive(Clone, Copy, Debug)]
pub enum Cause {
    /// A name stands for nothing.
    UnknownName,
    /// A name is given twice, or stands for two columns.
    DoubleName,
    /// An operand, a condition or a column has another type than its place takes.
    WrongType,
    /// What DIV or % divides by is no number other than 0.
    BadDivisor,
    /// A column of a query with groups is no group column and stands in no aggregate, or HAVING stands without groups.
    NotGrouped,
    /// An aggregate stands in WHERE, in ON or in an aggregate.
    AggregateHere,
    /// There is one more of its kind than there may be.
    TooMany,
    /// A BETWEEN among the ANDs of ON is no bound on the times of both streams, or the second one.
    BadBound,
    /// The slide of a window is above its size, or it is the second window.
    BadWindow,
    /// Two of JOIN, DEDUPLICATE and groups stand in one query.
    TwoStateful,
    /// DISTINCT is read, and never taken.
    Distinct,
    /// LIMIT is read, and never taken.
    Limit,
}

/// A rule that is broken, and where.
#[derive(Clone, Copy, Debug)]
pub struct BindFault {
    /// The place of the token at which it is told: of its first byte, counted from 0.
    pub at: usize,
    pub cause: Cause,
}

/// Why a query is not bound.
#[derive(Clone, Copy, Debug, Error)]
pub enum Refusal {
    /// The first of the rules that it breaks.
    #[error("a rule is broken")]
    Broken(BindFault),
    #[error("out of memory")]
    NoMemory,
}

fn rank(cause: Cause) -> u8
    ensures { result ≡ rank cause }
{
    match cause {
        Cause::UnknownName => 0,
        Cause::DoubleName => 1,
        Cause::WrongType => 2,
        Cause::BadDivisor => 3,
        Cause::NotGrouped => 4,
        Cause::AggregateHere => 5,
        Cause::TooMany => 6,
        Cause::BadBound => 7,
        Cause::BadWindow => 8,
        Cause::TwoStateful => 9,
        Cause::Distinct => 10,
        Cause::Limit => 11,
    }
}

fn precedes(left: BindFault, right: BindFault) -> bool
    ensures { result ≡ precedes left right }
{
    left.at < right.at || (left.at == right.at && rank(left.cause) < rank(right.cause))
}

/// The one of two faults that comes first.
pub(crate) fn earlier(left: BindFault, right: BindFault) -> BindFault
    ensures { result ≡ earlier left right }
{
    if precedes(right, left) { right } else { left }
}

/// The first of two faults, where there are any.
pub(crate) fn sooner(left: Option<BindFault>, right: Option<BindFault>) -> Option<BindFault>
    ensures { result ≡ sooner left right }
{
    match (left, right) {
        (None, right) => right,
        (Some(left), None) => Some(left),
        (Some(left), Some(right)) => Some(earlier(left, right)),
    }
}

/// A rule, and whether it is broken.
#[tactic(auto, using(crate::proofs::Nodes::first_rule, crate::proofs::Nodes::no_rule))]
pub(crate) fn rule(cause: Cause, at: usize, is_broken: bool) -> Option<BindFault>
    ensures { FirstOf (Rule cause at (is_broken ≡ true)) result }
{
    if is_broken {
        Some(BindFault { at, cause })
    } else {
        None
    }
}

/// A rule, and whether what it asks for holds.
#[tactic(auto, using(crate::proofs::Nodes::first_rule, crate::proofs::Nodes::no_rule))]
pub(crate) fn unless(cause: Cause, at: usize, holds: bool) -> Option<BindFault>
    ensures { FirstOf (Rule cause at (holds ≡ false)) result }
{
    if holds {
        None
    } else {
        Some(BindFault { at, cause })
    }
}

/// What is wrong with what was looked up or typed.
#[tactic(auto, using(crate::proofs::Nodes::first_told))]
pub(crate) fn fault_in<A: Copy>(found: Result<A, BindFault>) -> Option<BindFault>
    ensures first { FirstOf (Told found) result }
    ensures is { result ≡ fault_in found }
{
    match found {
        Ok(_) => None,
        Err(fault) => Some(fault),
    }
}

/// Two parts: both values, or the first of the faults.
pub(crate) fn both<A: Copy, B: Copy>(
    left: Result<A, BindFault>,
    right: Result<B, BindFault>,
) -> Result<(A, B), BindFault>
    ensures { result ≡ both left right }
{
    match (left, right) {
        (Ok(left), Ok(right)) => Ok((left, right)),
        (Ok(_), Err(fault)) => Err(fault),
        (Err(fault), Ok(_)) => Err(fault),
        (Err(left), Err(right)) => Err(earlier(left, right)),
    }
}
