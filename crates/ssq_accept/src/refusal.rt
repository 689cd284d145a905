//! Why a query file is not run.

ghost use Rattle.std.specs.Prelude.{◌≡◌};
ghost use Rattle.ssq_accept.specs.Refusals.{parse_name, rule_name, mode_name};

use ssq_check::{BindFault, Cause};
use ssq_modes::ModeFault;
use ssq_parse::ParseCause;
use std::fmt;

/// Why a query file is not run: the first of the steps that refuses it. Shown as what is told of it.
#[derive(Clone, Copy, Debug)]
pub enum Refusal {
    /// The file is no query: the first place, in bytes, at which it is none, and what is wrong there.
    Parse { at: usize, cause: ParseCause },
    /// The query breaks a rule of binding: the first of them, with its place in bytes.
    Bind(BindFault),
    /// The query may not run in its mode: the first rule of modes that forbids it.
    Mode(ModeFault),
    NoMemory,
}

fn parse_name(cause: ParseCause) -> &'static str
    ensures { result.now ≡ parse_name cause }
{
    match cause {
        ParseCause::TooLong => "TooLong",
        ParseCause::NotUtf8 => "NotUtf8",
        ParseCause::BadChar => "BadChar",
        ParseCause::BadNumber => "BadNumber",
        ParseCause::Unclosed => "Unclosed",
        ParseCause::BadText => "BadText",
        ParseCause::Expected => "Expected",
        ParseCause::TooDeep => "TooDeep",
    }
}

fn rule_name(cause: Cause) -> &'static str
    ensures { result.now ≡ rule_name cause }
{
    match cause {
        Cause::UnknownName => "UnknownName",
        Cause::DoubleName => "DoubleName",
        Cause::WrongType => "WrongType",
        Cause::BadDivisor => "BadDivisor",
        Cause::NotGrouped => "NotGrouped",
        Cause::AggregateHere => "AggregateHere",
        Cause::TooMany => "TooMany",
        Cause::BadBound => "BadBound",
        Cause::BadWindow => "BadWindow",
        Cause::TwoStateful => "TwoStateful",
        Cause::Distinct => "Distinct",
        Cause::Limit => "Limit",
    }
}

fn mode_name(fault: ModeFault) -> &'static str
    ensures { result.now ≡ mode_name fault }
{
    match fault {
        ModeFault::AppendNeedsWatermark => "AppendNeedsWatermark",
        ModeFault::CompleteNeedsAggregate => "CompleteNeedsAggregate",
        ModeFault::JoinNeedsAppend => "JoinNeedsAppend",
        ModeFault::OuterNeedsBound => "OuterNeedsBound",
        ModeFault::BoundNeedsWatermark => "BoundNeedsWatermark",
        ModeFault::SortNeedsComplete => "SortNeedsComplete",
        ModeFault::HavingInUpdate => "HavingInUpdate",
        ModeFault::KeyNotShown => "KeyNotShown",
    }
}

/// A cause with its place, or a rule of modes.
impl fmt::Display for Refusal {
    ghost use Rattle.std.specs.Prelude.{Some};
    ghost use Rattle.ssq_accept.specs.Refusals.{refusal_text};

    ghost output = { λ refusal. Some (refusal_text refusal) };

    fn fmt<W: fmt::Write>(&self, f: &mut fmt::Formatter<W>) -> fmt::Result {
        match self {
            Refusal::Parse { at, cause } => write!(f, "{} at {at}", parse_name(*cause)),
            Refusal::Bind(fault) => write!(f, "{} at {}", rule_name(fault.cause), fault.at),
            Refusal::Mode(fault) => f.write_str(mode_name(*fault)),
            Refusal::NoMemory => f.write_str("NoMemory"),
        }
    }
}

impl std::error::Error for Refusal {}
