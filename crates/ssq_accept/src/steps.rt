//! The steps from the bytes of a query file to the query as it is run.

ghost use Rattle.std.specs.Prelude.{◌≡◌, IfOk, IfErr, OnOk};
ghost use Rattle.ssq_accept.specs.Accepting.{IsRead, IsNoQuery, IsBoundAs, IsUnbound, MayRun, MayNotRun, IsAccepted, IsRefused, IsAllowed, IsNotAllowed, AcceptedAreTaken, AreRefusedAlike};

use crate::refusal::Refusal;
use ssq_ast::Query;
use ssq_bind::bind;
use ssq_parse::{ParseFault, parse};
use ssq_shape::Bound;
use std::alloc::Global;

/// A query file that can be run.
#[derive(Drop)]
pub struct Accepted {
    /// The query that the file is.
    pub query: Query,
    /// The same with its names bound.
    pub bound: Bound,
}

impl Accepted {
    /// The query with its names bound, alone.
    pub fn into_bound(self) -> Bound
        ensures { result ≡ self.bound }
    {
        let Accepted { query, bound } = self;
        drop(query);
        bound
    }
}

fn read(alloc: Global, bytes: &[u8]) -> Result<Query, Refusal>
    ensures read { IfOk result (IsRead bytes.now) }
    ensures refused { IfErr result (IsNoQuery bytes.now) }
{
    match parse(alloc, bytes) {
        Ok(query) => Ok(query),
        Err(ParseFault::Refused { at, cause }) => Err(Refusal::Parse { at, cause }),
        Err(ParseFault::NoMemory) => Err(Refusal::NoMemory),
    }
}

fn bound(alloc: Global, query: &Query) -> Result<Bound, Refusal>
    ensures bound { IfOk result (IsBoundAs query.now) }
    ensures refused { IfErr result (IsUnbound query.now) }
{
    match bind(alloc, query) {
        Ok(bound) => Ok(bound),
        Err(ssq_check::Refusal::Broken(fault)) => Err(Refusal::Bind(fault)),
        Err(ssq_check::Refusal::NoMemory) => Err(Refusal::NoMemory),
    }
}

fn may_run(bound: &Bound) -> Result<(), Refusal>
    ensures taken { OnOk result (MayRun bound.now) }
    ensures refused { IfErr result (MayNotRun bound.now) }
{
    match ssq_modes::check(bound) {
        Ok(()) => Ok(()),
        Err(fault) => Err(Refusal::Mode(fault)),
    }
}

#[tactic(auto, using(crate::proofs::Refused::names_forbid, crate::proofs::Refused::mode_forbids))]
fn allowed(alloc: Global, query: &Query) -> Result<Bound, Refusal>
    ensures allowed { IfOk result (IsAllowed query.now) }
    ensures refused { IfErr result (IsNotAllowed query.now) }
{
    let bound = bound(alloc, query)?;
    match may_run(&bound) {
        Ok(()) => Ok(bound),
        Err(refusal) => {
            drop(bound);
            Err(refusal)
        }
    }
}

/// The query that a file is, bound, where it can be run: it is written by the grammar, breaks no rule of binding, and may run
/// in its mode.
///
/// # Errors
///
/// The first of these steps that refuses it, where all steps before it take it: [`Refusal::Parse`] where the file is no
/// query, [`Refusal::Bind`] where the query breaks a rule of binding, [`Refusal::Mode`] where it may not run in its mode.
/// [`Refusal::NoMemory`] comes only where memory ran out.
#[tactic(auto, using(crate::proofs::Refused::no_query, crate::proofs::Refused::query_refused, crate::proofs::Refused::is_accepted))]
pub fn accept(alloc: Global, bytes: &[u8]) -> Result<Accepted, Refusal>
    ensures accepted { IfOk result (λ accepted. IsAccepted bytes.now accepted.query accepted.bound) }
    ensures refused { IfErr result (IsRefused bytes.now) }
{
    let query = read(alloc, bytes)?;
    match allowed(alloc, &query) {
        Ok(bound) => Ok(Accepted { query, bound }),
        Err(refusal) => {
            drop(query);
            Err(refusal)
        }
    }
}

/// The law of answers: a file that is accepted is never refused but where memory ran out, and each file is refused in one way.
pub fn files_have_one_answer()
    ensures accepted { AcceptedAreTaken }
    ensures refused { AreRefusedAlike }
{}
