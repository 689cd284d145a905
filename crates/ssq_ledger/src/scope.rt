//! What a round has before it, and where it begins.

use ssq_plans::PartEnd;
use std::marker::Model;

/// What a round has before it.
#[derive(Drop)]
pub struct Scope {
    /// How many partitions there are.
    pub partitions: u32,
    /// How many lines each part was found to have.
    pub available: Vec<u64>,
    /// How many lines of a part an epoch may take.
    pub cap: Option<u64>,
}

impl Model for Scope {
    ghost use Rattle.ssq_board.specs.Core.{Scope};

    ghost Value = { Scope };

    ghost view = { λ s. record { partitions = s.partitions; available = s.available.items; cap = s.cap } };
}

/// Where a round begins.
#[derive(Drop)]
pub struct Start {
    /// How many epochs are committed.
    pub committed: u32,
    /// One more is planned.
    pub is_planned: bool,
    /// Where the lines of the committed epochs end.
    pub from: Vec<PartEnd>,
    /// Where the lines of the planned epochs end.
    pub to: Vec<PartEnd>,
    /// An epoch without lines is due.
    pub due: bool,
}

impl Model for Start {
    ghost use Rattle.ssq_board.specs.Shown.{Start};

    ghost Value = { Start };

    ghost view = { λ s. record { committed = s.committed; is_planned = s.is_planned; from = s.from.items; to = s.to.items; due = s.due } };
}
