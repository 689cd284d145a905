//! What a round's desk was made of, as contracts see it.

use ssq_ledger::Opening;
use ssq_meaning::View;
use ssq_open::Opened;
use ssq_outside::Log;

/// What was opened, and the logs that the round reads.
#[derive(Drop)]
pub struct Round<'a, L: Log> {
    pub view: View<'a>,
    pub opened: Opened,
    /// One log for each part, in order.
    pub logs: Vec<L>,
}

impl<'a, L: Log> Opening for Round<'a, L> {
    ghost use Rattle.ssq_desk.specs.Round.{OwnsRound, opening_of, setting_of};

    ghost tells = { OwnsRound L.tells L.lines };

    ghost opening = { λ round. opening_of (setting_of L.lines round) round.opened };
}
