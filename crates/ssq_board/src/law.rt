//! What holds of every list of entries.

ghost use Rattle.ssq_board.specs.Laws.{EntryKeepsSound, FirstIsSound, FirstShelf, FirstShows, FollowsMachine, ReadyNames, RoomIsKept, SoundAndTold, StopsByTheFirst, TurnsFall, TurnsRest};

use ssq_outside::{Disk, Log};

/// The law of one entry: it keeps what is so of a desk, spends of the room that was kept for it, and is what `Desk::ready` names. Each
/// turn of a round on one thread leaves less to do, and never leaves it idle.
pub fn entry<D: Disk>()
    ensures begins { FirstIsSound }
    ensures kept { EntryKeepsSound }
    ensures stops { StopsByTheFirst }
    ensures next { ReadyNames }
    ensures room { RoomIsKept }
    ensures falls { TurnsFall }
    ensures rests { TurnsRest }
{}

/// The law of every list of entries that came: it is a legal list of events of the machine, and tells what it acknowledged. What is
/// said of contents holds where disk and logs tell them.
pub fn entries<D: Disk, L: Log>()
    ensures first { FirstShows }
    ensures shelf { FirstShelf }
    ensures legal { FollowsMachine (D.tells × L.tells) }
    ensures told { SoundAndTold (D.tells × L.tells) }
{}
