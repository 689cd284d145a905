//! Laws of bound queries.

ghost use Rattle.ssq_bind.specs.Delays.{DelaysAreSpans};
ghost use Rattle.ssq_bind.specs.Limits.{GroupsAreLimited};
ghost use Rattle.ssq_bind.specs.Places.{PlacesAreIgnored};
ghost use Rattle.ssq_bind.specs.Read.{QueriesReadTheirStreams};
ghost use Rattle.ssq_bind.specs.TimeBounds.{TimeBoundsLieAround};
ghost use Rattle.ssq_bind.specs.Timed.{EventsHaveDelays};
ghost use Rattle.ssq_bind.specs.Typed.{RowsAreTyped, QueriesAreTyped};
ghost use Rattle.ssq_bind.specs.Windows.{WindowsAreFit};

/// The law of types: an expression on rows that has a type has the same type once it is bound.
pub fn rows_are_typed()
    ensures { RowsAreTyped }
{}

/// The law of types of a query: once a query that breaks no rule of binding is bound, WHERE is BOOLEAN over the rows that it reads,
/// each output has its type over them or over groups, and ORDER BY names outputs. Of groups what rows are grouped by and each
/// aggregate has a type, and HAVING is BOOLEAN over them.
pub fn queries_are_typed()
    ensures { QueriesAreTyped }
{}

/// The law of streams: a query that breaks no rule of binding reads two streams where it joins, and else one.
pub fn queries_read_their_streams()
    ensures { QueriesReadTheirStreams }
{}

/// The law of event columns: a stream without a watermark has no delay and no event column.
pub fn events_have_delays()
    ensures { EventsHaveDelays }
{}

/// The law of delays: a query that was read from tokens reads streams whose delays are 1 second to 366 days long.
pub fn delays_are_spans()
    ensures { DelaysAreSpans }
{}

/// The law of windows: a query that was read from tokens and breaks no rule of binding groups its rows by at most one
/// window, whose size and slide are 1 second to 366 days long, and whose size is one to 64 slides.
pub fn windows_are_fit()
    ensures { WindowsAreFit }
{}

/// The law of limits: a query that breaks no rule of binding has at most 64 parts in GROUP BY, 64 columns in DEDUPLICATE and 64
/// key equalities in ON, and SELECT and HAVING have at most 64 aggregates together.
pub fn groups_are_limited()
    ensures { GroupsAreLimited }
{}

/// The law of bounds: a query that was read from tokens and breaks no rule of binding joins rows by a bound, if it has one, whose
/// lower side is not above the left row's time, and whose upper side is not below it.
pub fn time_bounds_lie_around()
    ensures { TimeBoundsLieAround }
{}

/// The law of places: queries that are the same, places aside, are bound to the same bound query.
pub fn places_are_ignored()
    ensures { PlacesAreIgnored }
{}
