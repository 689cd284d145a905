//! The query whose rows are fed.

use ssq_meaning::KeyPlace;
use ssq_shape::Bound;
use ssq_value::Schema;

/// The query, with what is found once for all lines of a part.
#[derive(Clone, Copy)]
pub(crate) struct Query<'a> {
    pub(crate) bound: &'a Bound,
    /// The columns of the stream.
    pub(crate) schema: &'a Schema,
    /// Where the time of the query's keys stands in them.
    pub(crate) place: Option<KeyPlace>,
}
