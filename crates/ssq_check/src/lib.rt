//! What binding asks of a query: the types of its expressions, and the first of the rules that it breaks.
//!
//! The definitions stand in `specs/`: `Fault` says which of several faults is told, `Scope` what a name means, `Rules`
//! which types operators ask for, `Broken` what is wrong in an expression, `Lists` what is wrong in a list, `Names` which
//! names a query may use, `Shown` which aggregates it shows, `Joined` what ON is made of, `Clauses` what is wrong in each
//! clause, `Whole` what is wrong in a query, and `Sound` what holds of one in which nothing is wrong. The others speak of
//! the code's own steps.
#![tactic(auto)]

mod clause;
mod columns;
mod each;
mod expr;
mod fault;
mod item;
mod joined;
mod keys;
mod list;
mod names;
mod scope;
mod shown;
mod stream;
mod tally;
mod whole;

pub use clause::slide_of;
pub use columns::{Columns, spot_at};
pub use expr::check_expr;
pub use fault::{BindFault, Cause, Refusal};
pub use joined::{bare_column, column_spot, looked, spot_in, spot_of};
pub use keys::Keys;
pub use list::item_name;
pub use names::{column_of, declared_spot, left_stream, list_of, right_stream, scope_of};
pub use scope::{Key, Scope, Side, Source, Spot, Within, bare_spot, is_window_name};
pub use shown::{is_group, within};
pub use whole::{check, small_values, types_stay};
