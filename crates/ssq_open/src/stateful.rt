//! Which queries keep state, and in how many partitions.

ghost use Rattle.std.specs.Prelude.{◌≡◌};
ghost use Rattle.ssq_open.specs.Stateful.{keeps_state, keeping_in};

use ssq_shape::Shape;

/// What a query keeps from epoch to epoch.
#[derive(Clone, Copy)]
pub enum Keeps {
    /// Nothing.
    Nothing,
    /// A state in each partition.
    EachPartition,
}

/// What a query of this shape keeps.
pub(crate) fn keeps_state(shape: &Shape) -> Keeps
    ensures { result ≡ keeps_state shape.now }
{
    match shape {
        Shape::Group(_) | Shape::Dedup(_) | Shape::Join(_) => Keeps::EachPartition,
        Shape::Plain => Keeps::Nothing,
    }
}

/// How many of so many partitions keep state.
pub(crate) fn keeping_in(keeps: Keeps, partitions: u32) -> u32
    ensures { result ≡ keeping_in keeps partitions }
{
    match keeps {
        Keeps::Nothing => 0,
        Keeps::EachPartition => partitions,
    }
}
