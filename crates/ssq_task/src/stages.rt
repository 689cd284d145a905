//! The files of an epoch that are written aside.

/// The files aside to which an epoch's rows and its commit are written.
#[derive(Drop)]
pub struct Stages<S> {
    pub rows: S,
    pub commit: S,
}

/// The files of an epoch, whole and on the disk, to be published.
#[derive(Drop)]
pub struct SealedEpoch<F> {
    pub rows: F,
    pub commit: F,
    /// How many rows there are.
    pub count: u64,
}

/// A file aside: it may still be written, or is sealed.
#[derive(Drop)]
pub enum Aside<S, F> {
    Open(S),
    Sealed(F),
}

/// What is left of the files where one of them failed: the disk is to discard it.
#[derive(Drop)]
pub struct Remnant<S, F> {
    pub rows: Aside<S, F>,
    pub commit: S,
}
