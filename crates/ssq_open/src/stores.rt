//! The stores of the partitions that keep state.

ghost use Rattle.std.specs.Prelude.{◌≡◌, ◌≤◌, ◌+◌, IfOk, IfErr, OnOk};
ghost use Rattle.ssq_outside.specs.History.{files_now};
ghost use Rattle.ssq_store.specs.Fault.{DiskRises as StoreRises};
ghost use Rattle.ssq_store.specs.Loaded.{Makes, Refuses, count_to};
ghost use Rattle.ssq_open.specs.Fault.{DiskRises};
ghost use Rattle.ssq_open.specs.Stores.{AreStores, AreLoaded, StoresRefuse};

use crate::fault::OpenFault;
use ssq_outside::Disk;
use ssq_shape::{Bound, Mode, Shape};
use ssq_store::{Store, StoreFault};
use ssq_value::Sequence;
use std::alloc::{AllocError, Global};

/// How the keys of a state are found.
#[derive(Clone, Copy)]
pub(crate) enum Finding {
    /// In order, for an operator that goes through keys which begin alike, or through all.
    InOrder,
    /// By their hashes, for one that looks up single keys.
    ByHash,
}

/// How the operator of a query finds keys.
pub(crate) fn finding_of(bound: &Bound) -> Finding {
    match &bound.shape {
        Shape::Group(_) if bound.mode == Mode::Complete => Finding::InOrder,
        Shape::Group(_) | Shape::Dedup(_) => Finding::ByHash,
        Shape::Join(_) | Shape::Plain => Finding::InOrder,
    }
}

/// The same store, whose keys are found so.
fn arranged(store: Store, finding: Finding) -> Result<Store, AllocError>
    ensures { IfOk result (λ made. made ≡ store) }
{
    match finding {
        Finding::InOrder => Ok(store),
        Finding::ByHash => store.hashed(),
    }
}

/// Loads a store, as `Store::load` does, whose keys are found so.
fn load<D: Disk>(
    alloc: Global,
    disk: &mut D,
    partition: u32,
    version: Option<u32>,
    finding: Finding,
) -> Result<Store, StoreFault>
    ensures made { D.tells → IfOk result (λ store. Makes (files_now (D.history disk.old)) partition (count_to version) store.state) }
    ensures told { IfOk result (λ store. (store.partition ≡ partition) × (store.version ≡ version)) }
    ensures damaged { D.tells → IfErr result (Refuses (files_now (D.history disk.old)) partition (count_to version)) }
    ensures same { D.tells → D.history disk.new ≡ D.history disk.old }
    ensures counted { D.faults disk.old ≤ D.faults disk.new }
    ensures cause { IfErr result (λ fault. StoreRises fault (D.faults disk.old) (D.faults disk.new)) }
{
    let store = Store::load(alloc, disk, partition, version)?;
    Ok(arranged(store, finding)?)
}

/// The version of the last of so many epochs.
fn last_version(epochs: u32) -> Option<u32>
    ensures { count_to result ≡ epochs }
{
    epochs.checked_sub(1)
}

/// The store of one partition more.
fn load_next<D: Disk>(
    alloc: Global,
    disk: &mut D,
    stores: &mut Sequence<Store>,
    partition: u32,
    committed: u32,
    finding: Finding,
) -> Result<(), OpenFault>
    ensures numbers { AreStores partition committed stores.old → OnOk result (AreStores (partition + 1) committed stores.new) }
    ensures loaded { D.tells → AreLoaded (files_now (D.history disk.old)) partition committed stores.old →
        OnOk result (AreLoaded (files_now (D.history disk.old)) (partition + 1) committed stores.new) }
    ensures refused { D.tells → AreLoaded (files_now (D.history disk.old)) partition committed stores.old →
        IfErr result (StoresRefuse (files_now (D.history disk.old)) (partition + 1) committed) }
    ensures same { D.tells → D.history disk.new ≡ D.history disk.old }
    ensures counted { D.faults disk.old ≤ D.faults disk.new }
    ensures cause { IfErr result (λ fault. DiskRises fault (D.faults disk.old) (D.faults disk.new)) }
{
    let store = load(alloc, disk, partition, last_version(committed), finding)?;
    Ok(stores.push(store)?)
}

/// The stores of the first so many partitions, in order, each with the state that the files make of it after so many epochs.
pub(crate) fn load_stores<D: Disk>(
    alloc: Global,
    disk: &mut D,
    keeping: u32,
    committed: u32,
    finding: Finding,
) -> Result<Sequence<Store>, OpenFault>
    ensures numbers { IfOk result (AreStores keeping committed) }
    ensures loaded { D.tells → IfOk result (AreLoaded (files_now (D.history disk.old)) keeping committed) }
    ensures refused { D.tells → IfErr result (StoresRefuse (files_now (D.history disk.old)) keeping committed) }
    ensures same { D.tells → D.history disk.new ≡ D.history disk.old }
    ensures counted { D.faults disk.old ≤ D.faults disk.new }
    ensures cause { IfErr result (λ fault. DiskRises fault (D.faults disk.old) (D.faults disk.new)) }
{
    let mut stores = Sequence::new(alloc);
    for partition in 0..keeping {
        load_next(alloc, disk, &mut stores, partition, committed, finding)?;
    }
    Ok(stores)
}
