//! Lists that are kept by cluster.
ghost use Rattle.std.specs.Prelude.{◌≡◌, ◌<◌, Some, Vec, slice_get, IfOk, OnOk};
ghost use Rattle.std.specs.declared.alloc.Global.{Global};
ghost use Rattle.indexmap.specs.IndexMap.{index_map_len};
ghost use Rattle.ix_cluster.specs.declared.cluster.Cluster.{Cluster};
ghost use Rattle.ix_cluster.specs.Lists.{list_at, PushesAt, KeepsLists, IsPlaceFor};

use crate::cluster::Cluster;
use indexmap::IndexMap;
use std::alloc::{AllocError, Global};

// The list of the cluster.
pub(crate) fn list_of<'a, T>(map: &'a IndexMap<Cluster, Vec<T>>, cluster: Cluster) -> &'a [T]
    ensures { result.now ≡ list_at map.now cluster }
{
    match map.get(&cluster) {
        Some(list) => list.as_slice(),
        None => &[],
    }
}

// Makes room for one more in the list of the cluster, and answers where the list stands. No list changes: a cluster that
// the map lacks gets an empty one.
pub(crate) fn place_for<T: Drop>(
    map: &mut IndexMap<Cluster, Vec<T>>,
    alloc: Global,
    cluster: Cluster,
) -> Result<usize, AllocError>
    ensures kept { KeepsLists map.old map.new }
    ensures place { IfOk result (IsPlaceFor map.new cluster) }
{
    let entry = map.entry(cluster)?;
    let place = entry.index();
    let list = entry.or_insert(Vec::new(alloc));
    list.reserve(1)?;
    Ok(place)
}

// Adds an item to the list at the place.
pub(crate) fn push_at<T>(map: &mut IndexMap<Cluster, Vec<T>>, place: usize, item: T)
    requires { (c : Cluster) × IsPlaceFor map.old c place }
    ensures { (c : Cluster) → IsPlaceFor map.old c place → PushesAt map.old c item map.new }
{
    let (_, list) = map.pair_mut(place);
    list.push_reserved(item);
}
