//! Clusters, and the banks that they belong to.
ghost use Rattle.std.specs.Prelude.{◌≡◌, ◌<◌};
ghost use Rattle.ix_cluster.specs.Homes.{home};

/// A rule and the position where it is called.
#[derive(Clone, Copy, Debug, PartialEq, Eq, Hash)]
pub struct Cluster {
    pub rule: u32,
    pub at: u32,
}

/// A return edge of a cluster: the slot that waits for the rule, and where the slot's own rule was called.
#[derive(Clone, Copy, Debug, Default, PartialEq, Eq, Hash)]
pub struct Edge {
    pub slot: u32,
    pub left: u32,
}

/// The bank, of `count` banks, that the cluster of the rule at the position belongs to.
pub fn home(rule: u32, at: u32, count: u32) -> u32
    requires { 0 < count }
    ensures { result ≡ home rule at count }
{
    ((rule as u64 + at as u64) % count as u64) as u32
}
