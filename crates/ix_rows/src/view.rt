use std::collections::LinkedList;
use std::snapshot::Snapshot;

/// What a pass knows. No value of it is made: contracts speak of it, and a pass has no bytes.
///
/// A spent view, that of a pass that was joined, has no topic.
pub struct View<T, E> {
    /// Whether it is the view of the root.
    pub root: bool,
    /// 1 in a pass that was split off and is not joined, else 0.
    pub lent: u64,
    /// In the root, how many passes were split off and are not joined.
    pub out: u64,
    /// The place that is held.
    pub place: Option<u64>,
    /// What all values of the row speak of.
    pub topic: Option<T>,
    /// The length of each log as the row was made.
    pub begun: LinkedList<u64>,
    /// A beginning of each log.
    pub known: LinkedList<LinkedList<E>>,
    /// In the root, what a pass knew that is being joined.
    pub came: LinkedList<LinkedList<E>>,
    /// The place and the number of each entry that came by this pass.
    pub own: LinkedList<(u64, u64)>,
    /// The log that was taken, while a place is held.
    pub took: LinkedList<E>,
}

/// What the table is told once, as it is made: the topic, and the values that it begins with. It has no bytes.
pub struct Start<T, X> {
    /// The topic.
    pub topic: Snapshot<T>,
    /// The values, one for each place.
    pub values: Snapshot<Vec<X>>,
}

impl<T, X> Drop for Start<T, X> {
    fn drop(self) {
        let Self {
            topic: _,
            values: _,
        } = self;
    }
}
