//! The rule of the table, and what each step tells the pass that makes it. These types are for the proofs alone.
ghost use Rattle.std.specs.Prelude.{map};
ghost use Rattle.ix_rows.specs.Orderly.{Orderly};
ghost use Rattle.ix_rows.specs.Steps.{tried, released, looked};
ghost use Rattle.ix_rows.specs.Views.{root_view, left_of, right_of, both_of, spent};

use crate::kept::Kept;
use crate::view::{Start, View};
use atomic_table::{Join, Play, Split, TableRule};
use std::marker::PhantomData;

/// The rule of a row of these values, and the view of its root.
pub struct Rule<K> {
    kept: PhantomData<K>,
}

impl<K: Kept> TableRule<Option<K::Value>, View<K::Topic, K::Entry>, Start<K::Topic, K::Value>>
    for Rule<K> {
    ghost holds = { λ start. Orderly K.fact K.log start.topic.value (map K.log start.values.value.items) };

    ghost first = { λ start. root_view start.topic.value (map K.log start.values.value.items) };
}

/// A try by swap: the word becomes 0, and where it was not 0 the pass holds the place and has the value.
pub struct Try<K> {
    kept: PhantomData<K>,
}

impl<K: Kept> Play<Option<K::Value>, View<K::Topic, K::Entry>> for Try<K> {
    ghost then = { tried K.fact K.log };
}

/// A release by swap: the value is at home, and the pass knows its log.
pub struct Release<K> {
    kept: PhantomData<K>,
}

impl<K: Kept> Play<Option<K::Value>, View<K::Topic, K::Entry>> for Release<K> {
    ghost then = { λ step before found after. released K.log step before after };
}

/// A load by which the root takes over what a joined pass knew.
pub struct Look;

impl<X, T, E> Play<X, View<T, E>> for Look {
    ghost then = { λ step before found after. looked before after };
}

/// A split of the root.
pub struct Fork;

impl<T, E> Split<View<T, E>> for Fork {
    ghost left = { left_of };

    ghost right = { right_of };
}

/// A join with the root.
pub struct Back;

impl<T, E> Join<View<T, E>> for Back {
    ghost both = { both_of };

    ghost spent = { spent };
}
