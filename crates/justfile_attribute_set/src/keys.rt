//! Iterators over the attributes of a set.
ghost use Rattle.std.specs.Prelude.{◌≡◌, map};
ghost use Rattle.std.specs.Iterator.{YieldsFirst, YieldsFirstRef, item_count};
ghost use Rattle.std.specs.Slice.Iter.{iter_rest};
ghost use Rattle.std.specs.Vec.Iter.{into_iter_items};

use justfile_token::Name;
use justfile_written::Written;
use std::{slice, vec};

/// An iterator over the first components of pairs.
#[derive(Debug, Drop)]
pub struct Keys<'set, K, V> {
    pairs: slice::Iter<'set, (K, V)>,
}

impl<'set, K, V> Keys<'set, K, V> {
    ghost use Rattle.justfile_attribute_set.specs.Keys.{firsts, keys_left};

    pub(crate) fn new(pairs: &'set [(K, V)]) -> Self
        ensures { keys_left result ≡ firsts pairs.now }
    {
        Keys {
            pairs: pairs.iter(),
        }
    }
}

impl<'set, K, V> Iterator for Keys<'set, K, V> {
    ghost use Rattle.justfile_attribute_set.specs.Keys.{keys_left};

    type Item = &'set K;

    ghost next_gives = { YieldsFirstRef keys_left };

    ghost remaining = { item_count keys_left };

    fn next(&mut self) -> Option<&'set K> {
        match self.pairs.next() {
            Some(pair) => Some(&pair.0),
            None => None,
        }
    }
}

/// An iterator over the first components of pairs, by value.
#[derive(Debug, Drop)]
pub struct IntoKeys<K, V> {
    pairs: vec::IntoIter<(K, V)>,
}

impl<K, V> IntoKeys<K, V> {
    ghost use Rattle.justfile_attribute_set.specs.Keys.{firsts};
    ghost use Rattle.justfile_attribute_set.specs.IntoKeys.{owned_left};

    pub(crate) fn new(pairs: Vec<(K, V)>) -> Self
        ensures { owned_left result ≡ firsts pairs.items }
    {
        IntoKeys {
            pairs: pairs.into_iter(),
        }
    }
}

impl<K: Drop, V: Drop> Iterator for IntoKeys<K, V> {
    ghost use Rattle.justfile_attribute_set.specs.IntoKeys.{owned_left};

    type Item = K;

    ghost next_gives = { YieldsFirst owned_left };

    ghost remaining = { item_count owned_left };

    fn next(&mut self) -> Option<K> {
        match self.pairs.next() {
            Some((key, _value)) => Some(key),
            None => None,
        }
    }
}

/// An iterator over the first components of pairs and their names, by value.
#[derive(Debug, Drop)]
pub struct IntoNamed<'src, K> {
    pairs: vec::IntoIter<(K, Written<'src>)>,
}

impl<'src, K> IntoNamed<'src, K> {
    ghost use Rattle.justfile_attribute_set.specs.IntoNamed.{named_left};
    ghost use Rattle.justfile_attribute_set.specs.Pairs.{named};

    pub(crate) fn new(pairs: Vec<(K, Written<'src>)>) -> Self
        ensures { named_left result ≡ map named pairs.entry.items }
    {
        IntoNamed {
            pairs: pairs.into_iter(),
        }
    }
}

impl<'src, K: Drop> Iterator for IntoNamed<'src, K> {
    ghost use Rattle.justfile_attribute_set.specs.IntoNamed.{named_left};

    type Item = (K, Name<'src>);

    ghost next_gives = { YieldsFirst named_left };

    ghost remaining = { item_count named_left };

    fn next(&mut self) -> Option<(K, Name<'src>)> {
        match self.pairs.next() {
            Some((key, written)) => Some((key, written.name)),
            None => None,
        }
    }
}
