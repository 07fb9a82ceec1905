//! Lists that stand one behind the other.
//! The rule: docs/FINANCIAL_MODULE.md, "Levels".
ghost use Rattle.std.specs.Prelude.{◌≡◌, ◌<◌, ◌≤◌, ◌-◌, [], drop, length, slice_index_or, take};
ghost use Rattle.kt_fmtree.specs.Lists.{AreEnds, lists_from, start_at};

use std::marker::Model;

/// Lists that stand one behind the other in one vector, each up to its end. Contracts see the list of the lists.
#[derive(Drop)]
pub struct Lists<T: Copy + Drop> {
    all: Vec<T>,
    ends: Vec<usize>,
}

impl<T: Copy + Drop> Model for Lists<T> {
    ghost use Rattle.std.specs.Prelude.{List, length};
    ghost use Rattle.kt_fmtree.specs.Lists.{AreEnds, lists_from};

    ghost Value = { List (List T) };

    ghost view = { λ kept. lists_from 0 kept.all.items kept.ends.items };

    ghost invariant = { λ kept. AreEnds 0 (length kept.all.items) kept.ends.items };
}

/// Where the list in a place begins: where the one before it ends.
fn start_of(ends: &[usize], place: usize) -> usize
    requires { place < length ends.now }
    ensures value { result ≡ start_at 0 ends.now place }
{
    if place == 0 {
        return 0;
    }
    ends[place - 1]
}

/// The elements from a place up to but not including another.
fn between<T>(all: &[T], start: usize, end: usize) -> &[T]
    requires order { start ≤ end }
    requires within { end ≤ length all.now }
    ensures value { result.now ≡ take (end - start) (drop start all.now) }
{
    &all[start..end]
}

/// Of lists that stand one behind the other, that in a place.
fn list_at<'a, T>(all: &'a [T], ends: &[usize], place: usize) -> &'a [T]
    requires ends { AreEnds 0 (length all.now) ends.now }
    requires place { place < length ends.now }
    ensures value { result.now ≡ slice_index_or (lists_from 0 all.now ends.now) place [] }
{
    let end = ends[place];
    let start = start_of(ends, place);
    between(all, start, end)
}

impl<T: Copy + Drop> Lists<T> {
    /// The lists that stand one behind the other in a vector, each up to its end.
    pub fn new(all: Vec<T>, ends: Vec<usize>) -> Lists<T>
        requires ends { AreEnds 0 (length all.items) ends.items }
        ensures value { result ≡ lists_from 0 all.items ends.items }
    {
        Lists { all, ends }
    }

    /// The list in a place.
    pub fn at(&self, place: usize) -> &[T]
        requires place { place < length self.now }
        ensures value { result.now ≡ slice_index_or self.now place [] }
    {
        list_at(self.all.as_slice(), self.ends.as_slice(), place)
    }
}
