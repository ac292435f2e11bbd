//! The places of the items of one key, ordered by start, without a search of the others.
ghost use Rattle.std.specs.Prelude.{◌≡◌, ◌+◌, [], ◌∷◌, int_le, int_lt, IfOk, OnOk, OnErr, filter, if◌then◌else◌, map};
ghost use Rattle.desk_store.specs.steps.ByKey.{Rises, put_after};
ghost use Rattle.desk_store.specs.steps.StartIndex.{is_near_place, is_place_in, places_in};

use crate::reports::Period;
use duty_core::NEAR_REACH;
use indexmap::IndexMap;
use std::alloc::{AllocError, Global};
use std::hash::Hash;

/// When an item begins, in microseconds since 1970 UTC, and its number, from 1.
#[derive(Clone, Copy, PartialEq, Eq, PartialOrd, Ord)]
pub(crate) struct Place {
    pub(crate) start: i64,
    pub(crate) number: u64,
}

/// The places of each key's items, ordered by start, and those that start together by number.
#[derive(Drop)]
pub(crate) struct StartIndex<K: Eq + Hash> {
    pub(crate) keys: IndexMap<K, Vec<Place>>,
}

impl<K: Copy + Eq + Hash + Drop> StartIndex<K> {
    /// Returns the index of no items.
    pub(crate) fn new(alloc: Global) -> StartIndex<K>
        ensures { (other : K) → places_in K.eq result other ≡ [] }
    {
        StartIndex {
            keys: IndexMap::new(alloc),
        }
    }

    /// Adds the place of an item of this key, which comes after all others in number; or changes nothing.
    pub(crate) fn add(&mut self, key: K, place: Place) -> Result<(), AllocError>
        ensures noted { Rises (λ place. place.start) (places_in K.eq self.old key)
            → OnOk result ((other : K) → places_in K.eq self.new other
            ≡ (if K.eq key other then put_after (λ place. place.start) place (places_in K.eq self.old key)
            else places_in K.eq self.old other)) }
        ensures err { OnErr result ((other : K) → places_in K.eq self.new other ≡ places_in K.eq self.old other) }
    {
        match self.keys.get_mut(&key) {
            Some(places) => put(places, place),
            None => self.add_first(key, place),
        }
    }

    /// Adds the place of a key's first item, or changes nothing.
    fn add_first(&mut self, key: K, place: Place) -> Result<(), AllocError>
        ensures noted { OnOk result ((other : K) → places_in K.eq self.new other
            ≡ (if K.eq key other then place ∷ [] else places_in K.eq self.old other)) }
        ensures err { OnErr result ((other : K) → places_in K.eq self.new other ≡ places_in K.eq self.old other) }
    {
        let mut places = Vec::new(*self.keys.allocator());
        places.push(place)?;
        self.keys.insert(key, places)?;
        Ok(())
    }

    /// Returns the places of the key's items.
    pub(crate) fn places(&self, key: &K) -> &[Place]
        ensures { result.now ≡ places_in K.eq self.now key.now }
    {
        match self.keys.get(key) {
            Some(places) => places,
            None => &[],
        }
    }
}

/// Inserts the place after all that don't begin later, or changes nothing.
fn put(places: &mut Vec<Place>, place: Place) -> Result<(), AllocError>
    ensures put { Rises (λ place. place.start) places.old.items
        → OnOk result (places.new.items ≡ put_after (λ place. place.start) place places.old.items) }
    ensures err { OnErr result (places.new.items ≡ places.old.items) }
{
    let at = places.partition_point(|other| other.start <= place.start);
    places.insert(at, place)?;
    Ok(())
}

/// Returns the places that begin near the start.
pub(crate) fn places_near(places: &[Place], start: u64) -> &[Place]
    ensures { Rises (λ place. place.start) places.now → result.now ≡ filter (is_near_place start) places.now }
{
    let (start, reach) = (i128::from(start), i128::from(NEAR_REACH));
    places_between(places, start - reach + 1, start + reach)
}

/// Returns the places that begin in the period.
pub(crate) fn places_of_period<'a>(places: &'a [Place], period: &Period) -> &'a [Place]
    ensures { Rises (λ place. place.start) places.now → result.now ≡ filter (is_place_in period.now.from period.now.to) places.now }
{
    places_between(places, i128::from(period.from), i128::from(period.to))
}

/// Returns the numbers of the items at these places, in the places' order.
pub(crate) fn numbers_at(alloc: Global, places: &[Place]) -> Result<Vec<u64>, AllocError>
    ensures { IfOk result (λ numbers. numbers.items ≡ map (λ place. place.number) places.now) }
{
    places.iter().map(|place| place.number).collect(alloc)
}

/// Returns the places that begin at `from` or later and before `to`.
fn places_between(places: &[Place], from: i128, to: i128) -> &[Place]
    ensures { Rises (λ place. place.start) places.now → result.now ≡ filter (is_place_in from to) places.now }
{
    places_before(places_from(places, from), to)
}

/// Returns the places that begin at this moment or later.
fn places_from(places: &[Place], moment: i128) -> &[Place]
    ensures { Rises (λ place. place.start) places.now → result.now ≡ filter (λ place. int_le moment place.start) places.now }
{
    let at = places.partition_point(|place| i128::from(place.start) < moment);
    &places[at..]
}

/// Returns the places that begin before this moment.
fn places_before(places: &[Place], moment: i128) -> &[Place]
    ensures { Rises (λ place. place.start) places.now → result.now ≡ filter (λ place. int_lt place.start moment) places.now }
{
    let at = places.partition_point(|place| i128::from(place.start) < moment);
    &places[..at]
}
