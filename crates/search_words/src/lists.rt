//! Places of a log, by a number.
ghost use Rattle.std.specs.Prelude.{◌≡◌, ◌∷◌, ◌++◌, [], ◌<◌, ◌≤◌, ℕ, List, length, get_or, set, IfOk, OnOk, Some, nat_eq, cond};
ghost use Rattle.std.specs.List.Sorted.{IsNonDecreasing};
ghost use Rattle.search_words.specs.Lists.{Has, InList, IsRising, Adds, places_of, spot_of};

use std::alloc::{AllocError, Global};
use std::collections::HashMap;
use std::marker::Model;

/// The places of a number.
#[derive(Clone, Copy)]
pub(crate) enum Spot {
    /// There is one.
    One(usize),
    /// There are several: those of that list.
    Several(usize),
}

/// Places by number. Those of a number rise.
#[derive(Drop)]
pub(crate) struct Lists {
    spots: HashMap<u64, Spot>,
    several: Vec<Vec<usize>>,
}

impl Model for Lists {
    ghost use Rattle.std.specs.Prelude.{map};
    ghost use Rattle.search_words.specs.ListsView.{ListsView};

    ghost Value = { ListsView };

    ghost view = { λ l. record { spots = l.spots.entries; several = map (λ v. v.items) l.several.items } };
}

fn pair(alloc: Global, one: usize, other: usize) -> Result<Vec<usize>, AllocError>
    ensures { IfOk result (λ v. v.items ≡ one ∷ other ∷ []) }
{
    let mut list = Vec::with_capacity(alloc, 4)?;
    list.push(one)?;
    list.push(other)?;
    Ok(list)
}

impl Lists {
    /// There are no places.
    pub(crate) fn new(alloc: Global) -> Lists
        ensures { (n : ℕ) → IsRising result n }
    {
        Lists {
            spots: HashMap::new(alloc),
            several: Vec::new(alloc),
        }
    }

    /// Where the places of the number are.
    fn spot(&self, number: u64) -> Option<Spot>
        ensures { result ≡ spot_of self.now number }
    {
        self.spots.get(&number).copied()
    }

    /// Says where the places of the number are.
    fn put(&mut self, number: u64, spot: Spot) -> Result<(), AllocError>
        ensures several { self.new.several ≡ self.old.several }
        ensures spots { OnOk result ((k : ℕ) → spot_of self.new k ≡ cond (nat_eq number k) (Some spot) (spot_of self.old k)) }
    {
        self.spots.insert(number, spot)?;
        Ok(())
    }

    /// A list of two places, behind the lists that there are.
    fn push_list(&mut self, alloc: Global, one: usize, other: usize) -> Result<(), AllocError>
        ensures spots { self.new.spots ≡ self.old.spots }
        ensures several { OnOk result (self.new.several ≡ self.old.several ++ (one ∷ other ∷ []) ∷ []) }
    {
        let list = pair(alloc, one, other)?;
        self.several.push(list)?;
        Ok(())
    }

    /// One more place of a list.
    fn push_to(&mut self, at: usize, place: usize) -> Result<(), AllocError>
        requires { at < length self.old.several }
        ensures spots { OnOk result (self.new.spots ≡ self.old.spots) }
        ensures several { OnOk result (self.new.several ≡ set self.old.several at (get_or self.old.several at [] ++ place ∷ [])) }
    {
        self.several[at].push(place)?;
        Ok(())
    }

    /// A second place of the number.
    fn add_second(
        &mut self,
        alloc: Global,
        number: u64,
        one: usize,
        place: usize,
    ) -> Result<(), AllocError>
        requires rising { IsRising self.old place }
        requires one { spot_of self.old number ≡ Some (Spot.One one) }
        ensures { OnOk result (Adds self.old self.new number place) }
    {
        let at = self.several.len();
        self.push_list(alloc, one, place)?;
        self.put(number, Spot::Several(at))?;
        Ok(())
    }

    /// One more place of the number, none of those that there are being behind it.
    pub(crate) fn add(&mut self, alloc: Global, number: u64, place: usize) -> Result<(), AllocError>
        requires { IsRising self.old place }
        ensures { OnOk result (Adds self.old self.new number place) }
    {
        match self.spot(number) {
            None => self.put(number, Spot::One(place))?,
            Some(Spot::One(one)) => self.add_second(alloc, number, one, place)?,
            Some(Spot::Several(at)) => self.push_to(at, place)?,
        }
        Ok(())
    }

    /// The places of the number.
    fn all(&self, number: u64) -> &[usize]
        ensures { result.now ≡ places_of self.now number }
    {
        match self.spots.get(&number) {
            None => &[],
            Some(Spot::One(one)) => std::slice::from_ref(one),
            Some(Spot::Several(at)) => match self.several.get(*at) {
                Some(list) => list.as_slice(),
                None => &[],
            },
        }
    }

    /// The places of the number from one place on and before another.
    pub(crate) fn between(&self, number: u64, from: usize, to: usize) -> &[usize]
        requires { (n : ℕ) × IsRising self.now n }
        ensures { (b : ℕ) → Has self.now number b → from ≤ b → b < to → InList result.now b }
    {
        window(self.all(number), from, to)
    }
}

/// How many places of a list are looked at before all of it is.
const FEW: usize = 8;

/// The first places of a rising list, with all that are before that one: few, if these are all.
#[inline(always)]
fn near(list: &[usize], to: usize) -> &[usize]
    requires { IsNonDecreasing list.now }
    ensures rise { IsNonDecreasing result.now }
    ensures all { (b : ℕ) → InList list.now b → b < to → InList result.now b }
{
    if list.len() > FEW && list[FEW] >= to {
        return &list[..FEW];
    }
    list
}

/// Those of a rising list before that place.
#[inline(always)]
fn before(list: &[usize], to: usize) -> &[usize]
    requires { IsNonDecreasing list.now }
    ensures { (b : ℕ) → InList list.now b → b < to → InList result.now b }
{
    match list.last() {
        Some(last) if *last >= to => &list[..list.partition_point(|b| *b < to)],
        _ => list,
    }
}

/// Those of a rising list from that place on.
#[inline(always)]
fn behind(list: &[usize], from: usize) -> &[usize]
    requires { IsNonDecreasing list.now }
    ensures rise { IsNonDecreasing result.now }
    ensures all { (b : ℕ) → InList list.now b → from ≤ b → InList result.now b }
{
    match list.first() {
        Some(first) if *first < from => &list[list.partition_point(|b| *b < from)..],
        _ => list,
    }
}

/// Those of a rising list from one place on and before another.
pub(crate) fn window(list: &[usize], from: usize, to: usize) -> &[usize]
    requires { IsNonDecreasing list.now }
    ensures { (b : ℕ) → InList list.now b → from ≤ b → b < to → InList result.now b }
{
    before(near(behind(list, from), to), to)
}
