//! The keys of the live calls by number.
//!
//! They stand in pages of eight numbers that follow one another. The page of the newest number
//! lies in the index itself, so that a call that ends soon needs no look-up in a map.
ghost use Rattle.std.specs.Prelude.{◌≡◌, ℕ, ◌+◌, ◌<◌, ◌≤◌, ◌↔◌, IsTrue, false, None, OnOk, if◌then◌else◌, nat_eq};
ghost use Rattle.std.specs.FinMap.{empty, insert, remove};
ghost use Rattle.std.specs.FinMap as fin;
ghost use Rattle.indexmap.specs.IndexMap.{get, spare, IsUnique};
ghost use Rattle.call_slab.specs.Index.{key_in, key_at, no_calls};
ghost use Rattle.call_slab.specs.Index.{AreThose, HasNoCalls, HoldsPage, IsPageOf, LanesStay, PagesStay, SetsLane, without};

use crate::links::{CallKey, NO_KEY, kept, link};
use indexmap::IndexMap;
use ipc_ids::NoMemory;
use std::alloc::Global;
use std::marker::Model;

/// How many numbers a page has.
const PAGE: u64 = 8;

/// The keys of eight numbers that follow one another.
#[derive(Clone, Copy)]
struct Page {
    keys: [u32; 8],
}

impl Page {
    /// No calls.
    fn new() -> Page
        ensures { result ≡ no_calls }
    {
        Page { keys: [NO_KEY; 8] }
    }

    /// The key in this lane.
    #[inline(always)]
    fn get(&self, lane: usize) -> Option<CallKey>
        requires { lane < 8 }
        ensures { result ≡ key_in self.now lane }
    {
        link(self.keys[lane])
    }

    /// Writes this lane.
    #[inline(always)]
    fn set(&mut self, lane: usize, key: Option<CallKey>)
        requires { lane < 8 }
        ensures { SetsLane lane key self.old self.new }
    {
        self.keys[lane] = kept(key);
    }

    /// Whether there are no calls.
    fn is_empty(&self) -> bool
        ensures { IsTrue result ↔ (self.now ≡ no_calls) }
    {
        self.keys == [NO_KEY; 8]
    }
}

/// The keys of the live calls by number, with room for `spare` more.
#[derive(Drop)]
pub(crate) struct Index {
    // The numbers of the page that lies here, divided by eight.
    open: u64,
    page: Page,
    // The other pages that have a call.
    pages: IndexMap<u64, Page>,
}

impl Model for Index {
    ghost use Rattle.std.specs.Prelude.{◌∷◌};
    ghost use Rattle.indexmap.specs.IndexMap.{spare};
    ghost use Rattle.call_slab.specs.Index.{IndexState, index_code, keys_in, IsPaged};

    ghost Value = { IndexState };

    ghost coded = { index_code };

    ghost view = { λ a. record {
      keys = keys_in ((a.open, a.page) ∷ a.pages.entries);
      spare = spare a.pages;
    } };

    ghost invariant = { λ a. IsPaged a.open a.pages.entries };
}

impl Index {
    /// No keys; it takes no memory.
    pub(crate) fn new(alloc: Global) -> Index
        ensures keys { result.keys ≡ empty }
    {
        Index {
            open: 0,
            page: Page::new(),
            pages: IndexMap::new(alloc),
        }
    }

    /// The allocator of the pages.
    pub(crate) fn alloc(&self) -> Global {
        *self.pages.allocator()
    }

    /// Makes room for `n` more calls.
    ///
    /// # Errors
    ///
    /// `NoMemory` where memory has run out. The keys stay, and no room is lost.
    pub(crate) fn reserve(&mut self, n: usize) -> Result<(), NoMemory>
        ensures keys { self.new.keys ≡ self.old.keys }
        ensures room { OnOk result (n ≤ self.new.spare) }
        ensures spare { self.old.spare ≤ self.new.spare }
    {
        if self.pages.reserve(n).is_err() {
            return Err(NoMemory);
        }
        Ok(())
    }

    /// The key of the call with this number.
    #[inline(always)]
    pub(crate) fn get(&self, number: u64) -> Option<CallKey>
        ensures key { result ≡ fin.get self.now.keys number }
    {
        let lane = (number % PAGE) as usize;
        if number / PAGE == self.open {
            self.page.get(lane)
        } else {
            key_among(&self.pages, number / PAGE, lane)
        }
    }

    /// Gives the call with this number this key.
    #[inline(always)]
    pub(crate) fn put(&mut self, number: u64, key: CallKey)
        requires room { 0 < self.old.spare }
        ensures keys { self.new.keys ≡ insert self.old.keys number key }
        ensures spare { self.old.spare ≤ self.new.spare + 1 }
    {
        let lane = (number % PAGE) as usize;
        if number / PAGE == self.open {
            self.page.set(lane, Some(key));
        } else {
            self.page = turn_page(&mut self.pages, self.open, self.page, number / PAGE);
            self.open = number / PAGE;
            self.page.set(lane, Some(key));
        }
    }

    /// Takes the key of this number out.
    #[inline(always)]
    pub(crate) fn remove(&mut self, number: u64)
        ensures keys { self.new.keys ≡ remove self.old.keys number }
        ensures spare { self.old.spare ≤ self.new.spare }
    {
        let lane = (number % PAGE) as usize;
        if number / PAGE == self.open {
            self.page.set(lane, None);
        } else {
            clear_among(&mut self.pages, number / PAGE, lane);
        }
    }
}

/// The key in this lane of this page.
#[inline(never)]
fn key_among(pages: &IndexMap<u64, Page>, number: u64, lane: usize) -> Option<CallKey>
    requires { lane < 8 }
    ensures { result ≡ key_at (get nat_eq pages.now number) lane }
{
    match pages.get(&number) {
        Some(page) => page.get(lane),
        None => None,
    }
}

/// Puts the page `from` in, and takes out the page `to`, which is opened in its place.
#[inline(never)]
fn turn_page(pages: &mut IndexMap<u64, Page>, from: u64, page: Page, to: u64) -> Page
    requires room { 0 < spare pages.old }
    requires apart { get nat_eq pages.old from ≡ None }
    ensures page { IsPageOf result (get nat_eq pages.old to) }
    ensures put { HoldsPage (get nat_eq pages.new from) page }
    ensures others { PagesStay from (without to (get nat_eq pages.old)) (get nat_eq pages.new) }
    ensures unique { IsUnique nat_eq pages.new }
    ensures spare { spare pages.old ≤ spare pages.new + 1 }
{
    let opened = take_page(pages, to);
    keep_page(pages, from, page);
    opened
}

/// Takes this page out; it has no calls where it is not there.
fn take_page(pages: &mut IndexMap<u64, Page>, number: u64) -> Page
    ensures page { IsPageOf result (get nat_eq pages.old number) }
    ensures pages { AreThose (get nat_eq pages.new) (without number (get nat_eq pages.old)) }
    ensures unique { IsUnique nat_eq pages.new }
    ensures spare { spare pages.old ≤ spare pages.new }
{
    match pages.swap_remove(&number) {
        Some(page) => page,
        None => Page::new(),
    }
}

/// Puts this page in, if it has a call.
fn keep_page(pages: &mut IndexMap<u64, Page>, number: u64, page: Page)
    requires room { 0 < spare pages.old }
    requires new { get nat_eq pages.old number ≡ None }
    requires unique { IsUnique nat_eq pages.old }
    ensures page { HoldsPage (get nat_eq pages.new number) page }
    ensures others { PagesStay number (get nat_eq pages.old) (get nat_eq pages.new) }
    ensures unique { IsUnique nat_eq pages.new }
    ensures spare { spare pages.old ≤ spare pages.new + 1 }
{
    if !page.is_empty() {
        pages.insert(number, page).unwrap();
    }
}

/// Clears this lane of this page, which goes where it has no call left.
#[inline(never)]
fn clear_among(pages: &mut IndexMap<u64, Page>, number: u64, lane: usize)
    requires { lane < 8 }
    ensures lane { key_at (get nat_eq pages.new number) lane ≡ None }
    ensures lanes { LanesStay lane (get nat_eq pages.old number) (get nat_eq pages.new number) }
    ensures others { PagesStay number (get nat_eq pages.old) (get nat_eq pages.new) }
    ensures unique { IsUnique nat_eq pages.new }
    ensures spare { spare pages.old ≤ spare pages.new }
{
    if clear_lane(pages, number, lane) {
        pages.swap_remove(&number);
    }
}

/// Clears this lane of this page, and says whether the page has no call left.
fn clear_lane(pages: &mut IndexMap<u64, Page>, number: u64, lane: usize) -> bool
    requires { lane < 8 }
    ensures lane { key_at (get nat_eq pages.new number) lane ≡ None }
    ensures lanes { LanesStay lane (get nat_eq pages.old number) (get nat_eq pages.new number) }
    ensures others { PagesStay number (get nat_eq pages.old) (get nat_eq pages.new) }
    ensures empty { IsTrue result → HasNoCalls (get nat_eq pages.new number) }
    ensures unique { IsUnique nat_eq pages.new }
    ensures spare { spare pages.old ≤ spare pages.new }
{
    match pages.get_mut(&number) {
        Some(page) => {
            page.set(lane, None);
            page.is_empty()
        }
        None => false,
    }
}
