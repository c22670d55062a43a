//! A page of a heap in memory. Its objects lie as on a page of 4,096 bytes: behind a head of 64 bytes,
//! one behind the other, each with a head of 16 bytes and on a grid of 16. What they hold lies apart, so
//! that a payload is lent in place, in lists that have their memory from the start:
//!
//! ```text
//! entries  | row, 3 bytes | directory, 2 links | row, 2 bytes |
//! bytes    | a b c | x y |
//! links    | nil, 0 |
//! ```
ghost use Rattle.std.specs.Prelude.{◌≡◌, ◌≤◌, ◌<◌, ◌+◌, ◌-◌, ◌^◌, ◌++◌, ◌∷◌, [], None, take, drop, sum_by, length, replicate};
ghost use Rattle.hg_base.specs.Content.{row_object, object_size};
ghost use Rattle.hg_base.specs.PlainEntries.{bytes_used, links_used, entry_size, found_from};

use crate::plain_drain::{push_row, write_page};
use arrayvec::ArrayVec;
use std::alloc::{AllocError, Global};
use std::marker::Model;

/// What stands at a place of a page. A link names an object of the heap by its place in the order of
/// placing.
#[derive(Clone, Copy)]
enum PlainEntry {
    /// A row of so many bytes.
    Row { count: usize, link: Option<usize> },
    /// A directory of so many links.
    Directory { count: usize },
}

impl PlainEntry {
    ghost use Rattle.std.specs.Prelude.{◌≡◌, ◌≤◌};
    ghost use Rattle.hg_base.specs.PlainEntries.{entry_size, entry_length, bytes_used, links_used};

    /// The bytes that it takes of a page.
    fn size(&self) -> usize
        requires { entry_length self.now ≤ 1048576 }
        ensures { result ≡ entry_size self.now }
    {
        let count = match *self {
            PlainEntry::Row { count, .. } => count,
            PlainEntry::Directory { count } => 8 * count,
        };
        16 + 16 * ((count + 15) / 16)
    }

    /// How many bytes of payload it has.
    fn bytes(&self) -> usize
        ensures { result ≡ bytes_used self.now }
    {
        match *self {
            PlainEntry::Row { count, .. } => count,
            PlainEntry::Directory { .. } => 0,
        }
    }

    /// How many links of a directory it has.
    fn links(&self) -> usize
        ensures { result ≡ links_used self.now }
    {
        match *self {
            PlainEntry::Row { .. } => 0,
            PlainEntry::Directory { count } => count,
        }
    }
}

/// Where the bytes and the links of an entry begin.
#[derive(Clone, Copy)]
struct Starts {
    bytes: usize,
    links: usize,
}

/// Where those of the entry at a place begin, or those of the next one.
fn starts_of(entries: &[PlainEntry], index: usize) -> Starts
    requires inside { index ≤ length entries.now }
    requires small { sum_by entry_size entries.now ≤ 4096 }
    ensures bytes { result.bytes ≡ sum_by bytes_used (take index entries.now) }
    ensures links { result.links ≡ sum_by links_used (take index entries.now) }
{
    let mut starts = Starts { bytes: 0, links: 0 };
    for i in 0..index {
        starts = Starts {
            bytes: starts.bytes + entries[i].bytes(),
            links: starts.links + entries[i].links(),
        };
    }
    starts
}

/// Where the object of the entry at a place begins.
fn offset_of(entries: &[PlainEntry], index: usize) -> usize
    requires inside { index ≤ length entries.now }
    requires small { sum_by entry_size entries.now ≤ 4096 }
    ensures { result ≡ 64 + sum_by entry_size (take index entries.now) }
{
    let mut at = 64;
    for i in 0..index {
        at += entries[i].size();
    }
    at
}

/// The place of the object at an address, where the page's bytes begin at `base`.
fn find_entry(entries: &[PlainEntry], base: u64, a: u64) -> Option<usize>
    requires small { sum_by entry_size entries.now ≤ 4096 }
    requires low { base < 2 ^ 32 }
    ensures { result ≡ found_from base a 64 entries.now }
{
    let mut at: u64 = 64;
    for i in 0..entries.len() {
        if base + at == a {
            return Some(i);
        }
        at += entries[i].size() as u64;
    }
    None
}

/// So many items from `start` on.
fn part_of<T>(list: &[T], start: usize, count: usize) -> &[T]
    requires { start + count ≤ length list.now }
    ensures { result.now ≡ take count (drop start list.now) }
{
    &list[start..start + count]
}

/// A page of a heap. Contracts see the list of its objects.
#[derive(Drop)]
pub(crate) struct HeapPage {
    entries: Vec<PlainEntry>,
    bytes: Vec<u8>,
    links: Vec<Option<usize>>,
    /// The offset of the first free byte.
    end: usize,
}

impl Model for HeapPage {
    ghost use Rattle.std.specs.Prelude.{List};
    ghost use Rattle.hg_base.specs.Content.{Object};

    ghost Value = { List Object };

    ghost use Rattle.hg_base.specs.PlainPages.{objects_on, IsPage};

    ghost view = { objects_on };

    ghost invariant = { IsPage };
}

impl HeapPage {
    ghost use Rattle.std.specs.Prelude.{◌≡◌, ◌≤◌, ◌<◌, ◌+◌, ◌*◌, ◌^◌, ◌++◌, [], ◌∷◌, Some, None, length, map, IfOk, IfSome, IsSome, MatchOption, slice_index_or};
    ghost use Rattle.std.specs.Borrow.{sem};
    ghost use Rattle.hg_base.specs.Content.{page_end, row_object, directory, object_size, offsets_from, payloads_of};
    ghost use Rattle.std.specs.List.{AllByRecursion};
    ghost use Rattle.hg_base.specs.HeapFacts.{IsPayload};
    ghost use Rattle.hg_base.specs.HeapStates.{HoldsPayloads};
    ghost use Rattle.hg_base.specs.HeapContent.{place_in, changed_on, with_link, no_links};
    ghost use Rattle.hg_base.specs.Lending.{LendsBytes};
    ghost use Rattle.hg_base.specs.PlainEntries.{spilled, payload_at, link_at, links_at, HasLinkAt};
    ghost use Rattle.hg_base.specs.contracts.plain_page.HeapPage.{the_row};

    /// A page with no object.
    pub(crate) fn new(alloc: Global) -> Result<HeapPage, AllocError>
        ensures { IfOk result (λ p. p ≡ []) }
    {
        Ok(HeapPage {
            entries: Vec::with_capacity(alloc, 252)?,
            bytes: Vec::with_capacity(alloc, 4032)?,
            links: Vec::with_capacity(alloc, 504)?,
            end: 64,
        })
    }

    /// How many objects it has.
    pub(crate) fn len(&self) -> usize
        ensures count { result ≡ length self.now }
        ensures few { result ≤ 252 }
    {
        self.entries.len()
    }

    /// The offset of the first free byte.
    pub(crate) fn end(&self) -> usize
        ensures end { result ≡ page_end self.now }
        ensures below { result ≤ 4096 }
    {
        self.end
    }

    /// The place of the object at an address, where the page's bytes begin at `base`.
    pub(crate) fn find(&self, base: u64, a: u64) -> Option<usize>
        requires { base < 2 ^ 32 }
        ensures found { result ≡ place_in (map (λ at. base + at) (offsets_from 64 self.now)) a }
        ensures inside { IfSome result (λ index. index < length self.now) }
        ensures few { IfSome result (λ index. index < 252) }
    {
        find_entry(self.entries.as_slice(), base, a)
    }

    /// Where the object at a place begins.
    pub(crate) fn offset(&self, index: usize) -> usize
        requires { index < length self.now }
        ensures begins { result ≡ slice_index_or (offsets_from 64 self.now) index 0 }
        ensures low { result < 4096 }
    {
        offset_of(self.entries.as_slice(), index)
    }

    /// The payload of the object at a place, if it is a row.
    pub(crate) fn payload(&self, index: usize) -> Option<&[u8]>
        requires { index < length self.now }
        ensures { MatchOption result (payload_at self.now index ≡ None) (λ b. payload_at self.now index ≡ Some b.now) }
    {
        match self.entries[index] {
            PlainEntry::Row { count, .. } => {
                let start = starts_of(self.entries.as_slice(), index).bytes;
                Some(part_of(self.bytes.as_slice(), start, count))
            }
            PlainEntry::Directory { .. } => None,
        }
    }

    /// The link of the row at a place.
    pub(crate) fn link(&self, index: usize) -> Option<usize>
        requires inside { index < length self.now }
        requires row { IsSome (payload_at self.now index) }
        ensures { link_at self.now index ≡ Some result }
    {
        match self.entries[index] {
            PlainEntry::Row { link, .. } => link,
            PlainEntry::Directory { .. } => unreachable!(),
        }
    }

    /// The links of the object at a place, if it is a directory.
    pub(crate) fn links(&self, index: usize) -> Option<&[Option<usize>]>
        requires { index < length self.now }
        ensures links { MatchOption result (links_at self.now index ≡ None) (λ l. links_at self.now index ≡ Some l.now) }
        ensures few { IfSome result (λ l. length l.now ≤ 504) }
    {
        match self.entries[index] {
            PlainEntry::Row { .. } => None,
            PlainEntry::Directory { count } => {
                let start = starts_of(self.entries.as_slice(), index).links;
                Some(part_of(self.links.as_slice(), start, count))
            }
        }
    }

    /// Writes its rows, without their links, as a page of 4,096 bytes.
    pub(crate) fn write_rows(&self, out: &mut [u8])
        requires { length out.old ≡ 4096 }
        ensures { AllByRecursion IsPayload (payloads_of self.now) → HoldsPayloads (Some (payloads_of self.now)) out.new }
    {
        let mut rows: ArrayVec<u8, 4096> = ArrayVec::new();
        for index in 0..self.entries.len() {
            match self.payload(index) {
                Some(payload) => push_row(&mut rows, payload),
                None => {}
            }
        }
        write_page(rows.as_slice(), out);
    }

    /// Places a row behind the last object.
    pub(crate) fn push_row(&mut self, payload: &[u8], link: Option<usize>)
        requires { page_end self.old + object_size (row_object payload.now link) ≤ 4096 }
        ensures { self.new ≡ self.old ++ row_object payload.now link ∷ [] }
    {
        let entry = PlainEntry::Row {
            count: payload.len(),
            link,
        };
        match self.bytes.extend_from_slice(payload) {
            Ok(()) => {}
            Err(_) => unreachable!(),
        }
        self.entries.push_reserved(entry);
        self.end += entry.size();
    }

    /// Places a directory of so many links to nothing behind the last object.
    pub(crate) fn push_directory(&mut self, count: usize)
        requires { page_end self.old + object_size (directory (no_links count)) ≤ 4096 }
        ensures { self.new ≡ self.old ++ directory (no_links count) ∷ [] }
    {
        let entry = PlainEntry::Directory { count };
        let all = self.links.len() + count;
        match self.links.resize(all, None) {
            Ok(()) => {}
            Err(_) => unreachable!(),
        }
        self.entries.push_reserved(entry);
        self.end += entry.size();
    }

    /// Sets a link of the directory at a place.
    pub(crate) fn set_link(&mut self, index: usize, k: usize, to: Option<usize>)
        requires inside { index < length self.old }
        requires there { HasLinkAt self.old index k }
        ensures { self.new ≡ changed_on (with_link k to) index self.old }
    {
        match self.entries[index] {
            PlainEntry::Row { .. } => unreachable!(),
            PlainEntry::Directory { .. } => {
                let start = starts_of(self.entries.as_slice(), index).links;
                self.links[start + k] = to;
            }
        }
    }

    /// The payload of the row at a place, to be written.
    pub(crate) fn payload_mut(&mut self, index: usize) -> &mut [u8]
        requires inside { index < length self.old }
        requires row { IsSome (payload_at self.old index) }
        ensures* lends { sem 𝓛 (LendsBytes the_row self.entry result (spilled self.old index)) }
        ensures value { payload_at self.old index ≡ Some result.now }
    {
        let start = starts_of(self.entries.as_slice(), index).bytes;
        let end = start + self.entries[index].bytes();
        self.bytes.slice_mut(start..end)
    }
}
