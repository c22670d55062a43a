//! The objects of a heap in memory: its pages, in the frames where they stand, and its four roots.

use crate::plain_page::HeapPage;
use crate::{Addr, FrameNo, NoRoom};

/// Where an object stands: on which page, at which place there, and at which place of all objects in the
/// order of placing.
#[derive(Clone, Copy)]
struct Found {
    page: usize,
    index: usize,
    number: usize,
}

/// Where the next object is placed, and how many bytes are free there.
#[derive(Clone, Copy)]
struct Room {
    page: usize,
    free: usize,
    next: Addr,
}

/// The objects of a heap. Its pages stand in frames one behind the other, from the first one on; behind
/// the last of 65,536 frames comes frame 0.
#[derive(Drop)]
pub(crate) struct HeapObjects {
    pub(crate) first: u32,
    pub(crate) layout: Vec<HeapPage>,
    pub(crate) roots: [Option<usize>; 4],
}

impl HeapObjects {
    ghost use Rattle.std.specs.Prelude.{◌≡◌, ◌≤◌, ◌<◌, ◌+◌, ◌%◌, ◌↔◌, length, option_map, Some, None, IfSome, IfNone, IsSome, IsOk, IfOk, OnOk, OnErr, MatchOption, slice_get, slice_set};
    ghost use Rattle.std.specs.Borrow.{sem};
    ghost use Rattle.hg_base.specs.Lending.{LendsBytes};
    ghost use Rattle.hg_base.specs.HeapStates.{HasWord, IsWordAt};
    ghost use Rattle.hg_base.specs.contracts.plain_objects.HeapObjects.{the_row};
    ghost use Rattle.hg_base.specs.Content.{address_of, row_object, directory, object_size};
    ghost use Rattle.hg_base.specs.HeapContent.{named_by, link_of, words_of, no_links, room_left, next_address, with_object, with_link, changed_at};
    ghost use Rattle.hg_base.specs.PlainObjects.{objects_in, frames_in, Stands, word_of, payload_under, links_under, link_under, words_under, after_loan};

    /// The frame of the page at a place.
    fn frame(&self, page: usize) -> u32
        requires { page ≤ 65536 }
        ensures frame { result ≡ (self.now.first + page) % 65536 }
        ensures low { result < 65536 }
    {
        ((self.first as u64 + page as u64) % 65_536) as u32
    }

    /// The object under an address.
    fn find(&self, a: Addr) -> Option<Found>
        requires few { length self.now.layout.items ≤ 65536 }
        ensures number { option_map (λ f. f.number) result ≡ named_by (objects_in self.now) (frames_in self.now) a.word }
        ensures stands { IfSome result (λ f. Stands self.now a.word f.page f.index f.number) }
    {
        let mut before = 0;
        for page in 0..self.layout.len() {
            let base = self.frame(page) as u64 * 4096;
            let objects = &self.layout[page];
            if let Some(index) = objects.find(base, a.word) {
                return Some(Found {
                    page,
                    index,
                    number: before + index,
                });
            }
            before += objects.len();
        }
        None
    }

    /// The address of the object of that number.
    fn address(&self, number: usize) -> Addr
        requires few { length self.now.layout.items ≤ 65536 }
        ensures { result.word ≡ address_of (objects_in self.now) (frames_in self.now) number }
    {
        let mut left = number;
        for page in 0..self.layout.len() {
            let objects = &self.layout[page];
            let count = objects.len();
            if left < count {
                let frame = FrameNo(self.frame(page));
                return Addr::of(frame, objects.offset(left) as u16);
            }
            left -= count;
        }
        Addr::nil()
    }

    /// The address that a link leads to.
    fn word_of(&self, link: Option<usize>) -> Addr
        requires few { length self.now.layout.items ≤ 65536 }
        ensures { result.word ≡ word_of self.now link }
    {
        match link {
            Some(number) => self.address(number),
            None => Addr::nil(),
        }
    }

    /// The link that an address stands for.
    fn link_of(&self, a: Addr) -> Option<usize>
        requires few { length self.now.layout.items ≤ 65536 }
        ensures { result ≡ link_of (objects_in self.now) (frames_in self.now) a.word }
    {
        if a.is_nil() {
            return None;
        }
        match self.find(a) {
            Some(found) => Some(found.number),
            None => None,
        }
    }

    /// The payload of the row under an address.
    pub(crate) fn payload(&self, a: Addr) -> Option<&[u8]>
        requires few { length self.now.layout.items ≤ 65536 }
        ensures { MatchOption result (payload_under self.now a.word ≡ None) (λ b. payload_under self.now a.word ≡ Some b.now) }
    {
        match self.find(a) {
            Some(found) => self.layout[found.page].payload(found.index),
            None => None,
        }
    }

    /// The links of the directory under an address.
    pub(crate) fn links(&self, a: Addr) -> Option<&[Option<usize>]>
        requires few { length self.now.layout.items ≤ 65536 }
        ensures links { MatchOption result (links_under self.now a.word ≡ None) (λ l. links_under self.now a.word ≡ Some l.now) }
        ensures few { IfSome result (λ l. length l.now ≤ 504) }
    {
        match self.find(a) {
            Some(found) => self.layout[found.page].links(found.index),
            None => None,
        }
    }

    /// The address that the row under an address leads to.
    pub(crate) fn follow(&self, a: Addr) -> Addr
        requires few { length self.now.layout.items ≤ 65536 }
        requires row { IsSome (payload_under self.now a.word) }
        ensures { link_under self.now a.word ≡ Some result.word }
    {
        match self.find(a) {
            Some(found) => self.word_of(self.layout[found.page].link(found.index)),
            None => unreachable!(),
        }
    }

    /// How many links the directory under an address has.
    pub(crate) fn count(&self, a: Addr) -> Option<u16>
        requires few { length self.now.layout.items ≤ 65536 }
        ensures { result ≡ option_map length (words_under self.now a.word) }
    {
        match self.links(a) {
            Some(links) => Some(links.len() as u16),
            None => None,
        }
    }

    /// An address of the directory under an address.
    pub(crate) fn word(&self, a: Addr, k: u16) -> Addr
        requires few { length self.now.layout.items ≤ 65536 }
        requires there { HasWord (words_under self.now a.word) k }
        ensures { IsWordAt (words_under self.now a.word) k result.word }
    {
        match self.links(a) {
            Some(links) => self.word_of(links[k as usize]),
            None => unreachable!(),
        }
    }

    /// The address that a root leads to.
    pub(crate) fn root(&self, k: u8) -> Addr
        requires few { length self.now.layout.items ≤ 65536 }
        requires four { k < 4 }
        ensures { slice_get (words_of (objects_in self.now) (frames_in self.now) self.now.roots) k ≡ Some result.word }
    {
        self.word_of(self.roots[k as usize])
    }

    /// The bytes that are free on the last page, and that page's place.
    fn room(&self) -> Option<Room>
        requires few { length self.now.layout.items ≤ 65536 }
        ensures none { IfNone result (room_left self.now.layout.items ≡ 0) }
        ensures last { IfSome result (λ r. r.page + 1 ≡ length self.now.layout.items) }
        ensures free { IfSome result (λ r. r.free ≡ room_left self.now.layout.items) }
        ensures next { IfSome result (λ r. r.next.word ≡ next_address self.now.layout.items (frames_in self.now)) }
    {
        let count = self.layout.len();
        if count == 0 {
            return None;
        }
        let page = count - 1;
        let end = self.layout[page].end();
        let frame = FrameNo(self.frame(page));
        Some(Room {
            page,
            free: 4096 - end,
            next: Addr {
                word: frame.0 as u64 * 4096 + end as u64,
            },
        })
    }

    /// Places a row behind the last object.
    pub(crate) fn place(&mut self, payload: &[u8], link: Addr) -> Result<Addr, NoRoom>
        requires few { length self.old.layout.items ≤ 65536 }
        requires short { length payload.now ≤ 3920 }
        ensures room { IsOk result ↔ (object_size (row_object payload.now None) ≤ room_left self.old.layout.items) }
        ensures address { IfOk result (λ a. a.word ≡ next_address self.old.layout.items (frames_in self.old)) }
        ensures ok { OnOk result (objects_in self.new ≡ with_object (objects_in self.old) (row_object payload.now (link_of (objects_in self.old) (frames_in self.old) link.word))) }
        ensures frames { self.new.first ≡ self.old.first }
        ensures err { OnErr result (self.new ≡ self.old) }
    {
        let link = self.link_of(link);
        let size = 16 + 16 * ((payload.len() + 15) / 16);
        let Some(room) = self.room() else {
            return Err(NoRoom);
        };
        if room.free < size {
            return Err(NoRoom);
        }
        let page = &mut self.layout[room.page];
        page.push_row(payload, link);
        Ok(room.next)
    }

    /// Places a directory of so many links to nothing behind the last object.
    pub(crate) fn place_words(&mut self, count: u16) -> Result<Addr, NoRoom>
        requires few { length self.old.layout.items ≤ 65536 }
        ensures room { IsOk result ↔ (object_size (directory (no_links count)) ≤ room_left self.old.layout.items) }
        ensures address { IfOk result (λ a. a.word ≡ next_address self.old.layout.items (frames_in self.old)) }
        ensures ok { OnOk result (objects_in self.new ≡ with_object (objects_in self.old) (directory (no_links count))) }
        ensures frames { self.new.first ≡ self.old.first }
        ensures err { OnErr result (self.new ≡ self.old) }
    {
        let size = 16 + 16 * ((8 * count as usize + 15) / 16);
        let Some(room) = self.room() else {
            return Err(NoRoom);
        };
        if room.free < size {
            return Err(NoRoom);
        }
        let page = &mut self.layout[room.page];
        page.push_directory(count as usize);
        Ok(room.next)
    }

    /// Sets an address of the directory under an address.
    pub(crate) fn set_word(&mut self, a: Addr, k: u16, to: Addr)
        requires few { length self.old.layout.items ≤ 65536 }
        requires there { HasWord (words_under self.old a.word) k }
        ensures objects { objects_in self.new ≡ changed_at (with_link k (link_of (objects_in self.old) (frames_in self.old) to.word)) (frames_in self.old) a.word (objects_in self.old) }
        ensures frames { self.new.first ≡ self.old.first }
    {
        let to = self.link_of(to);
        match self.find(a) {
            Some(found) => {
                let page = &mut self.layout[found.page];
                page.set_link(found.index, k as usize, to);
            }
            None => unreachable!(),
        }
    }

    /// Sets a root.
    pub(crate) fn set_root(&mut self, k: u8, to: Addr)
        requires few { length self.old.layout.items ≤ 65536 }
        requires four { k < 4 }
        ensures objects { objects_in self.new ≡ record { layout = self.old.layout.items; roots = slice_set self.old.roots k (link_of (objects_in self.old) (frames_in self.old) to.word) } }
        ensures frames { self.new.first ≡ self.old.first }
    {
        self.roots[k as usize] = self.link_of(to);
    }

    /// The payload of the row under an address, to be written.
    pub(crate) fn payload_mut(&mut self, a: Addr) -> &mut [u8]
        requires few { length self.old.layout.items ≤ 65536 }
        requires row { IsSome (payload_under self.old a.word) }
        ensures* lends { sem 𝓛 (LendsBytes the_row self.entry result (after_loan self.old a.word)) }
        ensures value { payload_under self.old a.word ≡ Some result.now }
    {
        match self.find(a) {
            Some(found) => {
                let page = &mut self.layout[found.page];
                page.payload_mut(found.index)
            }
            None => unreachable!(),
        }
    }
}
