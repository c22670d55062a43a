//! The heaps of a plain space, as the layers above call them.

use crate::plain::PlainSpace;
use crate::{Addr, File, Grant, HeapNo, Heaps, NoRoom, PageFault, Request};

impl Heaps for PlainSpace {
    ghost use Rattle.hg_base.specs.PlainLoans.{after_payload_of, writes_payload_of};

    ghost after_payload = { after_payload_of };

    fn make(&mut self, grant: Grant) -> Result<HeapNo, (PageFault, Grant)> {
        let Some(no) = self.parts.unused(File::Temp) else {
            return Err((self.parts.count_full(File::Temp), grant));
        };
        match self.parts.make_heap(no, grant.request()) {
            Ok(h) => {
                grant.spend();
                Ok(h)
            }
            Err(_) => Err((self.parts.count_refused(), grant)),
        }
    }

    fn add_page(&mut self, h: HeapNo, grant: Grant) -> Result<(), (PageFault, Grant)> {
        let Some(no) = self.parts.unused(File::Temp) else {
            return Err((self.parts.count_full(File::Temp), grant));
        };
        match self.parts.add_heap_page(h, no) {
            Ok(()) => {
                grant.spend();
                Ok(())
            }
            Err(_) => Err((self.parts.count_refused(), grant)),
        }
    }

    fn place(&mut self, h: HeapNo, payload: &[u8], link: Addr) -> Result<Addr, NoRoom> {
        self.parts.place(h, payload, link)
    }

    fn place_words(&mut self, h: HeapNo, n: u16) -> Result<Addr, NoRoom> {
        self.parts.place_words(h, n)
    }

    fn word(&self, h: HeapNo, dir: Addr, k: u16) -> Addr {
        match self.parts.locked(h) {
            Some(objects) => objects.word(dir, k),
            None => unreachable!(),
        }
    }

    fn set_word(&mut self, h: HeapNo, dir: Addr, k: u16, to: Addr) {
        self.parts.set_word(h, dir, k, to);
    }

    fn follow(&self, h: HeapNo, a: Addr) -> Addr {
        match self.parts.locked(h) {
            Some(objects) => objects.follow(a),
            None => unreachable!(),
        }
    }

    fn payload(&self, h: HeapNo, a: Addr) -> &[u8] {
        match self.parts.locked(h) {
            Some(objects) => match objects.payload(a) {
                Some(bytes) => bytes,
                None => unreachable!(),
            },
            None => unreachable!(),
        }
    }

    fn payload_mut(&mut self, h: HeapNo, a: Addr) -> &mut [u8] {
        self.parts.payload_mut(h, a)
    }

    fn peek(&self, h: HeapNo, a: Addr) -> Option<&[u8]> {
        match self.parts.locked(h) {
            Some(objects) => objects.payload(a),
            None => None,
        }
    }

    fn words(&self, h: HeapNo, a: Addr) -> Option<u16> {
        match self.parts.locked(h) {
            Some(objects) => objects.count(a),
            None => None,
        }
    }

    fn root(&self, h: HeapNo, k: u8) -> Addr {
        match self.parts.locked(h) {
            Some(objects) => objects.root(k),
            None => unreachable!(),
        }
    }

    fn set_root(&mut self, h: HeapNo, k: u8, to: Addr) {
        self.parts.set_root(h, k, to);
    }

    fn lock(&mut self, h: HeapNo) -> Result<(), PageFault> {
        self.parts.lock(h);
        Ok(())
    }

    fn unlock(&mut self, h: HeapNo) {
        self.parts.unlock(h);
    }

    fn drain(&mut self, h: HeapNo, out: &mut [u8]) -> Result<Grant, PageFault> {
        let request = self.parts.request_of(h);
        self.parts.drain(h, out);
        Ok(Grant::of(request, 1))
    }

    fn drop_heap(&mut self, h: HeapNo) -> Grant {
        let request = self.parts.request_of(h);
        let pages = self.parts.heap_pages(h);
        self.parts.drop_heap(h);
        Grant::of(request, pages)
    }

    fn pages(&self, h: HeapNo) -> u32 {
        self.parts.heap_pages(h)
    }

    fn peak(&self, r: Request) -> u32 {
        self.parts.peak(r)
    }

    ghost writes_payload = { writes_payload_of };
}
