// Frames that are out of their region, in an order of their own.
ghost use Rattle.std.specs.Prelude.{◌≡◌, ℕ, ◌+◌, ◌<◌, ◌≤◌, ◌++◌, ◌==◌, ◌&&◌, ◌||◌, not, if◌then◌else◌, List, [], ◌∷◌, length, take, drop, true, false, IsTrue};
ghost use Rattle.std.specs.Borrow.{sem};
ghost use Rattle.hg_raw.specs.Frames.{ChainSeen, Has, bytes_of, numbers, is_in, distinct, without, with_bytes};
ghost use Rattle.hg_raw.specs.Links.{first_of, from, behind, before, nil, half, word, relinked, marked};

use crate::shell::WORD;
use crate::slots::Slots;
use hg_base::{FrameNo, get_u32, put_u32};
use std::marker::Model;

// Where the number of the frame before, and that of the frame behind, stand in a word.
const BEFORE: usize = 0;

const BEHIND: usize = 4;

// In place of a frame before or behind where there is none. No frame has this number.
pub(crate) const NIL: u32 = u32::MAX;

/// A list of frames of one region, with their bytes, 4,096 each. It is spent by
/// `Region::give_back` or by a `join`, also where it has no frame.
pub struct Chain {
    // One word a frame: the number of the one before it, and that of the one behind it, or `NIL`.
    pub(crate) words: Slots,
    pub(crate) pages: Slots,
    // How many frames its region has.
    pub(crate) frames: u32,
    // `NIL` where the chain has no frame.
    pub(crate) first: u32,
    pub(crate) last: u32,
}

impl Model for Chain {
    ghost use Rattle.hg_raw.specs.Frames.{ChainSeen};

    ghost Value = { ChainSeen };

    ghost use Rattle.hg_raw.specs.ChainParts.{chain_seen, IsChain};

    ghost view = { chain_seen };

    ghost invariant = { IsChain };
}

impl Chain {
    ghost use Rattle.hg_raw.specs.Lending.{LendsPage};

    /// The bytes of frame `f`.
    pub fn page(&self, f: FrameNo) -> &[u8]
        requires { Has self.now f.0 }
        ensures bytes { result.now ≡ bytes_of self.now.frames f.0 }
        ensures len { length result.now ≡ 4096 }
    {
        self.pages.get(f.0 as usize)
    }

    /// The bytes of frame `f`, to be written. All others stay.
    pub fn page_mut(&mut self, f: FrameNo) -> &mut [u8]
        requires { Has self.old f.0 }
        ensures* lends { sem 𝓛 (LendsPage self.entry f.0 result) }
        ensures bytes { result.now ≡ bytes_of self.old.frames f.0 }
        ensures len { length result.now ≡ 4096 }
    {
        self.pages.get_mut(f.0 as usize)
    }

    /// Puts the other's frames behind its own. No frame is in two chains.
    pub fn join(&mut self, other: Chain)
        requires { other.region ≡ self.old.region }
        ensures frames { self.new ≡ record { region = self.old.region; frames = self.old.frames ++ other.frames } }
        ensures distinct { distinct (numbers self.new.frames) ≡ true }
        ensures has { (k : ℕ) → is_in k (numbers self.new.frames) ≡ (is_in k (numbers self.old.frames) || is_in k (numbers other.frames)) }
        ensures bytes { (k : ℕ) → bytes_of self.new.frames k ≡ (if is_in k (numbers self.old.frames) then bytes_of self.old.frames k else bytes_of other.frames k) }
    {
        let Chain {
            mut words,
            pages,
            frames: _,
            first,
            last,
        } = other;
        link(&mut self.words, self.last, BEHIND, first);
        link(&mut words, first, BEFORE, self.last);
        self.first = replaced(self.first, NIL, first);
        self.last = replaced(last, NIL, self.last);
        self.words.append(words);
        self.pages.append(pages);
    }

    /// Takes frame `f` out. The others stay in their order, and none of them but its neighbours is
    /// touched.
    pub fn split(&mut self, f: FrameNo) -> Chain
        requires { Has self.old f.0 }
        ensures one { result ≡ record { region = self.old.region; frames = (f.0, bytes_of self.old.frames f.0) ∷ [] } }
        ensures others { self.new ≡ record { region = self.old.region; frames = without self.old.frames f.0 } }
        ensures has_one { Has result f.0 × (bytes_of result.frames f.0 ≡ bytes_of self.old.frames f.0) }
        ensures has_others { (k : ℕ) → is_in k (numbers self.new.frames) ≡ (is_in k (numbers self.old.frames) && not (k == f.0)) }
        ensures bytes { (k : ℕ) → (k ≡ f.0 → ⊥) → bytes_of self.new.frames k ≡ bytes_of self.old.frames k }
    {
        let before = self.previous(f.0);
        let next = self.next(f.0);
        link(&mut self.words, before, BEHIND, next);
        link(&mut self.words, next, BEFORE, before);
        self.first = replaced(self.first, f.0, next);
        self.last = replaced(self.last, f.0, before);
        let mut words = self.words.cut(f.0 as usize);
        clear_word(&mut words, f.0);
        let pages = self.pages.cut(f.0 as usize);
        Chain {
            words,
            pages,
            frames: self.frames,
            first: f.0,
            last: f.0,
        }
    }

    /// The frame behind `at`, or `NIL`.
    pub(crate) fn next(&self, at: u32) -> u32
        requires { Has self.now at }
        ensures next { result ≡ first_of (behind at (numbers self.now.frames)) }
        ensures rest { from result (numbers self.now.frames) ≡ behind at (numbers self.now.frames) }
        ensures below { at < self.now.region.frames }
    {
        get_half(&self.words, at, BEHIND)
    }

    /// Sets the flag of each frame.
    pub(crate) fn mark(&self, flags: &mut [bool])
        requires { self.now.region.frames ≡ length flags.old }
        ensures { flags.new ≡ marked flags.old (numbers self.now.frames) }
    {
        let mut at = self.first;
        while at != NIL {
            let next = self.next(at);
            flags[at as usize] = true;
            at = next;
        }
    }

    // The frame before `f`, or `NIL`.
    fn previous(&self, f: u32) -> u32
        requires { Has self.now f }
        ensures { result ≡ before nil (numbers self.now.frames) f }
    {
        get_half(&self.words, f, BEFORE)
    }
}

// One of the two numbers in the word of frame `n`.
fn get_half(words: &Slots, n: u32, at: usize) -> u32
    requires there { length (bytes_of words.now.held n) ≡ 8 }
    requires size { words.now.size ≡ 8 }
    requires inside { at + 4 ≤ 8 }
    ensures { half result ≡ take 4 (drop at (bytes_of words.now.held n)) }
{
    get_u32(words.get(n as usize), at)
}

// Writes one of the two numbers in the word of frame `from`, where `from` is a frame.
fn link(words: &mut Slots, from: u32, at: usize, to: u32)
    requires there { (from ≡ nil → ⊥) → length (bytes_of words.old.held from) ≡ 8 }
    requires no_nil { is_in nil (numbers words.old.held) ≡ false }
    requires size { words.old.size ≡ 8 }
    requires inside { at + 4 ≤ 8 }
    ensures { words.new ≡ record { base = words.old.base; size = 8; held = relinked words.old.held from at to } }
{
    if from != NIL {
        put_u32(words.get_mut(from as usize), at, to);
    }
}

fn replaced(number: u32, old: u32, new: u32) -> u32
    ensures { result ≡ (if number == old then new else number) }
{
    if number == old { new } else { number }
}

// Writes the word of a frame that has none before it and none behind it.
pub(crate) fn clear_word(words: &mut Slots, n: u32)
    requires there { length (bytes_of words.old.held n) ≡ 8 }
    requires size { words.old.size ≡ 8 }
    ensures { words.new ≡ record { base = words.old.base; size = 8; held = with_bytes words.old.held n (word nil nil) } }
{
    let bytes = words.get_mut(n as usize);
    bytes.copy_from_slice(&[255; WORD]);
}
