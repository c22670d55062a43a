//! The buffer in which reply lines wait for the sink.
ghost use Rattle.std.specs.Prelude.{◌≡◌, false, ◌≤◌, ◌+◌, ◌^◌, ◌<◌, [], ◌∷◌, ◌++◌, length, OnOk, OnErr, ◌||◌};
ghost use Rattle.arrayvec.specs.ArrayVec.{array_vec_len};
ghost use Rattle.hg_io.specs.Bytes.{then};
ghost use Rattle.hg_io.specs.Count.{CountsFaults};
ghost use Rattle.hg_serve.specs.Output.{WritesFront, Passes, Breaks};

use arrayvec::ArrayVec;
use hg_io::{Failed, Sink};
use hg_reply::Reply;

/// The bytes that wait for the sink at most: those of two replies.
pub const BUFFER_BYTES: usize = 32_768;

/// Reply lines that were not yet written, and whether an error line was among all so far.
#[derive(Drop)]
pub struct Output {
    pub bytes: ArrayVec<u8, BUFFER_BYTES>,
    pub errors: bool,
}

impl Output {
    pub fn new() -> Output
        ensures bytes { result.bytes.items ≡ [] }
        ensures errors { result.errors ≡ false }
    {
        Output {
            bytes: ArrayVec::new(),
            errors: false,
        }
    }

    /// Writes what waits to the sink.
    pub fn flush<K: Sink>(&mut self, sink: &mut K) -> Result<(), Failed>
        ensures ok { OnOk result (Passes (K.written sink.old) (K.written sink.new) self.old.bytes.items [] []) }
        ensures empty { OnOk result (self.new.bytes.items ≡ []) }
        ensures part { OnErr result (Breaks (K.written sink.old) (K.written sink.new) self.old.bytes.items []) }
        ensures kept { OnErr result (self.new ≡ self.old) }
        ensures few { array_vec_len self.old.bytes ≤ 49152 }
        ensures errors { self.new.errors ≡ self.old.errors }
        ensures cause { CountsFaults (K.faults sink.old) (K.faults sink.new) result }
    {
        write_all(sink, self.bytes.as_slice())?;
        self.bytes.clear();
        Ok(())
    }

    /// Writes what waits to the sink where it leaves no room for so many bytes.
    fn make_room<K: Sink>(&mut self, bytes: usize, sink: &mut K) -> Result<(), Failed>
        requires { bytes ≤ 16384 }
        ensures waits { array_vec_len self.old.bytes + bytes ≤ 32768 → sink.new ≡ sink.old }
        ensures ok { OnOk result (Passes (K.written sink.old) (K.written sink.new) self.old.bytes.items self.new.bytes.items []) }
        ensures room { OnOk result (array_vec_len self.new.bytes + bytes ≤ 32768) }
        ensures few { array_vec_len self.old.bytes ≤ 32768 }
        ensures part { OnErr result (Breaks (K.written sink.old) (K.written sink.new) self.old.bytes.items []) }
        ensures kept { OnErr result (self.new ≡ self.old) }
        ensures errors { self.new.errors ≡ self.old.errors }
        ensures cause { CountsFaults (K.faults sink.old) (K.faults sink.new) result }
    {
        if self.bytes.len() + bytes <= BUFFER_BYTES {
            return Ok(());
        }
        self.flush(sink)?;
        Ok(())
    }

    /// Puts a reply behind the others. What waited goes to the sink first where it leaves no room, and
    /// else nothing is written.
    pub fn put<K: Sink>(&mut self, reply: &Reply, sink: &mut K) -> Result<(), Failed>
        ensures waits { array_vec_len self.old.bytes + array_vec_len reply.now.text ≤ 32768 → sink.new ≡ sink.old }
        ensures ok { OnOk result (Passes (K.written sink.old) (K.written sink.new) self.old.bytes.items self.new.bytes.items reply.now.text.items) }
        ensures errors { OnOk result (self.new.errors ≡ (self.old.errors || reply.now.has_error)) }
        ensures part { OnErr result (Breaks (K.written sink.old) (K.written sink.new) self.old.bytes.items reply.now.text.items) }
        ensures kept { OnErr result (self.new ≡ self.old) }
        ensures few { array_vec_len self.old.bytes + array_vec_len reply.now.text ≤ 49152 }
        ensures cause { CountsFaults (K.faults sink.old) (K.faults sink.new) result }
    {
        let text = reply.text.as_slice();
        self.make_room(text.len(), sink)?;
        let _ = self.bytes.try_extend_from_slice(text);
        self.errors = self.errors || reply.has_error;
        Ok(())
    }
}

/// Writes all bytes to the sink. Where the sink fails, a front of them was written.
fn write_all<K: Sink>(sink: &mut K, bytes: &[u8]) -> Result<(), Failed>
    ensures ok { OnOk result (K.written sink.new ≡ then (K.written sink.old) bytes.now) }
    ensures part { OnErr result (WritesFront (K.written sink.old) (K.written sink.new) bytes.now) }
    ensures cause { CountsFaults (K.faults sink.old) (K.faults sink.new) result }
{
    let mut at = 0;
    while at < bytes.len() {
        let (_, rest) = bytes.split_at(at);
        at += sink.write(rest)?;
    }
    Ok(())
}
