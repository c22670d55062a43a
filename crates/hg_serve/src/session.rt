//! A session: the reply lines that wait, the line at hand, and the way of a line through the engine.
ghost use Rattle.std.specs.Prelude.{◌≡◌, ◌≤◌, ◌+◌, ◌↔◌, ◌∷◌, ◌++◌, ℕ, List, true, false, take, length, OnOk, OnErr, IfSome, IfNone};
ghost use Rattle.arrayvec.specs.ArrayVec.{array_vec_len};
ghost use Rattle.hg_io.specs.Count.{CountsFaults};
ghost use Rattle.hg_machine.specs.Plain.Replies.{ReplyLine as Said, line_text, is_error};
ghost use Rattle.hg_parse.specs.Kept.{kept};
ghost use Rattle.hg_parse.specs.Statements.{tree_in};
ghost use Rattle.hg_reply.specs.Asked.{IsReadAs};
ghost use Rattle.hg_reply.specs.Plain.{line_of, IsKnown};
ghost use Rattle.hg_reply.specs.Steps.{Says, Moves, NoneFell, BeginsRead};
ghost use Rattle.hg_serve.specs.Asking.{Beginning};
ghost use Rattle.hg_serve.specs.Output.{moment, Tells};
ghost use Rattle.hg_serve.specs.Session.{BreaksOff, Finishing, StoppingTurns, StopsWork};
ghost use Rattle.hg_serve.specs.Serving.{HasNoFeed};

use crate::asking::{LINE_TOO_LONG, asked_in, refusal};
use crate::lines::{LINE_LIMIT, text};
use crate::output::Output;
use crate::statuses::Status;
use arrayvec::ArrayVec;
use hg_io::{Failed, Sink};
use hg_parse::{Room, Statement, parse_into};
use hg_reply::{Machine, Next, Reply, ReplyLine};
use memchr::memchr;

/// Says one line and nothing else.
fn say_alone(reply: &mut Reply, line: &ReplyLine) -> Next
    requires known { IsKnown line.now }
    ensures done { result ≡ Next.Done }
    ensures text { reply.new.text.items ≡ line_text (line_of line.now) }
    ensures errors { reply.new.has_error ≡ is_error (line_of line.now) }
{
    reply.clear();
    reply.say(line);
    Next::Done
}

/// Asks the engine for the command that a line was read as.
fn ask<E: Machine>(engine: &mut E, statement: &Statement, room: &Room, reply: &mut Reply) -> Next
    requires idle { E.pending engine.old ≡ false }
    requires read { IsReadAs (E.frames engine.old) (tree_in statement.now (kept room.now)) (kept room.now).texts }
    ensures step { (lines : List Said) × Says reply.new (E.faults engine.old) (E.faults engine.new) lines
        × Moves E.stands engine.old engine.new (BeginsRead (E.tells engine.old) (tree_in statement.now (kept room.now)) (kept room.now).texts) lines }
    ensures said { E.said engine.new ≤ E.said engine.old + array_vec_len reply.new.text }
    ensures more { (result ≡ Next.More) ↔ (E.pending engine.new ≡ true) }
    ensures later { NoneFell (E.faults engine.old) (E.faults engine.new) }
    ensures tells_stay { E.tells engine.new ≡ E.tells engine.old }
{
    let asked = asked_in(statement, room);
    engine.answer(&asked, reply)
}

/// The immediate replies of a line, of which `line` has the first 4,097 bytes. `room` is what it is read
/// into.
fn begin<E: Machine>(
    engine: &mut E,
    line: &[u8],
    ended: bool,
    room: &mut Room,
    reply: &mut Reply,
) -> Next
    requires idle { E.pending engine.old ≡ false }
    ensures step { (whole : List ℕ) → line.now ≡ take 4097 whole → (lines : List Said) × Says reply.new (E.faults engine.old) (E.faults engine.new) lines
        × Moves E.stands engine.old engine.new (Beginning (E.tells engine.old) (record { bytes = whole; ended = ended })) lines }
    ensures said { E.said engine.new ≤ E.said engine.old + array_vec_len reply.new.text }
    ensures more { (result ≡ Next.More) ↔ (E.pending engine.new ≡ true) }
    ensures later { NoneFell (E.faults engine.old) (E.faults engine.new) }
    ensures tells_stay { E.tells engine.new ≡ E.tells engine.old }
{
    if line.len() > LINE_LIMIT {
        return say_alone(reply, &LINE_TOO_LONG);
    }
    match parse_into(text(line, ended), engine.max(), room) {
        Ok(None) => {
            reply.clear();
            Next::Done
        }
        Err(error) => say_alone(reply, &refusal(&error)),
        Ok(Some(statement)) => ask(engine, &statement, room, reply),
    }
}

/// Drops the command at work, if one is at work.
fn stop<E: Machine>(engine: &mut E, next: Next)
    requires more { (next ≡ Next.More) ↔ (E.pending engine.old ≡ true) }
    ensures stops { StopsWork E.stands engine.old engine.new }
    ensures idle { E.pending engine.new ≡ false }
    ensures says_nothing { E.said engine.new ≡ E.said engine.old }
    ensures faults_stay { E.faults engine.new ≡ E.faults engine.old }
    ensures tells_stay { E.tells engine.new ≡ E.tells engine.old }
{
    if let Next::More = next {
        engine.drop_command();
    }
}

/// Gives the turns of the command at work to its end. Where the sink fails, no turn is given any more and
/// the command is dropped: what was written is a front of what waited and of the lines of the turns that
/// were given.
fn give_turns<E: Machine, K: Sink>(
    engine: &mut E,
    next: Next,
    reply: &mut Reply,
    output: &mut Output,
    sink: &mut K,
) -> Result<(), Failed>
    requires more { (next ≡ Next.More) ↔ (E.pending engine.old ≡ true) }
    ensures ok { OnOk result ((lines : List Said)
        × Tells (moment (K.written sink.old) (E.faults engine.old) (E.said engine.old)) (moment (K.written sink.new) (E.faults engine.new) (E.said engine.new)) output.old output.new lines
        × Moves E.stands engine.old engine.new (Finishing (E.tells engine.old)) lines) }
    ensures part { OnErr result (BreaksOff E.stands engine.old engine.new (moment (K.written sink.old) (E.faults engine.old) (E.said engine.old))
        (moment (K.written sink.new) (E.faults engine.new) (E.said engine.new)) output.old.bytes.items (StoppingTurns (E.tells engine.old))) }
    ensures idle { E.pending engine.new ≡ false }
    ensures later { NoneFell (E.faults engine.old) (E.faults engine.new) }
    ensures tells_stay { E.tells engine.new ≡ E.tells engine.old }
    ensures cause { CountsFaults (K.faults sink.old) (K.faults sink.new) result }
{
    let mut left = next;
    while let Next::More = left {
        left = engine.more(reply);
        if let Err(Failed) = output.put(reply, sink) {
            stop(engine, left);
            return Err(Failed);
        }
    }
    Ok(())
}

/// The bytes before the first line feed, and those behind it. None where no line feed stands there.
fn cut(bytes: &[u8]) -> Option<(&[u8], &[u8])>
    ensures cut { IfSome result (λ r. (bytes.now ≡ r.0.now ++ 10 ∷ r.1.now) × HasNoFeed r.0.now) }
    ensures none { IfNone result (HasNoFeed bytes.now) }
{
    let at = memchr(b'\n', bytes)?;
    let (front, rest) = bytes.split_at(at);
    let (_, behind) = rest.split_at(1);
    Some((front, behind))
}

/// The first of these bytes, so many at most.
fn front(bytes: &[u8], count: usize) -> &[u8]
    ensures front { result.now ≡ take count bytes.now }
    ensures few { length result.now ≤ count }
{
    if bytes.len() <= count {
        bytes
    } else {
        &bytes[..count]
    }
}

/// The bytes of a line that are kept: one more than it may have, so that a longer one is known.
const KEPT_BYTES: usize = 4097;

/// The reply lines that wait, and the front of the line at hand. Room for what a line is read as, and for
/// the lines of a step, is lent to its calls: each stands once for a whole script, in a place of its own,
/// since a value that holds them all would stand several times on the stack while it is made.
#[derive(Drop)]
pub struct Session {
    output: Output,
    line: ArrayVec<u8, KEPT_BYTES>,
}

impl Session {
    ghost use Rattle.std.specs.Prelude.{◌≡◌, ◌≤◌, ◌∷◌, [], ◌++◌, ℕ, List, true, false, take, OnOk, OnErr};
    ghost use Rattle.arrayvec.specs.ArrayVec.{array_vec_len};
    ghost use Rattle.hg_base.specs.Count.{Rose};
    ghost use Rattle.hg_io.specs.Count.{CountsFaults};
    ghost use Rattle.hg_model.specs.Script.{whole_lines, lines_of};
    ghost use Rattle.hg_serve.specs.Output.{Moment, moment, Passes, Breaks};
    ghost use Rattle.hg_reply.specs.Steps.{NoneFell};
    ghost use Rattle.hg_serve.specs.Session.{StoppingLine, AnswersLine, BreaksOff};
    ghost use Rattle.hg_serve.specs.Serving.{HasNoFeed, Serves, Halts, Finishes, Closes};

    pub fn new() -> Session
        ensures empty { result.output.bytes.items ≡ [] }
        ensures errors { result.output.errors ≡ false }
        ensures line { result.line.items ≡ [] }
    {
        Session {
            output: Output::new(),
            line: ArrayVec::new(),
        }
    }

    /// Answers the line at hand.
    fn answer_line<E: Machine, K: Sink>(
        &mut self,
        ended: bool,
        room: &mut Room,
        reply: &mut Reply,
        engine: &mut E,
        sink: &mut K,
    ) -> Result<(), Failed>
        requires idle { E.pending engine.old ≡ false }
        ensures ok { OnOk result ((whole : List ℕ) → self.old.line.items ≡ take 4097 whole
            → AnswersLine E.stands (E.tells engine.old) engine.old engine.new (moment (K.written sink.old) (E.faults engine.old) (E.said engine.old))
            (moment (K.written sink.new) (E.faults engine.new) (E.said engine.new)) self.old.output self.new.output (record { bytes = whole; ended = ended })) }
        ensures part { OnErr result ((whole : List ℕ) → self.old.line.items ≡ take 4097 whole
            → BreaksOff E.stands engine.old engine.new (moment (K.written sink.old) (E.faults engine.old) (E.said engine.old))
            (moment (K.written sink.new) (E.faults engine.new) (E.said engine.new)) self.old.output.bytes.items (StoppingLine (E.tells engine.old) (record { bytes = whole; ended = ended }))) }
        ensures idle { E.pending engine.new ≡ false }
        ensures later { NoneFell (E.faults engine.old) (E.faults engine.new) }
        ensures tells_stay { E.tells engine.new ≡ E.tells engine.old }
        ensures cause { CountsFaults (K.faults sink.old) (K.faults sink.new) result }
    {
        let line = self.line.as_slice();
        let next = begin(engine, line, ended, room, reply);
        if let Err(Failed) = self.output.put(reply, sink) {
            stop(engine, next);
            return Err(Failed);
        }
        give_turns(engine, next, reply, &mut self.output, sink)?;
        Ok(())
    }

    /// Puts bytes behind the line at hand, as far as they are kept.
    fn keep(&mut self, bytes: &[u8])
        ensures line { (whole : List ℕ) → self.old.line.items ≡ take 4097 whole → self.new.line.items ≡ take 4097 (whole ++ bytes.now) }
        ensures output { self.new.output ≡ self.old.output }
    {
        let front = front(bytes, KEPT_BYTES - self.line.len());
        let _ = self.line.try_extend_from_slice(front);
    }

    /// Takes bytes of the script with a line feed behind them, and answers the line that they end.
    fn take_line<E: Machine, K: Sink>(
        &mut self,
        front: &[u8],
        room: &mut Room,
        reply: &mut Reply,
        engine: &mut E,
        sink: &mut K,
    ) -> Result<(), Failed>
        requires idle { E.pending engine.old ≡ false }
        requires no_feed { HasNoFeed front.now }
        ensures ok { OnOk result ((first : E) (w : Moment) (taken : List ℕ)
            → Serves E.stands (E.tells engine.old) first engine.old w (moment (K.written sink.old) (E.faults engine.old) (E.said engine.old)) self.old taken
            → Serves E.stands (E.tells engine.old) first engine.new w (moment (K.written sink.new) (E.faults engine.new) (E.said engine.new)) self.new (taken ++ (front.now ++ 10 ∷ []))) }
        ensures part { OnErr result ((first : E) (w : Moment) (taken : List ℕ)
            → Serves E.stands (E.tells engine.old) first engine.old w (moment (K.written sink.old) (E.faults engine.old) (E.said engine.old)) self.old taken
            → Halts E.stands (E.tells engine.old) first engine.new w (moment (K.written sink.new) (E.faults engine.new) (E.said engine.new)) (whole_lines (taken ++ (front.now ++ 10 ∷ [])))) }
        ensures idle { E.pending engine.new ≡ false }
        ensures later { NoneFell (E.faults engine.old) (E.faults engine.new) }
        ensures tells_stay { E.tells engine.new ≡ E.tells engine.old }
        ensures cause { CountsFaults (K.faults sink.old) (K.faults sink.new) result }
    {
        self.keep(front);
        if let Err(Failed) = self.answer_line(true, room, reply, engine, sink) {
            return Err(Failed);
        }
        self.line.clear();
        Ok(())
    }

    /// Takes bytes of the script, and answers the lines that they end.
    pub fn feed<E: Machine, K: Sink>(
        &mut self,
        bytes: &[u8],
        room: &mut Room,
        reply: &mut Reply,
        engine: &mut E,
        sink: &mut K,
    ) -> Result<(), Failed>
        requires idle { E.pending engine.old ≡ false }
        ensures ok { OnOk result ((first : E) (w : Moment) (taken : List ℕ)
            → Serves E.stands (E.tells engine.old) first engine.old w (moment (K.written sink.old) (E.faults engine.old) (E.said engine.old)) self.old taken
            → Serves E.stands (E.tells engine.old) first engine.new w (moment (K.written sink.new) (E.faults engine.new) (E.said engine.new)) self.new (taken ++ bytes.now)) }
        ensures part { OnErr result ((first : E) (w : Moment) (taken : List ℕ)
            → Serves E.stands (E.tells engine.old) first engine.old w (moment (K.written sink.old) (E.faults engine.old) (E.said engine.old)) self.old taken
            → Halts E.stands (E.tells engine.old) first engine.new w (moment (K.written sink.new) (E.faults engine.new) (E.said engine.new)) (whole_lines (taken ++ bytes.now))) }
        ensures idle { E.pending engine.new ≡ false }
        ensures later { NoneFell (E.faults engine.old) (E.faults engine.new) }
        ensures tells_stay { E.tells engine.new ≡ E.tells engine.old }
        ensures cause { CountsFaults (K.faults sink.old) (K.faults sink.new) result }
    {
        let mut rest = bytes;
        while let Some((front, behind)) = cut(rest) {
            if let Err(Failed) = self.take_line(front, room, reply, engine, sink) {
                return Err(Failed);
            }
            rest = behind;
        }
        self.keep(rest);
        Ok(())
    }

    /// Writes the reply lines that wait.
    pub fn flush<K: Sink>(&mut self, sink: &mut K) -> Result<(), Failed>
        ensures ok { OnOk result (Passes (K.written sink.old) (K.written sink.new) self.old.output.bytes.items [] []) }
        ensures empty { OnOk result (self.new.output.bytes.items ≡ []) }
        ensures part { OnErr result (Breaks (K.written sink.old) (K.written sink.new) self.old.output.bytes.items []) }
        ensures few { array_vec_len self.old.output.bytes ≤ 49152 }
        ensures errors { self.new.output.errors ≡ self.old.output.errors }
        ensures line { self.new.line ≡ self.old.line }
        ensures cause { CountsFaults (K.faults sink.old) (K.faults sink.new) result }
    {
        self.output.flush(sink)?;
        Ok(())
    }

    /// Writes the reply lines that wait at the end of the script.
    fn finish<K: Sink>(&mut self, sink: &mut K) -> Status
        ensures finishes { Finishes (K.written sink.old) (K.written sink.new) self.old.output result }
        ensures later { K.faults sink.old ≤ K.faults sink.new }
        ensures cause { result ≡ Status.SinkFault → Rose (K.faults sink.old) (K.faults sink.new) }
    {
        if let Err(Failed) = self.output.flush(sink) {
            return Status::SinkFault;
        }
        if self.output.errors {
            Status::Errors
        } else {
            Status::Clean
        }
    }

    /// Answers a last line that no line feed ends, and closes the session.
    pub fn end<E: Machine, K: Sink>(
        &mut self,
        room: &mut Room,
        reply: &mut Reply,
        engine: &mut E,
        sink: &mut K,
    ) -> Status
        requires idle { E.pending engine.old ≡ false }
        ensures closes { (first : E) (w : Moment) (taken : List ℕ)
            → Serves E.stands (E.tells engine.old) first engine.old w (moment (K.written sink.old) (E.faults engine.old) (E.said engine.old)) self.old taken
            → Closes E.stands (E.tells engine.old) first engine.new w (moment (K.written sink.new) (E.faults engine.new) (E.said engine.new)) (lines_of taken) result }
        ensures idle { E.pending engine.new ≡ false }
        ensures later { NoneFell (E.faults engine.old) (E.faults engine.new) }
        ensures tells_stay { E.tells engine.new ≡ E.tells engine.old }
        ensures sink_later { K.faults sink.old ≤ K.faults sink.new }
        ensures cause { result ≡ Status.SinkFault → Rose (K.faults sink.old) (K.faults sink.new) }
    {
        if self.line.is_empty() {
            return self.finish(sink);
        }
        if let Err(Failed) = self.answer_line(false, room, reply, engine, sink) {
            return Status::SinkFault;
        }
        self.finish(sink)
    }
}
