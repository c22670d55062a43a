//! Reads a script, answers its lines and closes the session.
ghost use Rattle.std.specs.Prelude.{◌≡◌, ◌≢◌, ◌≤◌, ◌<◌, ◌+◌, ◌-◌, ◌^◌, ◌⊎◌, List, [], ℕ, true, false, IfOk, OnErr, length, min};
ghost use Rattle.hg_base.specs.Count.{raised, Rose};
ghost use Rattle.hg_io.specs.Count.{CountsFaults};
ghost use Rattle.hg_io.specs.Bytes.{Reads};
ghost use Rattle.hg_machine.specs.Plain.State.{State};
ghost use Rattle.hg_engine.specs.Shown.{IsEngineOf, faults_of, is_pending, said_by_engine, tells_of};
ghost use Rattle.hg_machine.specs.Plain.Outcome.{Took, AnswersAll, AnswersWholeLines, AnswersUpToLimit, AnswersInPart};
ghost use Rattle.hg_reply.specs.Steps.{NoneFell};
ghost use Rattle.hg_serve.specs.Ending.{Ends, ReadsSome, TakesSoMany, outside};
ghost use Rattle.hg_serve.specs.Output.{Stops, moment};
ghost use Rattle.hg_serve.specs.Run.{Reaches, StopsAt};

use crate::session::Session;
use crate::statuses::Status;
use hg_engine::Engine;
use hg_io::{Failed, PageDevice, Sink, Source};
use hg_parse::Room;
use hg_reply::{Machine, Reply};

/// How many bytes of a script are taken at most.
const SCRIPT_LIMIT: u64 = 1 << 32;

/// How many bytes are read at a time at most.
const READ_BYTES: usize = 4096;

/// Reads the next bytes of the script into the front of `buffer`, `room` at most.
fn read_some<S: Source>(source: &mut S, buffer: &mut [u8], room: usize) -> Result<usize, Failed>
    requires { room ≤ length buffer.old }
    ensures bound { IfOk result (λ n. n ≤ room) }
    ensures bytes { ReadsSome (S.left source.old) (S.left source.new) result buffer.new room }
    ensures given { IfOk result (λ n. S.given source.new ≡ raised (S.given source.old) n) }
    ensures given_stays { OnErr result (S.given source.new ≡ S.given source.old) }
    ensures cause { CountsFaults (S.faults source.old) (S.faults source.new) result }
{
    source.read(&mut buffer[..room])
}

/// Serves the script of the source to its end, to its limit, or until source or sink fails. The reply
/// lines that wait are written before the source is asked for more. Lines are read into `statement_room`.
#[inline(never)]
pub fn read_and_answer<E: Machine, S: Source, K: Sink>(
    engine: &mut E,
    source: &mut S,
    sink: &mut K,
    statement_room: &mut Room,
) -> Status
    requires idle { E.pending engine.old ≡ false }
    ensures ends { (first : State) → E.stands engine.old first → Ends (Reaches E.stands (E.tells engine.old) engine.new first) (StopsAt E.stands (E.tells engine.old) engine.new first)
        (outside (S.left source.old) (S.given source.old) (K.written sink.old) (E.faults engine.old))
        (outside (S.left source.new) (S.given source.new) (K.written sink.new) (E.faults engine.new)) result }
    ensures bytes { (taken : List ℕ) × TakesSoMany result (length taken)
        × Took (outside (S.left source.old) (S.given source.old) (K.written sink.old) (E.faults engine.old))
        (outside (S.left source.new) (S.given source.new) (K.written sink.new) (E.faults engine.new)) taken }
    ensures source_fault { result ≡ Status.SourceFault → Rose (S.faults source.old) (S.faults source.new) }
    ensures sink_fault { result ≡ Status.SinkFault → Rose (K.faults sink.old) (K.faults sink.new) }
    ensures stops { result ≡ Status.SinkFault → Stops (moment (K.written sink.old) (E.faults engine.old) (E.said engine.old))
        (moment (K.written sink.new) (E.faults engine.new) (E.said engine.new)) [] }
    ensures idle { E.pending engine.new ≡ false }
    ensures tells_stay { E.tells engine.new ≡ E.tells engine.old }
    ensures later { NoneFell (E.faults engine.old) (E.faults engine.new) }
    ensures source_later { S.faults source.old ≤ S.faults source.new }
    ensures sink_later { K.faults sink.old ≤ K.faults sink.new }
{
    let mut reply = Reply::new();
    let mut session = Session::new();
    let mut buffer = [0; READ_BYTES];
    let mut taken = 0;
    while taken < SCRIPT_LIMIT {
        if let Err(Failed) = session.flush(sink) {
            return Status::SinkFault;
        }
        let room = (SCRIPT_LIMIT - taken).min(READ_BYTES as u64) as usize;
        let count = match read_some(source, &mut buffer, room) {
            Ok(count) => count,
            Err(Failed) => return Status::SourceFault,
        };
        if count == 0 {
            return session.end(statement_room, &mut reply, engine, sink);
        }
        let (bytes, _) = buffer.split_at(count);
        if let Err(Failed) = session.feed(bytes, statement_room, &mut reply, engine, sink) {
            return Status::SinkFault;
        }
        taken += count as u64;
    }
    match session.flush(sink) {
        Ok(()) => Status::TooLong,
        Err(Failed) => Status::SinkFault,
    }
}

/// Serves the script of `source` by the engine, and writes the replies to `sink`. Nothing is pending in
/// the engine, before and after: where the sink fails, the command at work is dropped. It takes no memory:
/// what a line is read into stands on the stack, of which it needs some 250 KB.
///
/// In the clauses, the outside is what source, sink and engine tell at one moment: the bytes left, the
/// count of bytes given, the bytes written, and the devices' counts of faults. The replies are those of
/// the machine from whatever state the engine stood for, to one that it stands for afterwards.
pub fn serve<S: Source, K: Sink, M: PageDevice, T: PageDevice>(
    engine: &mut Engine<M, T>,
    source: &mut S,
    sink: &mut K,
) -> Status
    requires idle { is_pending engine.old ≡ false }

    // There is a state that the engine stood for.
    ensures stood { (s : State) × IsEngineOf M.PageDevice T.PageDevice engine.old s }

    // The script was read to its end, and what is written is the text of a run of the machine over all
    // its lines, with an error line exactly where the status is Errors.
    ensures clean { result ≡ Status.Clean → (first : State) → IsEngineOf M.PageDevice T.PageDevice engine.old first
        → AnswersAll (Reaches (IsEngineOf M.PageDevice T.PageDevice) (tells_of M.PageDevice T.PageDevice engine.old) engine.new first)
        (outside (S.left source.old) (S.given source.old) (K.written sink.old) (faults_of M.PageDevice T.PageDevice engine.old))
        (outside (S.left source.new) (S.given source.new) (K.written sink.new) (faults_of M.PageDevice T.PageDevice engine.new)) false }
    ensures errors { result ≡ Status.Errors → (first : State) → IsEngineOf M.PageDevice T.PageDevice engine.old first
        → AnswersAll (Reaches (IsEngineOf M.PageDevice T.PageDevice) (tells_of M.PageDevice T.PageDevice engine.old) engine.new first)
        (outside (S.left source.old) (S.given source.old) (K.written sink.old) (faults_of M.PageDevice T.PageDevice engine.old))
        (outside (S.left source.new) (S.given source.new) (K.written sink.new) (faults_of M.PageDevice T.PageDevice engine.new)) true }

    // A fault only where that count rose; after a source fault the lines read whole were answered, and
    // no part of a line was run; after a sink fault the run stopped, and a front of its replies was written.
    ensures source_fault { result ≡ Status.SourceFault → Rose (S.faults source.old) (S.faults source.new) }
    ensures source_fault_answers { result ≡ Status.SourceFault → (first : State) → IsEngineOf M.PageDevice T.PageDevice engine.old first
        → AnswersWholeLines (Reaches (IsEngineOf M.PageDevice T.PageDevice) (tells_of M.PageDevice T.PageDevice engine.old) engine.new first)
        (outside (S.left source.old) (S.given source.old) (K.written sink.old) (faults_of M.PageDevice T.PageDevice engine.old))
        (outside (S.left source.new) (S.given source.new) (K.written sink.new) (faults_of M.PageDevice T.PageDevice engine.new)) }
    ensures sink_fault { result ≡ Status.SinkFault → Rose (K.faults sink.old) (K.faults sink.new) }
    ensures sink_fault_answers { result ≡ Status.SinkFault → (first : State) → IsEngineOf M.PageDevice T.PageDevice engine.old first
        → AnswersInPart (StopsAt (IsEngineOf M.PageDevice T.PageDevice) (tells_of M.PageDevice T.PageDevice engine.old) engine.new first)
        (outside (S.left source.old) (S.given source.old) (K.written sink.old) (faults_of M.PageDevice T.PageDevice engine.old))
        (outside (S.left source.new) (S.given source.new) (K.written sink.new) (faults_of M.PageDevice T.PageDevice engine.new)) }

    // The limit of 2^32 bytes, both ways: a sink fault alone comes before it.
    ensures too_long { result ≡ Status.TooLong → (first : State) → IsEngineOf M.PageDevice T.PageDevice engine.old first
        → AnswersUpToLimit (Reaches (IsEngineOf M.PageDevice T.PageDevice) (tells_of M.PageDevice T.PageDevice engine.old) engine.new first)
        (outside (S.left source.old) (S.given source.old) (K.written sink.old) (faults_of M.PageDevice T.PageDevice engine.old))
        (outside (S.left source.new) (S.given source.new) (K.written sink.new) (faults_of M.PageDevice T.PageDevice engine.new)) }
    ensures too_long_always { S.given source.new < 2 ^ 64 - 1 → S.given source.new ≡ S.given source.old + 2 ^ 32
        → (result ≡ Status.TooLong) ⊎ (result ≡ Status.SinkFault) }

    // After a sink fault no turn is given any more: of what the engine said, at most what waits at most
    // and one reply were not written.
    ensures sink_fault_stops { result ≡ Status.SinkFault
        → Stops (moment (K.written sink.old) (faults_of M.PageDevice T.PageDevice engine.old) (said_by_engine engine.old))
        (moment (K.written sink.new) (faults_of M.PageDevice T.PageDevice engine.new) (said_by_engine engine.new)) [] }

    // The words of the command line and the opening are not its own.
    ensures no_usage { result ≢ Status.Usage }
    ensures no_memory { result ≢ Status.NoMemory }

    ensures idle { is_pending engine.new ≡ false }
    ensures later { NoneFell (faults_of M.PageDevice T.PageDevice engine.old) (faults_of M.PageDevice T.PageDevice engine.new) }
    ensures source_later { S.faults source.old ≤ S.faults source.new }
    ensures sink_later { K.faults sink.old ≤ K.faults sink.new }
{
    engine.stands_for_a_state();
    let mut statement_room = Room::new();
    read_and_answer(engine, source, sink, &mut statement_room)
}
