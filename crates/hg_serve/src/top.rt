//! The top call.
ghost use Rattle.std.specs.Prelude.{◌≡◌, ◌↔◌, ◌⊎◌, ◌<◌, ◌≤◌, ◌+◌, ◌-◌, ◌^◌, min, vec_len, length, IfOk, true, false};
ghost use Rattle.hg_base.specs.Count.{Rose};
ghost use Rattle.hg_machine.specs.Plain.Outcome.{AnswersAll, AnswersWholeLines, AnswersUpToLimit, AnswersInPart};
ghost use Rattle.hg_reply.specs.Steps.{NoneFell};
ghost use Rattle.hg_serve.specs.Ending.{outside};
ghost use Rattle.hg_serve.specs.Run.{RunOver, StoppedOver, faults_over};

use crate::serving::read_and_answer;
use crate::statuses::Status;
use hg_engine::{Config, Devices, Engine};
use hg_io::{PageDevice, Sink, Source};
use hg_parse::Room;
use std::alloc::{AllocError, Global};

/// How a run ended, with the two devices that it was handed.
#[derive(Drop)]
pub struct Outcome<M, T> {
    pub status: Status,
    pub main: M,
    pub temp: T,
}

/// The most pages that the main file and the temporary file may have.
const MAIN_PAGES: u32 = 65_536;

const TEMP_PAGES: u32 = 1_048_576;

/// The most frames of the pool, those in use at the beginning, and how many cursors may be active.
const MAX_FRAMES: u32 = 256;

const POOL_FRAMES: u32 = 128;

const REQUESTS: u32 = 4;

/// Room for what a line is read as, of 51 KB, in a list of one: on the stack, where it stands twice while it
/// is made, it would stand as long as the run.
#[inline(never)]
fn reserved_room(alloc: Global) -> Result<Vec<Room>, AllocError>
    ensures one { IfOk result (λ rooms. length rooms.items ≡ 1) }
{
    let mut rooms = Vec::with_capacity(alloc, 1)?;
    rooms.push_reserved(Room::new());
    Ok(rooms)
}

/// Runs the script of `source` and writes its replies to `sink`. `words` are the words of the command
/// line without the program's name; for now any word is a usage error. The devices have at least 64
/// pages each; what stood in them is not read.
///
/// In the clauses, the outside is what source, sink and devices tell at one moment: the bytes left, the
/// count of bytes given, the bytes written, and the devices' own counts of faults. What is said of the
/// replies holds for every script and every history of faults. Where both devices tell their pages, the
/// steps are the plain machine's own, over tables as lists of rows; over others, which may give back other
/// bytes than they were given, they are its loose ones.
pub fn run<S: Source, K: Sink, M: PageDevice, T: PageDevice>(
    alloc: Global,
    words: &Vec<String>,
    source: &mut S,
    sink: &mut K,
    main: M,
    temp: T,
) -> Outcome<M, T>
    requires main_pages { 64 ≤ M.pages main }
    requires temp_pages { 64 ≤ T.pages temp }

    // The headline: the script was read to its end, and what is written is the text of a run of the
    // machine over all its lines, with an error line exactly where the status is Errors; and no more of
    // its lines say that a device failed than that device's count rose.
    ensures clean { result.status ≡ Status.Clean → AnswersAll (RunOver M.PageDevice T.PageDevice main temp)
        (outside (S.left source.old) (S.given source.old) (K.written sink.old) (faults_over M.PageDevice T.PageDevice main temp))
        (outside (S.left source.new) (S.given source.new) (K.written sink.new) (faults_over M.PageDevice T.PageDevice result.main result.temp)) false }
    ensures errors { result.status ≡ Status.Errors → AnswersAll (RunOver M.PageDevice T.PageDevice main temp)
        (outside (S.left source.old) (S.given source.old) (K.written sink.old) (faults_over M.PageDevice T.PageDevice main temp))
        (outside (S.left source.new) (S.given source.new) (K.written sink.new) (faults_over M.PageDevice T.PageDevice result.main result.temp)) true }

    // Usage exactly where there is a word; nothing is read or written then, and no device is called.
    ensures usage { (result.status ≡ Status.Usage) ↔ (0 < vec_len words.now) }
    ensures usage_reads_nothing { result.status ≡ Status.Usage → source.new ≡ source.old }
    ensures usage_writes_nothing { result.status ≡ Status.Usage → sink.new ≡ sink.old }
    ensures usage_calls_no_device { result.status ≡ Status.Usage → (result.main ≡ main) × (result.temp ≡ temp) }

    // A fault only where that count rose; after a source fault the lines read whole were answered, and
    // no part of a line was run; after a sink fault the run stopped, at the latest behind the turn whose
    // reply did not go out, and a front of its replies was written.
    ensures source_fault { result.status ≡ Status.SourceFault → Rose (S.faults source.old) (S.faults source.new) }
    ensures source_fault_answers { result.status ≡ Status.SourceFault → AnswersWholeLines (RunOver M.PageDevice T.PageDevice main temp)
        (outside (S.left source.old) (S.given source.old) (K.written sink.old) (faults_over M.PageDevice T.PageDevice main temp))
        (outside (S.left source.new) (S.given source.new) (K.written sink.new) (faults_over M.PageDevice T.PageDevice result.main result.temp)) }
    ensures sink_fault { result.status ≡ Status.SinkFault → Rose (K.faults sink.old) (K.faults sink.new) }
    ensures sink_fault_answers { result.status ≡ Status.SinkFault → AnswersInPart (StoppedOver M.PageDevice T.PageDevice main temp)
        (outside (S.left source.old) (S.given source.old) (K.written sink.old) (faults_over M.PageDevice T.PageDevice main temp))
        (outside (S.left source.new) (S.given source.new) (K.written sink.new) (faults_over M.PageDevice T.PageDevice result.main result.temp)) }

    // The limit of 2^32 bytes, both ways: a sink fault alone comes before it.
    ensures too_long { result.status ≡ Status.TooLong → AnswersUpToLimit (RunOver M.PageDevice T.PageDevice main temp)
        (outside (S.left source.old) (S.given source.old) (K.written sink.old) (faults_over M.PageDevice T.PageDevice main temp))
        (outside (S.left source.new) (S.given source.new) (K.written sink.new) (faults_over M.PageDevice T.PageDevice result.main result.temp)) }
    ensures too_long_always { S.given source.new < 2 ^ 64 - 1 → S.given source.new ≡ S.given source.old + 2 ^ 32
        → (result.status ≡ Status.TooLong) ⊎ (result.status ≡ Status.SinkFault) }

    // Want of memory comes at opening alone; nothing is read or written then, and no device is called.
    ensures no_memory_reads_nothing { result.status ≡ Status.NoMemory → source.new ≡ source.old }
    ensures no_memory_writes_nothing { result.status ≡ Status.NoMemory → sink.new ≡ sink.old }
    ensures no_memory_calls_no_device { result.status ≡ Status.NoMemory → (result.main ≡ main) × (result.temp ≡ temp) }

    // The devices have as many pages as before, and no count falls.
    ensures later { NoneFell (faults_over M.PageDevice T.PageDevice main temp) (faults_over M.PageDevice T.PageDevice result.main result.temp) }
    ensures source_later { S.faults source.old ≤ S.faults source.new }
    ensures sink_later { K.faults sink.old ≤ K.faults sink.new }
{
    if !words.is_empty() {
        return Outcome {
            status: Status::Usage,
            main,
            temp,
        };
    }
    let config = Config {
        max: MAX_FRAMES,
        pool: POOL_FRAMES,
        mpl: REQUESTS,
        main_pages: main.limit().min(MAIN_PAGES),
        temp_pages: temp.limit().min(TEMP_PAGES),
    };
    let Ok(mut rooms) = reserved_room(alloc) else {
        return Outcome {
            status: Status::NoMemory,
            main,
            temp,
        };
    };
    let Some(statement_room) = rooms.first_mut() else {
        unreachable!()
    };
    match Engine::new(alloc, &config, main, temp) {
        Err(Devices { main, temp }) => Outcome {
            status: Status::NoMemory,
            main,
            temp,
        },
        Ok(mut engine) => {
            let status = read_and_answer(&mut engine, source, sink, statement_room);
            let Devices { main, temp } = engine.close();
            Outcome { status, main, temp }
        }
    }
}
