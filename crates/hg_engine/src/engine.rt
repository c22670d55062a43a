//! The engine over two devices: what an embedder calls.
//!
//! ```text
//!     new ----> idle <-------- Done --------+
//!                |                          |
//!                +-- command --> More --> more, a turn a call
//!                |
//!                +-- close ----> the two devices
//! ```
use crate::first::take_first;
use crate::kept::Kept;
use crate::tables::Tables;
use hg_io::PageDevice;
use hg_model::Parsed;
use hg_pool::{Config, Pool};
use hg_reply::{Asked, Machine, Next, Reply, asked_by};
use std::alloc::Global;
use std::marker::Model;

/// The two devices of an engine.
#[derive(Drop)]
pub struct Devices<M, T> {
    pub main: M,
    pub temp: T,
}

/// An engine: tables on pages of the main file, behind a pool of frames. It takes memory only when it is
/// made, and must be spent by `close`. Contracts see it as what it keeps; that this stands for some state
/// of the plain machine is its invariant, so that its calls ask nothing of a state but whether a command is
/// at work (`is_pending`). That an embedder knows: nothing is at work in a new engine, and each call that
/// takes a step answers [`Next::More`] exactly where a command is at work behind it.
pub struct Engine<M: PageDevice, T: PageDevice> {
    pub(crate) kept: Kept<M, T>,
}

impl<M: PageDevice, T: PageDevice> Model for Engine<M, T> {
    ghost use Rattle.hg_engine.specs.declared.kept.Kept.{Kept};

    ghost Value = { Kept M T };

    ghost use Rattle.hg_engine.specs.Shown.{IsSomeEngine};

    ghost view = { λ e. e.kept };

    ghost invariant = { λ e. IsSomeEngine M.PageDevice T.PageDevice e.kept };
}

impl<M: PageDevice, T: PageDevice> Engine<M, T> {
    ghost use Rattle.std.specs.Prelude.{◌≡◌, ◌&&◌, ◌<◌, ◌↔◌, true, false, IfOk, IfErr};
    ghost use Rattle.arrayvec.specs.ArrayVec.{array_vec_len};
    ghost use Rattle.hg_base.specs.Count.{raised};
    ghost use Rattle.hg_machine.specs.Plain.State.{first_state};
    ghost use Rattle.hg_model.specs.Statements.{command_tree};
    ghost use Rattle.hg_pool.specs.Opening.{IsPossible};
    ghost use Rattle.hg_reply.specs.Asked.{IsReadAs};
    ghost use Rattle.hg_reply.specs.Steps.{BeginsRead, ContinuesSo};
    ghost use Rattle.hg_engine.specs.Opened.{sizes_of};
    ghost use Rattle.hg_engine.specs.Shown.{space_of, main_of, temp_of, tells_of, frames_of, said_by_engine, turns_left, IsEngineOf, IsSomeEngine, is_pending, plan_of, EngineSteps, IsLater, IsStill};
    ghost use Rattle.hg_engine.specs.Stepping.{CommandFinds, PlanIsOf, StillWhere, TurnFinds};

    /// An engine of no table over these devices. Page 0 of the main file is kept for the catalog. The only
    /// error is want of memory; the devices are then handed back. No device is called.
    pub fn new(
        alloc: Global,
        config: &Config,
        main: M,
        temp: T,
    ) -> Result<Engine<M, T>, Devices<M, T>>
        requires { IsPossible config.now (M.pages main) (T.pages temp) }
        ensures start { IfOk result (λ e. IsEngineOf M.PageDevice T.PageDevice e (first_state (sizes_of config.now))) }
        ensures tells { IfOk result (λ e. tells_of M.PageDevice T.PageDevice e ≡ (M.told main && T.told temp)) }
        ensures frames { IfOk result (λ e. frames_of e ≡ config.now.max) }
        ensures idle { IfOk result (λ e. is_pending e ≡ false) }
        ensures main { IfOk result (λ e. main_of e ≡ main) }
        ensures temp { IfOk result (λ e. temp_of e ≡ temp) }
        ensures handed_back { IfErr result (λ devices. devices ≡ record { main = main; temp = temp }) }
    {
        let Ok(tables) = Tables::new(alloc, config.max, config.mpl) else {
            return Err(Devices { main, temp });
        };
        let mut pool = match Pool::new(alloc, config, main, temp) {
            Ok(pool) => pool,
            Err((main, temp)) => return Err(Devices { main, temp }),
        };
        take_first(&mut pool);
        Ok(Engine {
            kept: Kept {
                tables,
                pool,
                said: 0,
            },
        })
    }

    /// Runs one command up to its first turn, and puts its lines into `reply`, which is emptied first. It is a
    /// command that some line is read as, where a pool of `max` frames is the largest; one that the grammar
    /// has and the engine has not by now is a syntax error, and changes nothing. CREATE TABLE and the beginning of
    /// a SELECT call no device.
    pub fn command(&mut self, parsed: Parsed, reply: &mut Reply) -> Next
        requires idle { is_pending self.old ≡ false }
        requires read { IsReadAs (frames_of self.old) (command_tree parsed.command) parsed.texts.bytes }
        ensures step { EngineSteps M.PageDevice T.PageDevice self.old self.new reply.new
            (BeginsRead (tells_of M.PageDevice T.PageDevice self.old) (command_tree parsed.command) parsed.texts.bytes)
            (λ now. CommandFinds (space_of M.PageDevice T.PageDevice self.old) self.old.tables now (command_tree parsed.command)) }
        ensures more { (result ≡ Next.More) ↔ (is_pending self.new ≡ true) }
        ensures plan { result ≡ Next.More → PlanIsOf self.new.tables (command_tree parsed.command) }
        ensures still { StillWhere (command_tree parsed.command) (IsStill M.PageDevice T.PageDevice self.old self.new) }
        ensures stood { IsSomeEngine M.PageDevice T.PageDevice self.old }
        ensures later { IsLater (space_of M.PageDevice T.PageDevice self.old) (space_of M.PageDevice T.PageDevice self.new) }
        ensures said { said_by_engine self.new ≡ raised (said_by_engine self.old) (array_vec_len reply.new.text) }
        ensures frames { frames_of self.new ≡ frames_of self.old }
    {
        let asked = asked_by(&parsed);
        self.kept.answer(&asked, reply)
    }

    /// Gives one turn of the command at work, with its end behind it where no turn is left and nothing is to
    /// be said; or the line at its end. `reply` is emptied first. Turns end: each leaves fewer.
    pub fn more(&mut self, reply: &mut Reply) -> Next
        requires pending { is_pending self.old ≡ true }
        ensures turns { EngineSteps M.PageDevice T.PageDevice self.old self.new reply.new (ContinuesSo (tells_of M.PageDevice T.PageDevice self.old))
            (λ now. TurnFinds (space_of M.PageDevice T.PageDevice self.old) self.old.tables) }
        ensures nearer { turns_left self.new < turns_left self.old }
        ensures more { (result ≡ Next.More) ↔ (is_pending self.new ≡ true) }
        ensures plan { plan_of self.new ≡ plan_of self.old }
        ensures stood { IsSomeEngine M.PageDevice T.PageDevice self.old }
        ensures later { IsLater (space_of M.PageDevice T.PageDevice self.old) (space_of M.PageDevice T.PageDevice self.new) }
        ensures said { said_by_engine self.new ≡ raised (said_by_engine self.old) (array_vec_len reply.new.text) }
        ensures frames { frames_of self.new ≡ frames_of self.old }
    {
        self.kept.more(reply)
    }

    /// There is a state of the plain machine that the engine stands for. It computes nothing: its
    /// contract is the law.
    pub fn stands_for_a_state(&self)
        ensures { IsSomeEngine M.PageDevice T.PageDevice self.now }
    {
        let _ = &self.kept;
    }

    /// Gives the devices back as they are: no device is called, and pages that were not written are lost.
    pub fn close(self) -> Devices<M, T>
        ensures main { result.main ≡ main_of self }
        ensures temp { result.temp ≡ temp_of self }
    {
        let Engine { kept } = self;
        let Kept {
            tables,
            pool,
            said: _,
        } = kept;
        drop(tables);
        let (main, temp) = pool.close();
        Devices { main, temp }
    }
}

impl<M: PageDevice, T: PageDevice> Machine for Engine<M, T> {
    ghost use Rattle.hg_engine.specs.Shown.{space_of, IsEngineOf, tells_of, faults_of, fulls_of, said_by_engine, is_pending, turns_left, frames_of};
    ghost use Rattle.hg_engine.specs.Stepping.{CommandFinds, TurnFinds};
    ghost use Rattle.hg_engine.specs.ShownLaws.{pends_of, framed_of};

    ghost stands = { IsEngineOf M.PageDevice T.PageDevice };

    ghost tells = { tells_of M.PageDevice T.PageDevice };

    ghost faults = { faults_of M.PageDevice T.PageDevice };

    ghost fulls = { fulls_of M.PageDevice T.PageDevice };

    ghost said = { said_by_engine };

    ghost pending = { is_pending };

    ghost turns = { turns_left };

    ghost frames = { frames_of };

    ghost found_by = { λ old new command. CommandFinds (space_of M.PageDevice T.PageDevice old) old.tables new.tables command };

    ghost found_in_turn = { λ e. TurnFinds (space_of M.PageDevice T.PageDevice e) e.tables };

    fn max(&self) -> u32 {
        self.kept.tables.max
    }

    fn answer(&mut self, asked: &Asked, reply: &mut Reply) -> Next {
        self.kept.answer(asked, reply)
    }

    fn more(&mut self, reply: &mut Reply) -> Next {
        self.kept.more(reply)
    }

    fn drop_command(&mut self) {
        self.kept.drop_command();
    }

    ghost pends = { pends_of
        (record { pages = M.pages; told = M.told; page = M.page; reads = M.reads; writes = M.writes; faults = M.faults })
        (record { pages = T.pages; told = T.told; page = T.page; reads = T.reads; writes = T.writes; faults = T.faults }) };

    ghost framed = { framed_of
        (record { pages = M.pages; told = M.told; page = M.page; reads = M.reads; writes = M.writes; faults = M.faults })
        (record { pages = T.pages; told = T.told; page = T.page; reads = T.reads; writes = T.writes; faults = T.faults }) };
}
