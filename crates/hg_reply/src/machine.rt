//! What answers commands in small steps.
use crate::asked::Asked;
use crate::reply::Reply;

/// Whether a command at work has more to give.
#[derive(Clone, Copy, PartialEq, Eq, Debug)]
pub enum Next {
    Done,
    More,
}

/// What answers commands: one call is one small step of the plain machine, so that the reply of a call is
/// short. A command is answered by `answer`, and by `more` as long as the answer is [`Next::More`];
/// `drop_command` gives up what is left of it. No call takes memory.
///
/// In the clauses `stands` ties the engine to states of the plain machine. Where its devices tell what
/// stands on their pages (`tells`), its steps are the machine's own; over others, which may give back other
/// bytes than they were given, they are its loose ones. That an engine stands for some state is its own
/// invariant, and each call that takes a step says so (`stood`).
pub trait Machine {
    ghost use Rattle.std.specs.Prelude.{◌≡◌, ◌<◌, ◌≤◌, ◌↔◌, ℕ, List, Bool, true, false};
    ghost use Rattle.arrayvec.specs.ArrayVec.{array_vec_len};
    ghost use Rattle.hg_base.specs.Count.{raised};
    ghost use Rattle.hg_machine.specs.Plain.Replies.{ReplyLine};
    ghost use Rattle.hg_machine.specs.Plain.Run.{is_pending};
    ghost use Rattle.hg_machine.specs.Plain.State.{State};
    ghost use Rattle.hg_model.specs.Statements.{CommandTree};
    ghost use Rattle.hg_reply.specs.Asked.{command_in, texts_in, IsReadAs};
    ghost use Rattle.hg_reply.specs.Steps.{DeviceFacts, NoneFell, FullCounts, FullsLater, Says, FullOnlyWhereFull, Findings, TellOnlyFound, Moves, BeginsRead, ContinuesSo, DropsCommand};

    /// Which states of the plain machine the engine stands for.
    ghost stands: { Self → State → Type 0 };

    /// Whether its devices tell what stands on their pages.
    ghost tells: { Self → Bool };

    /// The devices' own counts of faults, and how many pages they have.
    ghost faults: { Self → DeviceFacts };

    /// How often a page of each file was asked for while all of its pages were taken.
    ghost fulls: { Self → FullCounts };

    /// How many bytes its replies had so far, all together.
    ghost said: { Self → ℕ };

    /// Whether a command at work has more to give.
    ghost pending: { Self → Bool };

    /// At most so many calls of `more` are left. It is a count of the engine's own, so it falls over
    /// devices of any kind.
    ghost turns: { Self → ℕ };

    /// The most frames that its pool may have.
    ghost frames: { Self → ℕ };

    /// Which damage a command may tell of, by the engine before it and behind it.
    ghost found_by: { Self → Self → CommandTree → Findings };

    /// Which damage the next turn may tell of.
    ghost found_in_turn: { Self → Findings };

    /// The most frames that its pool may have.
    fn max(&self) -> u32
        ensures { result ≡ frames self.now };

    /// Answers a command that a line is read as, up to its first turn. One that there is not by now is a
    /// syntax error, and changes nothing.
    fn answer(&mut self, asked: &Asked, reply: &mut Reply) -> Next
        requires idle { pending self.old ≡ false }
        requires read { IsReadAs (frames self.old) (command_in asked.now.command) (texts_in asked.now) }
        ensures step { (lines : List ReplyLine) × Says reply.new (faults self.old) (faults self.new) lines
            × Moves stands self.old self.new (BeginsRead (tells self.old) (command_in asked.now.command) (texts_in asked.now)) lines
            × FullOnlyWhereFull (fulls self.old) (fulls self.new) lines
            × TellOnlyFound (found_by self.old self.new (command_in asked.now.command)) lines }
        ensures more { (result ≡ Next.More) ↔ (pending self.new ≡ true) }
        ensures stood { (s : State) × stands self.old s }
        ensures tells_stay { tells self.new ≡ tells self.old }
        ensures frames_stay { frames self.new ≡ frames self.old }
        ensures said_more { said self.new ≡ raised (said self.old) (array_vec_len reply.new.text) }
        ensures later { NoneFell (faults self.old) (faults self.new) }
        ensures fulls_later { FullsLater (fulls self.old) (fulls self.new) };

    /// Gives one turn of the command at work, with its end behind it where no turn is left and nothing is
    /// to be said; or the line at its end.
    fn more(&mut self, reply: &mut Reply) -> Next
        requires pending { pending self.old ≡ true }
        ensures step { (lines : List ReplyLine) × Says reply.new (faults self.old) (faults self.new) lines
            × Moves stands self.old self.new (ContinuesSo (tells self.old)) lines
            × FullOnlyWhereFull (fulls self.old) (fulls self.new) lines
            × TellOnlyFound (found_in_turn self.old) lines }
        ensures nearer { turns self.new < turns self.old }
        ensures more { (result ≡ Next.More) ↔ (pending self.new ≡ true) }
        ensures stood { (s : State) × stands self.old s }
        ensures tells_stay { tells self.new ≡ tells self.old }
        ensures frames_stay { frames self.new ≡ frames self.old }
        ensures said_more { said self.new ≡ raised (said self.old) (array_vec_len reply.new.text) }
        ensures later { NoneFell (faults self.old) (faults self.new) }
        ensures fulls_later { FullsLater (fulls self.old) (fulls self.new) };

    /// Drops the command at work, if one is at work: a cursor without a name is closed, others are as
    /// between two turns, and nothing is said. No device is called.
    fn drop_command(&mut self)
        ensures drops { DropsCommand stands self.old self.new }
        ensures idle { pending self.new ≡ false }
        ensures tells_stay { tells self.new ≡ tells self.old }
        ensures frames_stay { frames self.new ≡ frames self.old }
        ensures says_nothing { said self.new ≡ said self.old }
        ensures faults_stay { faults self.new ≡ faults self.old }
        ensures fulls_stay { fulls self.new ≡ fulls self.old };

    ghost pends: { (e : Self) (s : State) → stands e s → pending e ≡ is_pending s };

    ghost framed: { (e : Self) (s : State) → stands e s → s.max ≡ frames e };
}
