//! SELECT: its rows, a turn at a time.
use crate::say::{say_fault, say_refusal};
use crate::tables::Tables;
use hg_base::Pages;
use hg_bind::read_keys_stand_apart;
use hg_exec::{Turn, planned_may_run, planned_means_the_same};
use hg_plan::read_selects_fit;
use hg_reply::{Reply, ReplyLine, SelectAt};

impl Tables {
    ghost use Rattle.std.specs.Prelude.{◌≡◌, ◌<◌, ◌≤◌, ℕ, false, true, [], List, length};
    ghost use Rattle.hg_machine.specs.Plain.Replies.{ReplyLine as ReplyLineOf};
    ghost use Rattle.hg_machine.specs.Plain.State.{State};
    ghost use Rattle.hg_model.specs.Statements.{SelectRows};
    ghost use Rattle.hg_reply.specs.Asked.{query_at, IsReadAs};
    ghost use Rattle.hg_reply.specs.Built.{is_plain_select};
    ghost use Rattle.hg_reply.specs.Steps.{HasLines, TellOnlyFound, BeginsSo, ContinuesSo};
    ghost use Rattle.hg_engine.specs.Stepping.{TablesAre, CountedIn, IsSameSpace, StepsTo, PlanIsOf, TurnFinds, turns_in, no_damage};

    /// SELECT: its rows are left to give from the next turn on.
    pub fn select<S: Pages>(&mut self, space: &S, select: &SelectAt, texts: &str, reply: &mut Reply)
        requires idle { self.old.is_open ≡ false }
        requires read { IsReadAs self.old.max (SelectRows (query_at select.now)) texts.now }
        requires short { length texts.now ≤ 4096 }
        requires plain { is_plain_select (query_at select.now) ≡ true }
        requires empty { reply.old.text.items ≡ [] }
        requires no_error { reply.old.has_error ≡ false }
        ensures step { (lines : List ReplyLineOf) × HasLines reply.new lines × CountedIn (S.state space.now) (S.state space.now) lines
            × StepsTo (S.state space.now) (S.state space.now) self.old self.new
            (BeginsSo (S.state space.now).told (SelectRows (query_at select.now)) texts.now) lines
            × TellOnlyFound no_damage lines }
        ensures plan { self.new.is_open ≡ true → PlanIsOf self.new (SelectRows (query_at select.now)) }
        ensures max { self.new.max ≡ self.old.max }
    {
        read_selects_fit();
        read_keys_stand_apart();
        planned_may_run();
        planned_means_the_same();
        self.open.hold(select, texts);
        if let Err(error) = self.open.place(&self.catalog) {
            say_refusal(reply, &error);
            return;
        }
        self.open.begin(self.stamps.last(), space);
        self.is_open = true;
    }

    /// One turn of the SELECT at work.
    pub fn turn<S: Pages>(&mut self, space: &mut S, reply: &mut Reply)
        requires open { self.old.is_open ≡ true }
        requires stands { (state : State) × TablesAre (S.state space.old) self.old state }
        requires empty { reply.old.text.items ≡ [] }
        requires no_error { reply.old.has_error ≡ false }
        ensures step { (lines : List ReplyLineOf) × HasLines reply.new lines × CountedIn (S.state space.old) (S.state space.new) lines
            × StepsTo (S.state space.old) (S.state space.new) self.old self.new (ContinuesSo (S.state space.old).told) lines
            × TellOnlyFound (TurnFinds (S.state space.old) self.old) lines }
        ensures nearer { turns_in self.new.is_open self.new.open < turns_in self.old.is_open self.old.open }
        ensures same { IsSameSpace (S.state space.old) (S.state space.new) }
        ensures plan { self.new.open.plan ≡ self.old.open.plan }
        ensures max { self.new.max ≡ self.old.max }
    {
        match self
            .open
            .turn(&self.catalog, &self.stamps, space, &mut self.room.row)
        {
            Turn::Row => reply.say_row(&None, &self.room.row),
            Turn::End => {
                self.is_open = false;
                reply.say(&ReplyLine::Ended(None));
            }
            Turn::Fault(fault) => {
                self.is_open = false;
                say_fault(reply, fault);
                reply.say(&ReplyLine::Closed(None));
            }
        }
    }
}
