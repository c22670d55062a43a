//! UPDATE: rows that pass its condition are changed under one stamp, all of them or none.
use crate::insert::say_cause;
use crate::say::{say_fault, say_refusal};
use crate::tables::Tables;
use hg_base::Pages;
use hg_bind::{BindError, place_sets};
use hg_dml::{ChangeError, Filter, Sets, list_numbers, update_rows};
use hg_plan::read_updates_fit;
use hg_reply::{Reply, ReplyLine, UpdateAt, Words};

impl Tables {
    ghost use Rattle.std.specs.Prelude.{◌≡◌, ◌<◌, ℕ, false, [], List, length, None, Some, IfOk, IfErr, option_map};
    ghost use Rattle.hg_base.specs.Space.{NoPins};
    ghost use Rattle.hg_bind.specs.Bound.{tables_of, error_of};
    ghost use Rattle.hg_catalog.specs.Contents.{table_number};
    ghost use Rattle.hg_machine.specs.Plain.Replies.{ReplyLine as ReplyLineOf};
    ghost use Rattle.hg_machine.specs.Plain.State.{State};
    ghost use Rattle.hg_model.specs.ChangeBinding.{update_refusal, update_targets};
    ghost use Rattle.hg_model.specs.ChangeMeaning.{update_positions};
    ghost use Rattle.hg_model.specs.Scope.{columns_of};
    ghost use Rattle.hg_model.specs.Statements.{UpdateRows};
    ghost use Rattle.hg_model.specs.Tables.{table_named};
    ghost use Rattle.hg_reply.specs.Asked.{update_at, IsReadAs};
    ghost use Rattle.hg_reply.specs.Steps.{HasLines, TellOnlyFound, BeginsSo};
    ghost use Rattle.hg_engine.specs.Stepping.{TablesAre, CountedIn, IsSameSpace, StepsTo, UpdateFinds};

    /// Puts the columns of an UPDATE's items into `targets`, and those of its nodes into `columns`. The answer is
    /// the number of its table.
    fn place_items(&mut self, update: &UpdateAt) -> Result<u8, BindError>
        ensures number { IfOk result (λ k. table_number self.old.catalog update.now.table.now ≡ Some k) }
        ensures inside { IfOk result (λ k. k < length self.old.catalog.tables) }
        ensures stands { IfOk result (λ k. update_refusal (tables_of self.old.catalog) (update_at update.now) ≡ None) }
        ensures targets { IfOk result (λ k. self.new.targets.items
            ≡ update_targets (columns_of (table_named (tables_of self.old.catalog) update.now.table.now)) (update_at update.now)) }
        ensures columns { IfOk result (λ k. self.new.columns.items ≡ update_positions (tables_of self.old.catalog) (update_at update.now)) }
        ensures err { IfErr result (λ e. option_map error_of (update_refusal (tables_of self.old.catalog) (update_at update.now)) ≡ Some e) }
        ensures catalog { self.new.catalog ≡ self.old.catalog }
        ensures stamps { self.new.stamps ≡ self.old.stamps }
        ensures open { self.new.is_open ≡ self.old.is_open }
        ensures max { self.new.max ≡ self.old.max }
        ensures mpl { self.new.mpl ≡ self.old.mpl }
    {
        self.targets.clear();
        self.places.clear();
        place_sets(
            update.table,
            update.sets,
            update.filter,
            update.nodes,
            &self.catalog,
            &mut self.targets,
            &mut self.places,
        )?;
        list_numbers(self.places.as_slice(), &mut self.columns);
        match self.catalog.table(update.table) {
            Some(table) => Ok(table),
            None => unreachable!(),
        }
    }

    /// UPDATE. Where it is refused or a fault ends it the table keeps its rows; once the table is looked at, a
    /// stamp is used.
    pub fn update<S: Pages>(
        &mut self,
        space: &mut S,
        update: &UpdateAt,
        texts: &str,
        reply: &mut Reply,
    )
        requires idle { self.old.is_open ≡ false }
        requires stands { (state : State) × TablesAre (S.state space.old) self.old state }
        requires read { IsReadAs self.old.max (UpdateRows (update_at update.now)) texts.now }
        requires empty { reply.old.text.items ≡ [] }
        requires no_error { reply.old.has_error ≡ false }
        ensures step { (lines : List ReplyLineOf) × HasLines reply.new lines × CountedIn (S.state space.old) (S.state space.new) lines
            × StepsTo (S.state space.old) (S.state space.new) self.old self.new (BeginsSo (S.state space.old).told (UpdateRows (update_at update.now)) texts.now) lines
            × TellOnlyFound (UpdateFinds (S.state space.old) self.old.catalog.tables update.now.table.now) lines }
        ensures idle { self.new.is_open ≡ false }
        ensures same { IsSameSpace (S.state space.old) (S.state space.new) }
        ensures max { self.new.max ≡ self.old.max }
    {
        read_updates_fit();
        let table = match self.place_items(update) {
            Ok(table) => table,
            Err(error) => {
                say_refusal(reply, &error);
                return;
            }
        };
        let Some(stamp) = self.draw() else {
            reply.say(&ReplyLine::Error(24, Words::Nothing));
            return;
        };
        let filter = Filter {
            condition: update.filter,
            nodes: update.nodes,
            columns: self.columns.as_slice(),
            texts,
        };
        let sets = Sets {
            targets: self.targets.as_slice(),
            items: update.sets,
        };
        match update_rows(
            table,
            &filter,
            &sets,
            &mut self.catalog,
            &mut self.stamps,
            stamp,
            space,
            &mut self.room,
        ) {
            Ok(count) => reply.say(&ReplyLine::Rows(count)),
            Err(ChangeError::Refused { code, column }) => {
                say_cause(reply, self.catalog.columns(table).as_slice(), code, column)
            }
            Err(ChangeError::Fault(fault)) => say_fault(reply, fault),
        }
    }
}
