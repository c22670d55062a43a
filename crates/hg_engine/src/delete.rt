//! DELETE: rows leave a table under one stamp, all that pass its condition.

use crate::say::{say_fault, say_refusal};
use crate::tables::Tables;
use hg_base::Pages;
use hg_bind::{BindError, place_filter};
use hg_dml::{Filter, delete_rows, list_numbers};
use hg_plan::read_deletes_fit;
use hg_reply::{DeleteAt, Reply, ReplyLine, Words};

impl Tables {
    ghost use Rattle.std.specs.Prelude.{◌≡◌, ◌<◌, ℕ, false, [], List, length, None, Some, IfOk, IfErr, option_map};
    ghost use Rattle.hg_base.specs.Space.{NoPins};
    ghost use Rattle.hg_bind.specs.Bound.{tables_of, error_of};
    ghost use Rattle.hg_catalog.specs.Contents.{table_number};
    ghost use Rattle.hg_machine.specs.Plain.Replies.{ReplyLine as ReplyLineOf};
    ghost use Rattle.hg_machine.specs.Plain.State.{State};
    ghost use Rattle.hg_model.specs.ChangeBinding.{delete_refusal};
    ghost use Rattle.hg_model.specs.ChangeMeaning.{delete_positions};
    ghost use Rattle.hg_model.specs.Statements.{DeleteRows};
    ghost use Rattle.hg_reply.specs.Asked.{delete_at, IsReadAs};
    ghost use Rattle.hg_reply.specs.Steps.{HasLines, TellOnlyFound, BeginsSo};
    ghost use Rattle.hg_engine.specs.Stepping.{TablesAre, CountedIn, IsSameSpace, StepsTo, DeleteFinds};

    /// Puts the columns of a DELETE's nodes into `columns`. The answer is the number of its table.
    fn place_where(&mut self, delete: &DeleteAt) -> Result<u8, BindError>
        ensures number { IfOk result (λ k. table_number self.old.catalog delete.now.table.now ≡ Some k) }
        ensures inside { IfOk result (λ k. k < length self.old.catalog.tables) }
        ensures stands { IfOk result (λ k. delete_refusal (tables_of self.old.catalog) (delete_at delete.now) ≡ None) }
        ensures columns { IfOk result (λ k. self.new.columns.items ≡ delete_positions (tables_of self.old.catalog) (delete_at delete.now)) }
        ensures err { IfErr result (λ e. option_map error_of (delete_refusal (tables_of self.old.catalog) (delete_at delete.now)) ≡ Some e) }
        ensures catalog { self.new.catalog ≡ self.old.catalog }
        ensures stamps { self.new.stamps ≡ self.old.stamps }
        ensures open { self.new.is_open ≡ self.old.is_open }
        ensures max { self.new.max ≡ self.old.max }
        ensures mpl { self.new.mpl ≡ self.old.mpl }
    {
        self.places.clear();
        place_filter(
            delete.table,
            delete.filter,
            delete.nodes,
            &self.catalog,
            &mut self.places,
        )?;
        list_numbers(self.places.as_slice(), &mut self.columns);
        match self.catalog.table(delete.table) {
            Some(table) => Ok(table),
            None => unreachable!(),
        }
    }

    /// DELETE. Where a fault ends it the table keeps its rows; once the table is looked at, a stamp is used.
    pub fn delete<S: Pages>(
        &mut self,
        space: &mut S,
        delete: &DeleteAt,
        texts: &str,
        reply: &mut Reply,
    )
        requires idle { self.old.is_open ≡ false }
        requires stands { (state : State) × TablesAre (S.state space.old) self.old state }
        requires read { IsReadAs self.old.max (DeleteRows (delete_at delete.now)) texts.now }
        requires empty { reply.old.text.items ≡ [] }
        requires no_error { reply.old.has_error ≡ false }
        ensures step { (lines : List ReplyLineOf) × HasLines reply.new lines × CountedIn (S.state space.old) (S.state space.new) lines
            × StepsTo (S.state space.old) (S.state space.new) self.old self.new (BeginsSo (S.state space.old).told (DeleteRows (delete_at delete.now)) texts.now) lines
            × TellOnlyFound (DeleteFinds (S.state space.old) self.old.catalog.tables delete.now.table.now) lines }
        ensures idle { self.new.is_open ≡ false }
        ensures same { IsSameSpace (S.state space.old) (S.state space.new) }
        ensures max { self.new.max ≡ self.old.max }
    {
        read_deletes_fit();
        let table = match self.place_where(delete) {
            Ok(table) => table,
            Err(error) => {
                say_refusal(reply, &error);
                return;
            }
        };
        let Some(stamp) = self.draw() else {
            reply.say(&ReplyLine::Error(24, Words::Nothing));
            return;
        };
        let filter = Filter {
            condition: delete.filter,
            nodes: delete.nodes,
            columns: self.columns.as_slice(),
            texts,
        };
        match delete_rows(
            table,
            &filter,
            &self.catalog,
            &mut self.stamps,
            stamp,
            space,
            &mut self.room.row,
        ) {
            Ok(count) => reply.say(&ReplyLine::Rows(count)),
            Err(fault) => say_fault(reply, fault),
        }
    }
}
