//! INSERT: rows join a table under one stamp, all of them or none.
ghost use Rattle.std.specs.Prelude.{◌≡◌, ◌≤◌, ◌++◌, ◌||◌, true};
ghost use Rattle.arrayvec.specs.ArrayVec.{array_vec_len};
ghost use Rattle.hg_dml.specs.Rows.{Tells};
ghost use Rattle.hg_machine.specs.Plain.Refused.{refusal_line};
ghost use Rattle.hg_machine.specs.Plain.Replies.{line_text};
ghost use Rattle.hg_model.specs.Refusal.{Refusal};

use crate::say::{say_fault, say_refusal};
use crate::tables::Tables;
use hg_base::Pages;
use hg_bind::{BindError, place_values};
use hg_dml::{ChangeError, insert_rows};
use hg_model::Column;
use hg_reply::{InsertAt, Reply, ReplyLine, Words};

/// Says what stands against the rows of a change.
pub fn say_cause(reply: &mut Reply, columns: &[Column], code: u8, column: Option<u8>)
    requires room { array_vec_len reply.old.text ≤ 512 }
    requires known { (r : Refusal) × Tells columns.now code column r }
    ensures text { (r : Refusal) → Tells columns.now code column r → reply.new.text.items ≡ reply.old.text.items ++ line_text (refusal_line r) }
    ensures errors { reply.new.has_error ≡ (reply.old.has_error || true) }
{
    let words = match column {
        Some(k) => Words::Name(&columns[k as usize].name),
        None => Words::Nothing,
    };
    reply.say(&ReplyLine::Error(code, words));
}

impl Tables {
    ghost use Rattle.std.specs.Prelude.{◌≡◌, ◌<◌, ℕ, false, [], List, length, None, Some, IfOk, IfErr, IsTrue, option_map, slice_get};
    ghost use Rattle.std.specs.List.{list_all};
    ghost use Rattle.hg_base.specs.Space.{NoPins};
    ghost use Rattle.hg_bind.specs.Bound.{tables_of, error_of};
    ghost use Rattle.hg_catalog.specs.Contents.{CatalogTable, table_number};
    ghost use Rattle.hg_machine.specs.Plain.Replies.{ReplyLine as ReplyLineOf};
    ghost use Rattle.hg_machine.specs.Plain.State.{State};
    ghost use Rattle.hg_model.specs.ChangeBinding.{insert_refusal, insert_targets};
    ghost use Rattle.hg_model.specs.Scope.{columns_of};
    ghost use Rattle.hg_model.specs.Statements.{InsertRows};
    ghost use Rattle.hg_model.specs.Tables.{table_named};
    ghost use Rattle.hg_model.specs.Value.{is_printable};
    ghost use Rattle.hg_reply.specs.Asked.{insert_at};
    ghost use Rattle.hg_reply.specs.Steps.{HasLines, TellOnlyFound, BeginsSo};
    ghost use Rattle.hg_engine.specs.Stepping.{TablesAre, CountedIn, IsSameSpace, StepsTo, InsertFinds};

    /// Puts the columns of an INSERT's values into `targets`. The answer is the number of its table.
    fn place(&mut self, insert: &InsertAt) -> Result<u8, BindError>
        ensures number { IfOk result (λ k. table_number self.old.catalog insert.now.table.now ≡ Some k) }
        ensures inside { IfOk result (λ k. k < length self.old.catalog.tables) }
        ensures stands { IfOk result (λ k. insert_refusal (tables_of self.old.catalog) (insert_at insert.now) ≡ None) }
        ensures targets { IfOk result (λ k. self.new.targets.items
            ≡ insert_targets (columns_of (table_named (tables_of self.old.catalog) insert.now.table.now)) insert.now.columns.now) }
        ensures err { IfErr result (λ e. option_map error_of (insert_refusal (tables_of self.old.catalog) (insert_at insert.now)) ≡ Some e) }
        ensures catalog { self.new.catalog ≡ self.old.catalog }
        ensures stamps { self.new.stamps ≡ self.old.stamps }
        ensures open { self.new.is_open ≡ self.old.is_open }
        ensures max { self.new.max ≡ self.old.max }
        ensures mpl { self.new.mpl ≡ self.old.mpl }
    {
        self.targets.clear();
        place_values(
            insert.table,
            insert.columns,
            insert.values,
            insert.ends,
            &self.catalog,
            &mut self.targets,
        )?;
        match self.catalog.table(insert.table) {
            Some(table) => Ok(table),
            None => unreachable!(),
        }
    }

    /// INSERT. Where it is refused the tables keep their rows; once the rows are looked at, a stamp is
    /// used.
    pub fn insert<S: Pages>(
        &mut self,
        space: &mut S,
        insert: &InsertAt,
        texts: &[u8],
        reply: &mut Reply,
    )
        requires idle { self.old.is_open ≡ false }
        requires stands { (state : State) × TablesAre (S.state space.old) self.old state }
        requires printable { IsTrue (list_all is_printable texts.now) }
        requires empty { reply.old.text.items ≡ [] }
        requires no_error { reply.old.has_error ≡ false }
        ensures step { (lines : List ReplyLineOf) × HasLines reply.new lines × CountedIn (S.state space.old) (S.state space.new) lines
            × StepsTo (S.state space.old) (S.state space.new) self.old self.new (BeginsSo (S.state space.old).told (InsertRows (insert_at insert.now)) texts.now) lines
            × TellOnlyFound (InsertFinds (S.state space.old) self.new.catalog.tables insert.now.table.now) lines }
        ensures idle { self.new.is_open ≡ false }
        ensures same { IsSameSpace (S.state space.old) (S.state space.new) }
        ensures max { self.new.max ≡ self.old.max }
    {
        let table = match self.place(insert) {
            Ok(table) => table,
            Err(error) => {
                say_refusal(reply, &error);
                return;
            }
        };
        let Some(stamp) = self.draw() else {
            reply.say(&ReplyLine::Error(24, Words::Nothing));
            return;
        };
        match insert_rows(
            table,
            self.targets.as_slice(),
            insert.values,
            insert.ends,
            texts,
            &mut self.catalog,
            &mut self.stamps,
            stamp,
            space,
            &mut self.room.row,
        ) {
            Ok(count) => reply.say(&ReplyLine::Rows(count)),
            Err(ChangeError::Refused { code, column }) => {
                say_cause(reply, self.catalog.columns(table).as_slice(), code, column)
            }
            Err(ChangeError::Fault(fault)) => say_fault(reply, fault),
        }
    }
}
