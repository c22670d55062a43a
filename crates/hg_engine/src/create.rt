//! Tables are made.
ghost use Rattle.std.specs.Prelude.{◌≡◌, ◌≤◌, length, map};
ghost use Rattle.hg_model.specs.Creation.{created_column};

use crate::open::SelectRoom;
use crate::say::say_refusal;
use crate::tables::Tables;
use arrayvec::ArrayVec;
use hg_base::NoMemory;
use hg_bind::refuse_columns;
use hg_catalog::Catalog;
use hg_dml::ChangeRoom;
use hg_model::{Column, NewColumn};
use hg_reply::{Reply, ReplyLine, TableAt};
use hg_table::Stamps;
use std::alloc::Global;

/// The columns of a table that is made.
fn made_columns(columns: &[NewColumn]) -> ArrayVec<Column, 16>
    requires { length columns.now ≤ 16 }
    ensures { result.items ≡ map created_column columns.now }
{
    let mut made = ArrayVec::new();
    for column in columns {
        made.push(Column {
            name: column.column.name.copy(),
            ty: column.column.ty,
            not_null: column.column.not_null || column.primary,
        });
    }
    made
}

impl Tables {
    ghost use Rattle.std.specs.Prelude.{◌≡◌, ◌≤◌, ℕ, [], List, length, IfOk, true, false};
    ghost use Rattle.std.specs.List.{list_all};
    ghost use Rattle.hg_base.specs.Space.{Space};
    ghost use Rattle.hg_machine.specs.Plain.Replies.{ReplyLine as ReplyLineOf};
    ghost use Rattle.hg_model.specs.Statements.{CreateTable};
    ghost use Rattle.hg_reply.specs.Asked.{table_at, IsReadAs};
    ghost use Rattle.hg_reply.specs.Built.{is_built};
    ghost use Rattle.hg_reply.specs.Steps.{HasLines, TellOnlyFound, BeginsSo};
    ghost use Rattle.hg_engine.specs.Stepping.{TablesAre, CountedIn, StepsTo, no_damage};

    /// No table, no stamp and no SELECT. All memory that is ever needed is taken here.
    pub fn new(alloc: Global, max: u32, mpl: u32) -> Result<Tables, NoMemory>
        ensures catalog { IfOk result (λ x. x.catalog ≡ record { tables = []; indexes = [] }) }
        ensures stamps { IfOk result (λ x. x.stamps ≡ []) }
        ensures idle { IfOk result (λ x. x.is_open ≡ false) }
        ensures max { IfOk result (λ x. x.max ≡ max) }
        ensures mpl { IfOk result (λ x. x.mpl ≡ mpl) }
    {
        Ok(Tables {
            catalog: Catalog::new(alloc)?,
            stamps: Stamps::new(alloc)?,
            is_open: false,
            open: SelectRoom::new(alloc)?,
            max,
            mpl,
            room: ChangeRoom::new(),
            targets: ArrayVec::new(),
            places: ArrayVec::new(),
            columns: ArrayVec::new(),
        })
    }

    /// CREATE TABLE.
    pub fn create_table(&mut self, table: &TableAt, reply: &mut Reply)
        requires idle { self.old.is_open ≡ false }
        requires some_columns { 1 ≤ length table.now.columns.now }
        requires plain { is_built (CreateTable (table_at table.now)) ≡ true }
        requires empty { reply.old.text.items ≡ [] }
        requires no_error { reply.old.has_error ≡ false }
        ensures step { (lines : List ReplyLineOf) × HasLines reply.new lines × ((s : Space) → CountedIn s s lines)
            × ((s : Space) (texts : List ℕ) → StepsTo s s self.old self.new (BeginsSo s.told (CreateTable (table_at table.now)) texts) lines)
            × TellOnlyFound no_damage lines }
        ensures idle { self.new.is_open ≡ false }
        ensures max { self.new.max ≡ self.old.max }
    {
        if let Some(error) = refuse_columns(table.name, table.columns, &self.catalog) {
            say_refusal(reply, &error);
            return;
        }
        self.catalog
            .add_table(table.name.copy(), made_columns(table.columns));
        reply.say(&ReplyLine::Created);
    }
}
