//! The SELECT at work: room that is kept for it.
ghost use Rattle.std.specs.Prelude.{◌≡◌, ◌≤◌, length};
ghost use Rattle.hg_model.specs.Query.{query_of};
ghost use Rattle.hg_reply.specs.Asked.{query_at};

use arrayvec::{ArrayString, ArrayVec};
use hg_base::{NoMemory, Pages, Stamp};
use hg_bind::{BindError, Places, place_select};
use hg_catalog::Catalog;
use hg_exec::{Loops, Statement, Turn};
use hg_model::{FromTable, Name, Node, Nodes, OrderKey, Output, Select};
use hg_plan::{Plan, bound_may_be_planned};
use hg_reply::SelectAt;
use hg_table::Stamps;
use hg_value::Row;
use std::alloc::Global;
use std::boxed::Box;
use std::marker::Model;

/// A SELECT in its bound form, with the numbers of its tables, and for each node the place of its column; its
/// texts, its plan, and its loops.
#[derive(Drop)]
pub struct OpenSelect {
    pub select: Select,
    pub tables: ArrayVec<u8, 4>,
    pub places: Places,
    pub texts: ArrayString<4096>,
    pub plan: Plan,
    pub loops: Loops,
}

fn copy_name(name: &Option<Name>) -> Option<Name>
    ensures { result ≡ name.now }
{
    match name {
        Some(name) => Some(name.copy()),
        None => None,
    }
}

fn copy_table(table: &FromTable) -> FromTable
    ensures { result ≡ table.now }
{
    FromTable {
        table: table.table.copy(),
        alias: table.alias.copy(),
        on: table.on,
    }
}

fn copy_output(output: &Output) -> Output
    ensures { result ≡ output.now }
{
    Output {
        node: output.node,
        name: copy_name(&output.name),
    }
}

fn copy_nodes(from: &[Node], to: &mut Nodes)
    requires { length from.now ≤ 112 }
    ensures { to.new.items ≡ from.now }
{
    to.clear();
    for node in from {
        to.push(node.copy());
    }
}

fn copy_tables(from: &[FromTable], to: &mut ArrayVec<FromTable, 4>)
    requires { length from.now ≤ 4 }
    ensures { to.new.items ≡ from.now }
{
    to.clear();
    for table in from {
        to.push(copy_table(table));
    }
}

fn copy_outputs(from: &[Output], to: &mut ArrayVec<Output, 16>)
    requires { length from.now ≤ 16 }
    ensures { to.new.items ≡ from.now }
{
    to.clear();
    for output in from {
        to.push(copy_output(output));
    }
}

fn copy_groups(from: &[u8], to: &mut ArrayVec<u8, 16>)
    requires { length from.now ≤ 16 }
    ensures { to.new.items ≡ from.now }
{
    to.clear();
    for node in from {
        to.push(*node);
    }
}

fn copy_keys(from: &[OrderKey], to: &mut ArrayVec<OrderKey, 8>)
    requires { length from.now ≤ 8 }
    ensures { to.new.items ≡ from.now }
{
    to.clear();
    for key in from {
        to.push(*key);
    }
}

/// Copies a SELECT into room that is kept.
fn copy_select(from: &SelectAt, to: &mut Select)
    ensures { query_of to.new ≡ query_at from.now }
{
    to.distinct = from.distinct;
    to.star = from.star;
    to.filter = from.filter;
    to.having = from.having;
    copy_outputs(from.outputs, &mut to.outputs);
    copy_tables(from.tables, &mut to.tables);
    copy_groups(from.group, &mut to.group);
    copy_keys(from.order, &mut to.order);
    copy_nodes(from.nodes, &mut to.nodes);
}

/// Room for a SELECT, on the heap: it has some 20 KB. Contracts see the SELECT.
#[derive(Drop)]
pub struct SelectRoom {
    boxed: Box<OpenSelect>,
}

impl Model for SelectRoom {
    ghost use Rattle.hg_engine.specs.declared.open.OpenSelect.{OpenSelect};

    ghost Value = { OpenSelect };

    ghost view = { λ r. r.boxed.value };
}

impl OpenSelect {
    ghost use Rattle.std.specs.Prelude.{◌≡◌, ◌≤◌, ◌+◌, ℕ, [], ◌<◌, List, length, true, false, option_map, Some, OnOk, IfErr};
    ghost use Rattle.hg_base.specs.Causes.{HasCause};
    ghost use Rattle.hg_base.specs.Space.{NoPins};
    ghost use Rattle.hg_base.specs.Steadiness.{Steady};
    ghost use Rattle.hg_bind.specs.Bound.{error_of, tables_of};
    ghost use Rattle.hg_bind.specs.BoundMeaning.{KeysStandApart};
    ghost use Rattle.hg_bind.specs.BoundSelect.{IsBoundSelect};
    ghost use Rattle.hg_catalog.specs.Contents.{IsSound};
    ghost use Rattle.hg_exec.specs.Standing.{IsAtWork, Owes};
    ghost use Rattle.hg_exec.specs.Turning.{IfFault, IfRow, IsLoopCheck, NamesRead, Turned, fault_in, looks_left};
    ghost use Rattle.hg_model.specs.Binding.{select_refusal};
    ghost use Rattle.hg_model.specs.Query.{query_of};
    ghost use Rattle.hg_model.specs.declared.values.Value.{Value};
    ghost use Rattle.hg_plan.specs.Planning.{IsPlanOf};
    ghost use Rattle.hg_plan.specs.ReadLaws.{IsReadSelect};
    ghost use Rattle.hg_reply.specs.Asked.{query_at};
    ghost use Rattle.hg_table.specs.Calls.{LookFault, TakesNone, none_mine};
    ghost use Rattle.hg_engine.specs.Work.{BeginsOwed, BeginsWork, form_of_work};

    /// No SELECT.
    #[inline(never)]
    fn new() -> OpenSelect {
        OpenSelect {
            select: Select {
                distinct: false,
                star: false,
                outputs: ArrayVec::new(),
                tables: ArrayVec::new(),
                filter: None,
                group: ArrayVec::new(),
                having: None,
                order: ArrayVec::new(),
                nodes: ArrayVec::new(),
            },
            tables: ArrayVec::new(),
            places: ArrayVec::new(),
            texts: ArrayString::new(),
            plan: Plan::default(),
            loops: Loops::new(),
        }
    }

    /// Binds and plans the SELECT that is held, or answers the first cause against it.
    fn place(&mut self, catalog: &Catalog) -> Result<(), BindError>
        requires read { IsReadSelect (query_of self.old.select) self.old.texts.bytes }
        requires apart { KeysStandApart (query_of self.old.select) }
        ensures ok { OnOk result (IsBoundSelect (tables_of catalog.now) (query_of self.old.select) (query_of self.new.select) self.new.tables.items self.new.places.items) }
        ensures plan { OnOk result (IsPlanOf (query_of self.new.select) self.new.tables.items self.new.places.items self.new.plan) }
        ensures err { IfErr result (λ e. option_map error_of (select_refusal (tables_of catalog.now) (query_of self.old.select)) ≡ Some e) }
        ensures texts { self.new.texts ≡ self.old.texts }
        ensures sound { IsSound catalog.now }
    {
        bound_may_be_planned();
        let _ = catalog.table_count();
        self.tables.clear();
        self.places.clear();
        match place_select(
            &mut self.select,
            catalog,
            &mut self.tables,
            &mut self.places,
        ) {
            Ok(()) => {
                self.plan
                    .fill(&self.select, self.tables.as_slice(), &self.places);
                Ok(())
            }
            Err(error) => Err(error),
        }
    }

    /// One turn of its loops: the next row is put into `out`.
    fn turn<S: Pages>(
        &mut self,
        catalog: &Catalog,
        stamps: &Stamps,
        space: &mut S,
        out: &mut Row,
    ) -> Turn
        requires out { NoPins (S.state space.old) }
        requires work { (pages : ℕ → List ℕ)
            × IsAtWork (S.state space.old) stamps.now catalog.now.tables pages (form_of_work self.old) self.old.plan.loops.items self.old.loops }
        ensures owed { (pages : ℕ → List ℕ) (left : List (List Value))
            → IsAtWork (S.state space.old) stamps.now catalog.now.tables pages (form_of_work self.old) self.old.plan.loops.items self.old.loops
            → Owes (S.state space.old) stamps.now catalog.now.tables pages (form_of_work self.old) self.old.plan.loops.items self.old.loops left
            → Turned (S.state space.new) stamps.now catalog.now.tables pages (form_of_work self.old) self.old.plan.loops.items self.new.loops out.new left result }
        ensures work { (pages : ℕ → List ℕ)
            → IsAtWork (S.state space.old) stamps.now catalog.now.tables pages (form_of_work self.old) self.old.plan.loops.items self.old.loops
            → IfRow result (IsAtWork (S.state space.new) stamps.now catalog.now.tables pages (form_of_work self.old) self.old.plan.loops.items self.new.loops) }
        ensures nearer { IfRow result (looks_left self.old.plan.loops.items self.new.loops < looks_left self.old.plan.loops.items self.old.loops) }
        ensures steady { Steady none_mine (S.state space.old) (S.state space.new) }
        ensures takes_none { TakesNone (S.state space.old) (S.state space.new) }
        ensures cause { HasCause (S.state space.old) (S.state space.new) (fault_in result) }
        ensures check { IfFault result (LookFault IsLoopCheck) }
        ensures page { (pages : ℕ → List ℕ)
            → IsAtWork (S.state space.old) stamps.now catalog.now.tables pages (form_of_work self.old) self.old.plan.loops.items self.old.loops
            → IfFault result (NamesRead pages self.old.plan.loops.items) }
        ensures select { self.new.select ≡ self.old.select }
        ensures texts { self.new.texts ≡ self.old.texts }
        ensures plan { self.new.plan ≡ self.old.plan }
    {
        let statement = Statement {
            nodes: self.select.nodes.as_slice(),
            texts: self.texts.as_str(),
            outputs: self.select.outputs.as_slice(),
            slots: self.plan.slots.as_slice(),
            loops: self.plan.loops.as_slice(),
        };
        self.loops.turn(&statement, catalog, stamps, space, out)
    }
}

impl SelectRoom {
    ghost use Rattle.std.specs.Prelude.{◌≡◌, ◌≤◌, ◌+◌, ℕ, [], ◌<◌, List, length, true, false, option_map, Some, OnOk, IfErr};
    ghost use Rattle.hg_base.specs.Causes.{HasCause};
    ghost use Rattle.hg_base.specs.Space.{NoPins};
    ghost use Rattle.hg_base.specs.Steadiness.{Steady};
    ghost use Rattle.hg_bind.specs.Bound.{error_of, tables_of};
    ghost use Rattle.hg_bind.specs.BoundMeaning.{KeysStandApart};
    ghost use Rattle.hg_bind.specs.BoundSelect.{IsBoundSelect};
    ghost use Rattle.hg_catalog.specs.Contents.{IsSound};
    ghost use Rattle.hg_exec.specs.Standing.{IsAtWork, Owes};
    ghost use Rattle.hg_exec.specs.Turning.{IfFault, IfRow, IsLoopCheck, NamesRead, Turned, fault_in, looks_left};
    ghost use Rattle.hg_model.specs.Binding.{select_refusal};
    ghost use Rattle.hg_model.specs.Query.{query_of};
    ghost use Rattle.hg_model.specs.declared.values.Value.{Value};
    ghost use Rattle.hg_plan.specs.Planning.{IsPlanOf};
    ghost use Rattle.hg_plan.specs.ReadLaws.{IsReadSelect};
    ghost use Rattle.hg_reply.specs.Asked.{query_at};
    ghost use Rattle.hg_table.specs.Calls.{LookFault, TakesNone, none_mine};
    ghost use Rattle.hg_engine.specs.Work.{BeginsOwed, BeginsWork, form_of_work};

    /// Room with no SELECT.
    #[inline(never)]
    pub fn new(alloc: Global) -> Result<SelectRoom, NoMemory> {
        match Box::new(alloc, OpenSelect::new()) {
            Ok(boxed) => Ok(SelectRoom { boxed }),
            Err(_) => Err(NoMemory),
        }
    }

    /// Takes a SELECT and its texts, in the place of what was there.
    pub fn hold(&mut self, select: &SelectAt, texts: &str)
        requires short { length texts.now ≤ 4096 }
        ensures query { query_of self.new.select ≡ query_at select.now }
        ensures texts { self.new.texts.bytes ≡ texts.now }
    {
        let open = &mut *self.boxed;
        copy_select(select, &mut open.select);
        open.texts.clear();
        open.texts.push_str(texts);
    }

    /// Binds and plans the SELECT that is held, or answers the first cause against it.
    pub fn place(&mut self, catalog: &Catalog) -> Result<(), BindError>
        requires read { IsReadSelect (query_of self.old.select) self.old.texts.bytes }
        requires apart { KeysStandApart (query_of self.old.select) }
        ensures ok { OnOk result (IsBoundSelect (tables_of catalog.now) (query_of self.old.select) (query_of self.new.select) self.new.tables.items self.new.places.items) }
        ensures plan { OnOk result (IsPlanOf (query_of self.new.select) self.new.tables.items self.new.places.items self.new.plan) }
        ensures err { IfErr result (λ e. option_map error_of (select_refusal (tables_of catalog.now) (query_of self.old.select)) ≡ Some e) }
        ensures texts { self.new.texts ≡ self.old.texts }
        ensures sound { IsSound catalog.now }
    {
        self.boxed.place(catalog)
    }

    /// Begins its loops, over the rows that the snapshot sees.
    pub fn begin<S: Pages>(&mut self, snapshot: Stamp, space: &S)
        ensures owed { BeginsOwed (S.state space.now) snapshot.0 self.new.loops }
        ensures work { BeginsWork (S.state space.now) snapshot.0 self.new.loops }
        ensures rest { self.new ≡ record self.old { loops = self.new.loops } }
    {
        let open = &mut *self.boxed;
        open.loops.begin(snapshot, space);
    }

    /// One turn of its loops: the next row is put into `out`.
    pub fn turn<S: Pages>(
        &mut self,
        catalog: &Catalog,
        stamps: &Stamps,
        space: &mut S,
        out: &mut Row,
    ) -> Turn
        requires out { NoPins (S.state space.old) }
        requires work { (pages : ℕ → List ℕ)
            × IsAtWork (S.state space.old) stamps.now catalog.now.tables pages (form_of_work self.old) self.old.plan.loops.items self.old.loops }
        ensures owed { (pages : ℕ → List ℕ) (left : List (List Value))
            → IsAtWork (S.state space.old) stamps.now catalog.now.tables pages (form_of_work self.old) self.old.plan.loops.items self.old.loops
            → Owes (S.state space.old) stamps.now catalog.now.tables pages (form_of_work self.old) self.old.plan.loops.items self.old.loops left
            → Turned (S.state space.new) stamps.now catalog.now.tables pages (form_of_work self.old) self.old.plan.loops.items self.new.loops out.new left result }
        ensures work { (pages : ℕ → List ℕ)
            → IsAtWork (S.state space.old) stamps.now catalog.now.tables pages (form_of_work self.old) self.old.plan.loops.items self.old.loops
            → IfRow result (IsAtWork (S.state space.new) stamps.now catalog.now.tables pages (form_of_work self.old) self.old.plan.loops.items self.new.loops) }
        ensures nearer { IfRow result (looks_left self.old.plan.loops.items self.new.loops < looks_left self.old.plan.loops.items self.old.loops) }
        ensures steady { Steady none_mine (S.state space.old) (S.state space.new) }
        ensures takes_none { TakesNone (S.state space.old) (S.state space.new) }
        ensures cause { HasCause (S.state space.old) (S.state space.new) (fault_in result) }
        ensures check { IfFault result (LookFault IsLoopCheck) }
        ensures page { (pages : ℕ → List ℕ)
            → IsAtWork (S.state space.old) stamps.now catalog.now.tables pages (form_of_work self.old) self.old.plan.loops.items self.old.loops
            → IfFault result (NamesRead pages self.old.plan.loops.items) }
        ensures select { self.new.select ≡ self.old.select }
        ensures texts { self.new.texts ≡ self.old.texts }
        ensures plan { self.new.plan ≡ self.old.plan }
    {
        self.boxed.turn(catalog, stamps, space, out)
    }
}
