//! Open loops, and their turns.
use crate::next::next_row;
use crate::plan::{OpenLoop, Statement};
use crate::whole::{gives_joined, reads_whole};
use arrayvec::ArrayVec;
use hg_base::{File, PageFault, Pages, Stamp};
use hg_catalog::Catalog;
use hg_expr::{Evaluation, rows_fit};
use hg_plan::TableLoop;
use hg_table::Stamps;
use hg_value::Row;

/// How many versions a page has at most.
const SLOTS: u64 = 128;

/// What a turn gives: a row, the end, or why it failed. Behind a fault no turn may follow.
#[derive(Clone, Copy)]
pub enum Turn {
    Row,
    End,
    Fault(PageFault),
}

/// What a look gives: that loops opened or closed, that a whole row has joined, that none is left, or why it
/// failed.
#[derive(Clone, Copy)]
pub enum Step {
    Again,
    Row,
    End,
    Fault(PageFault),
}

/// The open loops of a SELECT, the outermost first; the row joined so far, and the row that was read; the
/// snapshot, and one more than the rows that a loop gives at most.
#[derive(Drop)]
pub struct Loops {
    pub(crate) opened: ArrayVec<OpenLoop, 4>,
    pub(crate) joined: Row,
    pub(crate) read: Row,
    pub(crate) snapshot: Stamp,
    pub(crate) most: u64,
}

impl Loops {
    ghost use Rattle.std.specs.Prelude.{◌≡◌, ◌<◌, ◌≤◌, ◌+◌, ◌++◌, ◌∷◌, [], ℕ, true, Bool, List, length, take, slice_get, Some, None, IfOk, IfErr, IfSome, MatchOption, if◌then◌else◌};
    ghost use Rattle.std.specs.Bool.{OnTrue};
    ghost use Rattle.hg_base.specs.Causes.{HasCause, fault_of};
    ghost use Rattle.hg_base.specs.Space.{NoPins};
    ghost use Rattle.hg_base.specs.Steadiness.{Steady};
    ghost use Rattle.hg_expr.specs.Over.{RowFits};
    ghost use Rattle.hg_model.specs.Tables.{fits_columns};
    ghost use Rattle.hg_model.specs.Width.{IsSound};
    ghost use Rattle.hg_model.specs.declared.values.Value.{Value};
    ghost use Rattle.hg_table.specs.Calls.{none_mine, TakesNone, LookFault, NamesOneOf, StandsOn};
    ghost use Rattle.hg_table.specs.Chains.{IsChain};
    ghost use Rattle.hg_table.specs.Marks.{committed};
    ghost use Rattle.std.specs.List.{AllByRecursion};
    ghost use Rattle.hg_value.specs.Choosing.{HasRoomFor};
    ghost use Rattle.hg_value.specs.Looks.{chosen};
    ghost use Rattle.hg_catalog.specs.Contents.{CatalogTable};
    ghost use Rattle.hg_exec.specs.Beginning.{IsShown};
    ghost use Rattle.hg_exec.specs.Joins.{Form, TableRows, form_of, joined_with, output_of, passes, rows_from};
    ghost use Rattle.hg_exec.specs.Standing.{entry, IsForm, LoopHasLeft, LoopStands, Owes, IsAtWork};
    ghost use Rattle.hg_exec.specs.Turning.{Finds, IsLoopCheck, NamesRead, looks_left, Stepped, Turned, IfRow, IfFault, fault_in, IfGoesOn, IfWhole, IfStepFault, fault_of_step};
    ghost use Rattle.hg_exec.specs.Entering.{IsOnWay, MayJoin, IsWhole, Enters};
    ghost use Rattle.hg_plan.specs.declared.plan.TableLoop.{TableLoop as TableLoopOf};

    /// Loops of which none is open.
    pub fn new() -> Loops
        ensures { result.opened.items ≡ [] }
    {
        Loops {
            opened: ArrayVec::new(),
            joined: Row::new(),
            read: Row::new(),
            snapshot: Stamp(0),
            most: 1,
        }
    }

    /// Opens the first loop: all rows are left to give that the statement has over its tables, as the snapshot
    /// sees them.
    pub fn begin<S: Pages>(&mut self, snapshot: Stamp, space: &S)
        ensures owed { (marks : List Bool) (tables : List CatalogTable) (pages : ℕ → List ℕ) (f : Form) (loops : List TableLoopOf) (rows : TableRows) → 0 < length loops
            → AllByRecursion (λ (l : TableLoopOf). IsShown (S.state space.now) (committed marks) snapshot.0 tables pages l.table (rows l.table)) loops
            → Owes (S.state space.now) marks tables pages f loops self.new (rows_from f rows loops []) }
        ensures work { (marks : List Bool) (tables : List CatalogTable) (pages : ℕ → List ℕ) (f : Form) (loops : List TableLoopOf) → IsForm tables f loops
            → AllByRecursion (LoopStands (S.state space.now) tables pages) loops → 0 < length loops
            → ((S.state space.now).told ≡ true → (rows : TableRows)
            × AllByRecursion (λ (l : TableLoopOf). IsShown (S.state space.now) (committed marks) snapshot.0 tables pages l.table (rows l.table)) loops)
            → IsAtWork (S.state space.now) marks tables pages f loops self.new }
    {
        self.opened.clear();
        self.snapshot = snapshot;
        self.most = SLOTS * space.taken(File::Main) as u64 + 1;
        self.opened.push(OpenLoop {
            at: None,
            budget: self.most,
            start: 0,
        });
    }

    /// The next row of an open loop over a table, which is put into the row that was read.
    fn look_apart<S: Pages>(
        &mut self,
        table: u8,
        from: OpenLoop,
        catalog: &Catalog,
        stamps: &Stamps,
        space: &mut S,
    ) -> Result<Option<OpenLoop>, PageFault>
        requires out { NoPins (S.state space.old) }
        requires inside { table < length catalog.now.tables }
        requires more { 0 < from.budget }
        requires way { (pages : ℕ → List ℕ)
            × IsOnWay (S.state space.old) (committed stamps.now) self.old.snapshot.0 catalog.now.tables pages table from }
        ensures finds { IfOk result (λ found. (pages : ℕ → List ℕ) (left : List (List Value))
            → LoopHasLeft (S.state space.old) (committed stamps.now) self.old.snapshot.0 catalog.now.tables pages table from.at from.budget left
            → MatchOption found (left ≡ [])
            (Finds (S.state space.new) (committed stamps.now) self.old.snapshot.0 (entry catalog.now.tables table).pages
            (entry catalog.now.tables table).columns (pages table) left self.new.read)) }
        ensures fits { IfOk result (λ found. IfSome found (λ o. fits_columns (entry catalog.now.tables table).columns self.new.read ≡ true)) }
        ensures next { IfOk result (λ found. IfSome found (λ o. (o.budget + 1 ≡ from.budget) × (0 < o.budget) × (o.start ≡ from.start))) }
        ensures on { IfOk result (λ found. IfSome found (λ o. (pages : List ℕ)
            → IsChain (S.state space.old) (entry catalog.now.tables table).pages pages → StandsOn pages o.at)) }
        ensures steady { Steady none_mine (S.state space.old) (S.state space.new) }
        ensures takes_none { TakesNone (S.state space.old) (S.state space.new) }
        ensures cause { HasCause (S.state space.old) (S.state space.new) (fault_of result) }
        ensures check { IfErr result (LookFault IsLoopCheck) }
        ensures page { (pages : List ℕ) → IsChain (S.state space.old) (entry catalog.now.tables table).pages pages
            → IfErr result (NamesOneOf pages) }
        ensures opened { self.new.opened ≡ self.old.opened }
        ensures joined { self.new.joined ≡ self.old.joined }
        ensures snapshot { self.new.snapshot ≡ self.old.snapshot }
        ensures most { self.new.most ≡ self.old.most }
    {
        let data = catalog.table_data(table);
        let columns = catalog.columns(table).as_slice();
        next_row(
            space,
            &data,
            columns,
            from,
            self.snapshot,
            stamps,
            &mut self.read,
        )
    }

    /// The next row of an open loop over a table, which is put into the joined row: the loop is the first with
    /// values there. Where no row is left the joined row is as it was.
    fn look_joined<S: Pages>(
        &mut self,
        table: u8,
        from: OpenLoop,
        catalog: &Catalog,
        stamps: &Stamps,
        space: &mut S,
    ) -> Result<Option<OpenLoop>, PageFault>
        requires out { NoPins (S.state space.old) }
        requires inside { table < length catalog.now.tables }
        requires more { 0 < from.budget }
        requires way { (pages : ℕ → List ℕ)
            × IsOnWay (S.state space.old) (committed stamps.now) self.old.snapshot.0 catalog.now.tables pages table from }
        ensures finds { IfOk result (λ found. (pages : ℕ → List ℕ) (left : List (List Value))
            → LoopHasLeft (S.state space.old) (committed stamps.now) self.old.snapshot.0 catalog.now.tables pages table from.at from.budget left
            → MatchOption found (left ≡ [])
            (Finds (S.state space.new) (committed stamps.now) self.old.snapshot.0 (entry catalog.now.tables table).pages
            (entry catalog.now.tables table).columns (pages table) left self.new.joined)) }
        ensures fits { IfOk result (λ found. IfSome found (λ o. fits_columns (entry catalog.now.tables table).columns self.new.joined ≡ true)) }
        ensures next { IfOk result (λ found. IfSome found (λ o. (o.budget + 1 ≡ from.budget) × (0 < o.budget) × (o.start ≡ from.start))) }
        ensures on { IfOk result (λ found. IfSome found (λ o. (pages : List ℕ)
            → IsChain (S.state space.old) (entry catalog.now.tables table).pages pages → StandsOn pages o.at)) }
        ensures steady { Steady none_mine (S.state space.old) (S.state space.new) }
        ensures takes_none { TakesNone (S.state space.old) (S.state space.new) }
        ensures cause { HasCause (S.state space.old) (S.state space.new) (fault_of result) }
        ensures check { IfErr result (LookFault IsLoopCheck) }
        ensures page { (pages : List ℕ) → IsChain (S.state space.old) (entry catalog.now.tables table).pages pages
            → IfErr result (NamesOneOf pages) }
        ensures opened { self.new.opened ≡ self.old.opened }
        ensures unseen { IfOk result (λ found. found ≡ None → self.new.joined ≡ self.old.joined) }
        ensures snapshot { self.new.snapshot ≡ self.old.snapshot }
        ensures most { self.new.most ≡ self.old.most }
    {
        let data = catalog.table_data(table);
        let columns = catalog.columns(table).as_slice();
        next_row(
            space,
            &data,
            columns,
            from,
            self.snapshot,
            stamps,
            &mut self.joined,
        )
    }

    /// The next row of an open loop over a table, which is put into the joined row where it stands there whole, and
    /// else into the row that was read.
    fn look<S: Pages>(
        &mut self,
        table: u8,
        whole: bool,
        from: OpenLoop,
        catalog: &Catalog,
        stamps: &Stamps,
        space: &mut S,
    ) -> Result<Option<OpenLoop>, PageFault>
        requires out { NoPins (S.state space.old) }
        requires inside { table < length catalog.now.tables }
        requires more { 0 < from.budget }
        requires whole { OnTrue whole (from.start ≡ 0) }
        requires way { (pages : ℕ → List ℕ)
            × IsOnWay (S.state space.old) (committed stamps.now) self.old.snapshot.0 catalog.now.tables pages table from }
        ensures finds { IfOk result (λ found. (pages : ℕ → List ℕ) (left : List (List Value))
            → LoopHasLeft (S.state space.old) (committed stamps.now) self.old.snapshot.0 catalog.now.tables pages table from.at from.budget left
            → MatchOption found (left ≡ [])
            (Finds (S.state space.new) (committed stamps.now) self.old.snapshot.0 (entry catalog.now.tables table).pages
            (entry catalog.now.tables table).columns (pages table) left (if whole then self.new.joined else self.new.read))) }
        ensures fits { IfOk result (λ found. IfSome found (λ o. fits_columns (entry catalog.now.tables table).columns (if whole then self.new.joined else self.new.read) ≡ true)) }
        ensures next { IfOk result (λ found. IfSome found (λ o. (o.budget + 1 ≡ from.budget) × (0 < o.budget) × (o.start ≡ from.start))) }
        ensures on { IfOk result (λ found. IfSome found (λ o. (pages : List ℕ)
            → IsChain (S.state space.old) (entry catalog.now.tables table).pages pages → StandsOn pages o.at)) }
        ensures steady { Steady none_mine (S.state space.old) (S.state space.new) }
        ensures takes_none { TakesNone (S.state space.old) (S.state space.new) }
        ensures cause { HasCause (S.state space.old) (S.state space.new) (fault_of result) }
        ensures check { IfErr result (LookFault IsLoopCheck) }
        ensures page { (pages : List ℕ) → IsChain (S.state space.old) (entry catalog.now.tables table).pages pages
            → IfErr result (NamesOneOf pages) }
        ensures opened { self.new.opened ≡ self.old.opened }
        ensures joined { take from.start self.new.joined ≡ take from.start self.old.joined }
        ensures unseen { IfOk result (λ found. found ≡ None → self.new.joined ≡ self.old.joined) }
        ensures snapshot { self.new.snapshot ≡ self.old.snapshot }
        ensures most { self.new.most ≡ self.old.most }
    {
        if whole {
            self.look_joined(table, from, catalog, stamps, space)
        } else {
            self.look_apart(table, from, catalog, stamps, space)
        }
    }

    /// Puts the named columns of the row that was read behind the values of the loops around its own. A row that
    /// stands there whole is left as it is.
    fn put_read(&mut self, of: &TableLoop, whole: bool, start: u8)
        requires columns { AllByRecursion (λ k. k < length (if whole then self.old.joined else self.old.read)) of.now.columns.items }
        requires room { HasRoomFor (take start self.old.joined) (chosen (if whole then self.old.joined else self.old.read) of.now.columns.items) }
        requires whole { OnTrue whole ((start ≡ 0) × (chosen self.old.joined of.now.columns.items ≡ self.old.joined)) }
        ensures joined { self.new.joined ≡ joined_with of.now (take start self.old.joined) (if whole then self.old.joined else self.old.read) }
        ensures opened { self.new.opened ≡ self.old.opened }
        ensures snapshot { self.new.snapshot ≡ self.old.snapshot }
        ensures most { self.new.most ≡ self.old.most }
    {
        if whole {
            return;
        }
        self.joined.truncate(start);
        let count = self.read.len();
        match self
            .joined
            .push_columns(self.read.bytes(), count, of.columns.as_slice())
        {
            Ok(()) => {}
            Err(_) => unreachable!(),
        }
    }

    /// Puts the named columns of the row that was read behind the values of the loops around its own, and
    /// answers whether the conditions of its loop hold.
    fn join(&mut self, statement: &Statement, of: &TableLoop, whole: bool, start: u8) -> bool
        requires may { MayJoin (form_of statement.now) of.now (take start self.old.joined) (if whole then self.old.joined else self.old.read) }
        requires whole { OnTrue whole ((start ≡ 0) × (chosen self.old.joined of.now.columns.items ≡ self.old.joined)) }
        ensures joined { self.new.joined ≡ joined_with of.now (take start self.old.joined) (if whole then self.old.joined else self.old.read) }
        ensures keeps { result ≡ passes (form_of statement.now) of.now.tests.items self.new.joined }
        ensures opened { self.new.opened ≡ self.old.opened }
        ensures snapshot { self.new.snapshot ≡ self.old.snapshot }
        ensures most { self.new.most ≡ self.old.most }
    {
        self.put_read(of, whole, start);
        let evaluation = Evaluation {
            nodes: statement.nodes,
            slots: statement.slots,
            texts: statement.texts,
            row: &self.joined,
        };
        evaluation.keeps(of.tests.as_slice())
    }

    /// The row that was read joins, and its loop, the innermost, stands behind it.
    fn enter(&mut self, statement: &Statement, whole: bool, found: OpenLoop) -> Step
        requires few { length statement.now.loops.now ≤ 4 }
        requires inside { length self.old.opened.items < length statement.now.loops.now }
        requires joins { (of : TableLoopOf) → slice_get statement.now.loops.now (length self.old.opened.items) ≡ Some of
            → MayJoin (form_of statement.now) of (take found.start self.old.joined) (if whole then self.old.joined else self.old.read) }
        requires whole { OnTrue whole ((found.start ≡ 0) × ((of : TableLoopOf) → slice_get statement.now.loops.now (length self.old.opened.items) ≡ Some of
            → chosen self.old.joined of.columns.items ≡ self.old.joined)) }
        ensures joined { (of : TableLoopOf) → slice_get statement.now.loops.now (length self.old.opened.items) ≡ Some of
            → self.new.joined ≡ joined_with of (take found.start self.old.joined) (if whole then self.old.joined else self.old.read) }
        ensures enters { (of : TableLoopOf) → slice_get statement.now.loops.now (length self.old.opened.items) ≡ Some of
            → Enters (form_of statement.now) statement.now.loops.now self.old.most of self.old.opened.items found self.new.joined self.new.opened.items result }
        ensures snapshot { self.new.snapshot ≡ self.old.snapshot }
        ensures most { self.new.most ≡ self.old.most }
    {
        let depth = self.opened.len();
        let keeps = self.join(statement, &statement.loops[depth], whole, found.start);
        self.opened.push(found);
        if !keeps {
            return Step::Again;
        }
        if depth + 1 == statement.loops.len() {
            return Step::Row;
        }
        self.opened.push(OpenLoop {
            at: None,
            budget: self.most,
            start: self.joined.len(),
        });
        Step::Again
    }

    /// One look: the innermost open loop gives its next row, which joins, or it is closed.
    fn step<S: Pages>(
        &mut self,
        statement: &Statement,
        catalog: &Catalog,
        stamps: &Stamps,
        space: &mut S,
    ) -> Step
        requires out { NoPins (S.state space.old) }
        requires work { (pages : ℕ → List ℕ)
            × IsAtWork (S.state space.old) stamps.now catalog.now.tables pages (form_of statement.now) statement.now.loops.now self.old }
        ensures work { (pages : ℕ → List ℕ)
            → IsAtWork (S.state space.old) stamps.now catalog.now.tables pages (form_of statement.now) statement.now.loops.now self.old
            → IfGoesOn result (IsAtWork (S.state space.new) stamps.now catalog.now.tables pages (form_of statement.now) statement.now.loops.now self.new) }
        ensures owed { (pages : ℕ → List ℕ) (left : List (List Value))
            → IsAtWork (S.state space.old) stamps.now catalog.now.tables pages (form_of statement.now) statement.now.loops.now self.old
            → Owes (S.state space.old) stamps.now catalog.now.tables pages (form_of statement.now) statement.now.loops.now self.old left
            → Stepped (S.state space.new) stamps.now catalog.now.tables pages (form_of statement.now) statement.now.loops.now self.new left result }
        ensures whole { IfWhole result (IsWhole (form_of statement.now) self.new.joined) }
        ensures nearer { IfGoesOn result (looks_left statement.now.loops.now self.new < looks_left statement.now.loops.now self.old) }
        ensures steady { Steady none_mine (S.state space.old) (S.state space.new) }
        ensures takes_none { TakesNone (S.state space.old) (S.state space.new) }
        ensures cause { HasCause (S.state space.old) (S.state space.new) (fault_of_step result) }
        ensures check { IfStepFault result (LookFault IsLoopCheck) }
        ensures page { (pages : ℕ → List ℕ)
            → IsAtWork (S.state space.old) stamps.now catalog.now.tables pages (form_of statement.now) statement.now.loops.now self.old
            → IfStepFault result (NamesRead pages statement.now.loops.now) }
        ensures snapshot { self.new.snapshot ≡ self.old.snapshot }
        ensures most { self.new.most ≡ self.old.most }
    {
        rows_fit();
        let Some(innermost) = self.opened.pop() else {
            return Step::End;
        };
        let depth = self.opened.len();
        let of = &statement.loops[depth];
        let whole = reads_whole(catalog, of, innermost.start);
        match self.look(of.table, whole, innermost, catalog, stamps, space) {
            Ok(Some(found)) => self.enter(statement, whole, found),
            Ok(None) => Step::Again,
            Err(fault) => Step::Fault(fault),
        }
    }

    /// Puts the outputs of the joined row into `out`. Where they are its values, its bytes are copied as they
    /// stand.
    fn put_outputs(&self, statement: &Statement, out: &mut Row)
        requires { IsWhole (form_of statement.now) self.now.joined }
        ensures { out.new ≡ output_of (form_of statement.now) self.now.joined }
    {
        if gives_joined(statement, &self.joined) {
            out.read_into(self.joined.bytes(), self.joined.len());
            return;
        }
        let evaluation = Evaluation {
            nodes: statement.nodes,
            slots: statement.slots,
            texts: statement.texts,
            row: &self.joined,
        };
        out.clear();
        for output in statement.outputs {
            match out.push_look(&evaluation.value(output.node)) {
                Ok(()) => {}
                Err(_) => unreachable!(),
            }
        }
    }

    /// One turn: the next row is put into `out`. Row takes it from what is owed, and it is the first of that;
    /// End comes exactly where none is owed. Damage is found only over a space that does not tell, in a page
    /// of a table of the statement. Behind End and Fault the loops are not asked again.
    pub fn turn<S: Pages>(
        &mut self,
        statement: &Statement,
        catalog: &Catalog,
        stamps: &Stamps,
        space: &mut S,
        out: &mut Row,
    ) -> Turn
        requires out { NoPins (S.state space.old) }
        requires work { (pages : ℕ → List ℕ)
            × IsAtWork (S.state space.old) stamps.now catalog.now.tables pages (form_of statement.now) statement.now.loops.now self.old }
        ensures owed { (pages : ℕ → List ℕ) (left : List (List Value))
            → IsAtWork (S.state space.old) stamps.now catalog.now.tables pages (form_of statement.now) statement.now.loops.now self.old
            → Owes (S.state space.old) stamps.now catalog.now.tables pages (form_of statement.now) statement.now.loops.now self.old left
            → Turned (S.state space.new) stamps.now catalog.now.tables pages (form_of statement.now) statement.now.loops.now self.new out.new left result }
        ensures work { (pages : ℕ → List ℕ)
            → IsAtWork (S.state space.old) stamps.now catalog.now.tables pages (form_of statement.now) statement.now.loops.now self.old
            → IfRow result (IsAtWork (S.state space.new) stamps.now catalog.now.tables pages (form_of statement.now) statement.now.loops.now self.new) }
        ensures nearer { IfRow result (looks_left statement.now.loops.now self.new < looks_left statement.now.loops.now self.old) }
        ensures steady { Steady none_mine (S.state space.old) (S.state space.new) }
        ensures takes_none { TakesNone (S.state space.old) (S.state space.new) }
        ensures cause { HasCause (S.state space.old) (S.state space.new) (fault_in result) }
        ensures check { IfFault result (LookFault IsLoopCheck) }
        ensures page { (pages : ℕ → List ℕ)
            → IsAtWork (S.state space.old) stamps.now catalog.now.tables pages (form_of statement.now) statement.now.loops.now self.old
            → IfFault result (NamesRead pages statement.now.loops.now) }
    {
        loop {
            match self.step(statement, catalog, stamps, space) {
                Step::Again => {}
                Step::Row => {
                    self.put_outputs(statement, out);
                    return Turn::Row;
                }
                Step::End => return Turn::End,
                Step::Fault(fault) => return Turn::Fault(fault),
            }
        }
    }
}
