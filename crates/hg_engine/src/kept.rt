//! What an engine keeps, and one step of it.
use crate::say::say_fault;
use crate::tables::Tables;
use hg_io::PageDevice;
use hg_pool::Pool;
use hg_reply::{
    Asked, CommandAt, DeleteAt, InsertAt, Next, Reply, ReplyLine, SelectAt, TableAt, UpdateAt,
    Words, built,
};

/// The tables of an engine, the pool of their pages, and how many bytes the replies had so far.
pub struct Kept<M: PageDevice, T: PageDevice> {
    pub(crate) tables: Tables,
    pub(crate) pool: Pool<M, T>,
    pub(crate) said: u64,
}

impl<M: PageDevice, T: PageDevice> Kept<M, T> {
    ghost use Rattle.std.specs.Prelude.{◌≡◌, ◌<◌, ◌≤◌, ◌↔◌, ℕ, List, true, false, length, IsTrue};
    ghost use Rattle.std.specs.List.{list_all};
    ghost use Rattle.arrayvec.specs.ArrayVec.{array_vec_len};
    ghost use Rattle.hg_base.specs.Count.{raised};
    ghost use Rattle.hg_machine.specs.Plain.Replies.{ReplyLine as ReplyLineOf};
    ghost use Rattle.hg_machine.specs.Plain.State.{State};
    ghost use Rattle.hg_model.specs.Statements.{CreateTable, InsertRows, UpdateRows, DeleteRows, SelectRows, Pool as PoolTo};
    ghost use Rattle.hg_model.specs.Value.{is_printable};
    ghost use Rattle.hg_reply.specs.Asked.{command_in, texts_in, table_at, insert_at, update_at, delete_at, query_at, IsReadAs};
    ghost use Rattle.hg_reply.specs.Built.{is_built};
    ghost use Rattle.hg_reply.specs.Steps.{DropsCommand, BeginsSo, BeginsRead, ContinuesSo};
    ghost use Rattle.hg_engine.specs.Shown.{space_of, IsEngineOf, IsSomeEngine, is_pending, plan_of, turns_left, tells_of, frames_of, EngineSteps, IsLater};
    ghost use Rattle.hg_engine.specs.Stepping.{CommandFinds, PlanIsOf, StillWhere, InsertFinds, UpdateFinds, DeleteFinds, TurnFinds, no_damage};

    /// Whether a SELECT is at work.
    fn next(&self) -> Next
        ensures { (result ≡ Next.More) ↔ (is_pending self.now ≡ true) }
    {
        if self.tables.is_open {
            Next::More
        } else {
            Next::Done
        }
    }

    /// CREATE TABLE.
    fn create(&mut self, table: &TableAt, reply: &mut Reply)
        requires idle { is_pending self.old ≡ false }
        requires read { (texts : List ℕ) × IsReadAs (frames_of self.old) (CreateTable (table_at table.now)) texts }
        requires plain { is_built (CreateTable (table_at table.now)) ≡ true }
        ensures step { (texts : List ℕ) → EngineSteps M.PageDevice T.PageDevice self.old self.new reply.new
            (BeginsSo (tells_of M.PageDevice T.PageDevice self.old) (CreateTable (table_at table.now)) texts) (λ now. no_damage) }
        ensures later { IsLater (space_of M.PageDevice T.PageDevice self.old) (space_of M.PageDevice T.PageDevice self.new) }
        ensures idle { is_pending self.new ≡ false }
        ensures still { self.new.pool ≡ self.old.pool }
        ensures said { self.new.said ≡ self.old.said }
        ensures frames { frames_of self.new ≡ frames_of self.old }
    {
        reply.clear();
        self.tables.create_table(table, reply);
    }

    /// INSERT.
    fn insert(&mut self, insert: &InsertAt, texts: &str, reply: &mut Reply)
        requires idle { is_pending self.old ≡ false }
        requires stands { IsSomeEngine M.PageDevice T.PageDevice self.old }
        requires read { IsReadAs (frames_of self.old) (InsertRows (insert_at insert.now)) texts.now }
        ensures step { EngineSteps M.PageDevice T.PageDevice self.old self.new reply.new
            (BeginsSo (tells_of M.PageDevice T.PageDevice self.old) (InsertRows (insert_at insert.now)) texts.now)
            (λ now. InsertFinds (space_of M.PageDevice T.PageDevice self.old) now.catalog.tables insert.now.table.now) }
        ensures later { IsLater (space_of M.PageDevice T.PageDevice self.old) (space_of M.PageDevice T.PageDevice self.new) }
        ensures idle { is_pending self.new ≡ false }
        ensures said { self.new.said ≡ self.old.said }
        ensures frames { frames_of self.new ≡ frames_of self.old }
    {
        reply.clear();
        self.tables
            .insert(&mut self.pool, insert, texts.as_bytes(), reply);
    }

    /// UPDATE.
    fn update(&mut self, update: &UpdateAt, texts: &str, reply: &mut Reply)
        requires idle { is_pending self.old ≡ false }
        requires stands { IsSomeEngine M.PageDevice T.PageDevice self.old }
        requires read { IsReadAs (frames_of self.old) (UpdateRows (update_at update.now)) texts.now }
        ensures step { EngineSteps M.PageDevice T.PageDevice self.old self.new reply.new
            (BeginsSo (tells_of M.PageDevice T.PageDevice self.old) (UpdateRows (update_at update.now)) texts.now)
            (λ now. UpdateFinds (space_of M.PageDevice T.PageDevice self.old) self.old.tables.catalog.tables update.now.table.now) }
        ensures later { IsLater (space_of M.PageDevice T.PageDevice self.old) (space_of M.PageDevice T.PageDevice self.new) }
        ensures idle { is_pending self.new ≡ false }
        ensures said { self.new.said ≡ self.old.said }
        ensures frames { frames_of self.new ≡ frames_of self.old }
    {
        reply.clear();
        self.tables.update(&mut self.pool, update, texts, reply);
    }

    /// DELETE.
    fn delete(&mut self, delete: &DeleteAt, texts: &str, reply: &mut Reply)
        requires idle { is_pending self.old ≡ false }
        requires stands { IsSomeEngine M.PageDevice T.PageDevice self.old }
        requires read { IsReadAs (frames_of self.old) (DeleteRows (delete_at delete.now)) texts.now }
        ensures step { EngineSteps M.PageDevice T.PageDevice self.old self.new reply.new
            (BeginsSo (tells_of M.PageDevice T.PageDevice self.old) (DeleteRows (delete_at delete.now)) texts.now)
            (λ now. DeleteFinds (space_of M.PageDevice T.PageDevice self.old) self.old.tables.catalog.tables delete.now.table.now) }
        ensures later { IsLater (space_of M.PageDevice T.PageDevice self.old) (space_of M.PageDevice T.PageDevice self.new) }
        ensures idle { is_pending self.new ≡ false }
        ensures said { self.new.said ≡ self.old.said }
        ensures frames { frames_of self.new ≡ frames_of self.old }
    {
        reply.clear();
        self.tables.delete(&mut self.pool, delete, texts, reply);
    }

    /// SELECT.
    fn select(&mut self, select: &SelectAt, texts: &str, reply: &mut Reply)
        requires idle { is_pending self.old ≡ false }
        requires read { IsReadAs (frames_of self.old) (SelectRows (query_at select.now)) texts.now }
        requires short { length texts.now ≤ 4096 }
        requires built { is_built (SelectRows (query_at select.now)) ≡ true }
        ensures step { EngineSteps M.PageDevice T.PageDevice self.old self.new reply.new
            (BeginsSo (tells_of M.PageDevice T.PageDevice self.old) (SelectRows (query_at select.now)) texts.now) (λ now. no_damage) }
        ensures later { IsLater (space_of M.PageDevice T.PageDevice self.old) (space_of M.PageDevice T.PageDevice self.new) }
        ensures plan { is_pending self.new ≡ true → PlanIsOf self.new.tables (SelectRows (query_at select.now)) }
        ensures still { self.new.pool ≡ self.old.pool }
        ensures said { self.new.said ≡ self.old.said }
        ensures frames { frames_of self.new ≡ frames_of self.old }
    {
        reply.clear();
        self.tables.select(&self.pool, select, texts, reply);
    }

    /// POOL.
    fn resize(&mut self, frames: u32, reply: &mut Reply)
        requires idle { is_pending self.old ≡ false }
        requires stands { IsSomeEngine M.PageDevice T.PageDevice self.old }
        requires at_least { 16 ≤ frames }
        requires at_most { frames ≤ frames_of self.old }
        ensures step { (texts : List ℕ) → EngineSteps M.PageDevice T.PageDevice self.old self.new reply.new
            (BeginsSo (tells_of M.PageDevice T.PageDevice self.old) (PoolTo frames) texts) (λ now. no_damage) }
        ensures later { IsLater (space_of M.PageDevice T.PageDevice self.old) (space_of M.PageDevice T.PageDevice self.new) }
        ensures idle { is_pending self.new ≡ false }
        ensures said { self.new.said ≡ self.old.said }
        ensures frames { frames_of self.new ≡ frames_of self.old }
    {
        reply.clear();
        match self.pool.resize(frames) {
            Ok(()) => reply.say(&ReplyLine::PoolSet(frames)),
            Err(fault) => say_fault(reply, fault),
        }
    }

    /// A command up to its first turn.
    fn begin(&mut self, asked: &Asked, reply: &mut Reply)
        requires idle { is_pending self.old ≡ false }
        requires stands { IsSomeEngine M.PageDevice T.PageDevice self.old }
        requires read { IsReadAs (frames_of self.old) (command_in asked.now.command) (texts_in asked.now) }
        requires built { is_built (command_in asked.now.command) ≡ true }
        ensures step { EngineSteps M.PageDevice T.PageDevice self.old self.new reply.new
            (BeginsSo (tells_of M.PageDevice T.PageDevice self.old) (command_in asked.now.command) (texts_in asked.now))
            (λ now. CommandFinds (space_of M.PageDevice T.PageDevice self.old) self.old.tables now (command_in asked.now.command)) }
        ensures later { IsLater (space_of M.PageDevice T.PageDevice self.old) (space_of M.PageDevice T.PageDevice self.new) }
        ensures plan { is_pending self.new ≡ true → PlanIsOf self.new.tables (command_in asked.now.command) }
        ensures still { StillWhere (command_in asked.now.command) (self.new.pool ≡ self.old.pool) }
        ensures said { self.new.said ≡ self.old.said }
        ensures frames { frames_of self.new ≡ frames_of self.old }
    {
        match asked.command {
            CommandAt::CreateTable(table) => self.create(&table, reply),
            CommandAt::Insert(insert) => self.insert(&insert, asked.texts, reply),
            CommandAt::Update(update) => self.update(&update, asked.texts, reply),
            CommandAt::Delete(delete) => self.delete(&delete, asked.texts, reply),
            CommandAt::Select(select) => self.select(&select, asked.texts, reply),
            CommandAt::Pool(frames) => self.resize(frames, reply),
            CommandAt::CreateIndex(_)
            | CommandAt::Vacuum(_)
            | CommandAt::OpenCursor(_, _)
            | CommandAt::Start(_, _)
            | CommandAt::Work(_)
            | CommandAt::Fetch(_, _)
            | CommandAt::Close(_)
            | CommandAt::Mpl(_)
            | CommandAt::ShowMemory => unreachable!(),
        }
    }

    /// One turn of the SELECT at work.
    fn turn(&mut self, reply: &mut Reply)
        requires pending { is_pending self.old ≡ true }
        requires stands { IsSomeEngine M.PageDevice T.PageDevice self.old }
        ensures turns { EngineSteps M.PageDevice T.PageDevice self.old self.new reply.new (ContinuesSo (tells_of M.PageDevice T.PageDevice self.old))
            (λ now. TurnFinds (space_of M.PageDevice T.PageDevice self.old) self.old.tables) }
        ensures nearer { turns_left self.new < turns_left self.old }
        ensures later { IsLater (space_of M.PageDevice T.PageDevice self.old) (space_of M.PageDevice T.PageDevice self.new) }
        ensures plan { plan_of self.new ≡ plan_of self.old }
        ensures said { self.new.said ≡ self.old.said }
        ensures frames { frames_of self.new ≡ frames_of self.old }
    {
        reply.clear();
        self.tables.turn(&mut self.pool, reply);
    }

    /// Counts the bytes of a reply.
    fn count(&mut self, reply: &Reply)
        ensures said { self.new.said ≡ raised self.old.said (array_vec_len reply.now.text) }
        ensures tables { self.new.tables ≡ self.old.tables }
        ensures pool { self.new.pool ≡ self.old.pool }
    {
        self.said = self.said.saturating_add(reply.text.len() as u64);
    }

    /// A command up to its first turn, where there is such a one by now; else a syntax error.
    fn begin_read(&mut self, asked: &Asked, reply: &mut Reply)
        requires idle { is_pending self.old ≡ false }
        requires stands { IsSomeEngine M.PageDevice T.PageDevice self.old }
        requires read { IsReadAs (frames_of self.old) (command_in asked.now.command) (texts_in asked.now) }
        ensures step { EngineSteps M.PageDevice T.PageDevice self.old self.new reply.new
            (BeginsRead (tells_of M.PageDevice T.PageDevice self.old) (command_in asked.now.command) (texts_in asked.now))
            (λ now. CommandFinds (space_of M.PageDevice T.PageDevice self.old) self.old.tables now (command_in asked.now.command)) }
        ensures later { IsLater (space_of M.PageDevice T.PageDevice self.old) (space_of M.PageDevice T.PageDevice self.new) }
        ensures plan { is_pending self.new ≡ true → PlanIsOf self.new.tables (command_in asked.now.command) }
        ensures still { StillWhere (command_in asked.now.command) (self.new.pool ≡ self.old.pool) }
        ensures said { self.new.said ≡ self.old.said }
        ensures frames { frames_of self.new ≡ frames_of self.old }
    {
        if !built(&asked.command) {
            reply.clear();
            reply.say(&ReplyLine::Error(1, Words::Nothing));
            return;
        }
        self.begin(asked, reply);
    }

    /// Answers a command up to its first turn.
    pub(crate) fn answer(&mut self, asked: &Asked, reply: &mut Reply) -> Next
        requires idle { is_pending self.old ≡ false }
        requires stands { IsSomeEngine M.PageDevice T.PageDevice self.old }
        requires read { IsReadAs (frames_of self.old) (command_in asked.now.command) (texts_in asked.now) }
        ensures step { EngineSteps M.PageDevice T.PageDevice self.old self.new reply.new
            (BeginsRead (tells_of M.PageDevice T.PageDevice self.old) (command_in asked.now.command) (texts_in asked.now))
            (λ now. CommandFinds (space_of M.PageDevice T.PageDevice self.old) self.old.tables now (command_in asked.now.command)) }
        ensures more { (result ≡ Next.More) ↔ (is_pending self.new ≡ true) }
        ensures later { IsLater (space_of M.PageDevice T.PageDevice self.old) (space_of M.PageDevice T.PageDevice self.new) }
        ensures plan { is_pending self.new ≡ true → PlanIsOf self.new.tables (command_in asked.now.command) }
        ensures still { StillWhere (command_in asked.now.command) (self.new.pool ≡ self.old.pool) }
        ensures said { self.new.said ≡ raised self.old.said (array_vec_len reply.new.text) }
        ensures frames { frames_of self.new ≡ frames_of self.old }
    {
        self.begin_read(asked, reply);
        self.count(reply);
        self.next()
    }

    /// Gives one turn of the command at work.
    pub(crate) fn more(&mut self, reply: &mut Reply) -> Next
        requires pending { is_pending self.old ≡ true }
        requires stands { IsSomeEngine M.PageDevice T.PageDevice self.old }
        ensures turns { EngineSteps M.PageDevice T.PageDevice self.old self.new reply.new (ContinuesSo (tells_of M.PageDevice T.PageDevice self.old))
            (λ now. TurnFinds (space_of M.PageDevice T.PageDevice self.old) self.old.tables) }
        ensures nearer { turns_left self.new < turns_left self.old }
        ensures more { (result ≡ Next.More) ↔ (is_pending self.new ≡ true) }
        ensures later { IsLater (space_of M.PageDevice T.PageDevice self.old) (space_of M.PageDevice T.PageDevice self.new) }
        ensures plan { plan_of self.new ≡ plan_of self.old }
        ensures said { self.new.said ≡ raised self.old.said (array_vec_len reply.new.text) }
        ensures frames { frames_of self.new ≡ frames_of self.old }
    {
        self.turn(reply);
        self.count(reply);
        self.next()
    }

    /// Drops the command at work.
    pub(crate) fn drop_command(&mut self)
        ensures drops { DropsCommand (IsEngineOf M.PageDevice T.PageDevice) self.old self.new }
        ensures idle { is_pending self.new ≡ false }
        ensures pool { self.new.pool ≡ self.old.pool }
        ensures said { self.new.said ≡ self.old.said }
        ensures frames { frames_of self.new ≡ frames_of self.old }
    {
        self.tables.is_open = false;
    }
}
