//! Judges what was read.
ghost use Rattle.std.specs.Prelude.{◌≡◌, not, ◌&&◌, nat_le};
ghost use Rattle.hg_model.specs.Reading.{is_bad_count};
ghost use Rattle.hg_parse.specs.AtHand.{number_at};
ghost use Rattle.hg_parse.specs.Judging.{bad_kept, columns_kept, nodes_kept, too_many_kept};
ghost use Rattle.hg_parse.specs.Kept.{kept, form_at};
ghost use Rattle.hg_parse.specs.Statements.{short_count, short_form, nodes_over, query_over};

use crate::places::{FormAt, NumberAt};
use crate::room::Room;
use crate::statement::Statement;
use hg_model::Count;

/// Whether a number is out of a range, whose greatest number is below 2^32.
fn is_outside(number: &NumberAt<'_>, least: u32, most: u32) -> bool
    ensures { result ≡ not (nat_le least (number_at number.now) && nat_le (number_at number.now) most) }
{
    match number.piece.count() {
        Some(n) => !(least <= n && n <= most),
        None => true,
    }
}

/// Whether a number of the statement is out of range.
#[tactic(auto, unfolding(crate::specs::Kept::kept))]
pub fn has_bad_number(form: &FormAt<'_>, max: u32, room: &Room) -> bool
    ensures { result ≡ bad_kept max (form_at form.now) (kept room.now) }
{
    match form {
        FormAt::Table(_) => room.bad_type,
        FormAt::Index(_, _, _) => false,
        FormAt::Insert(_) => room.bad_value,
        FormAt::Update(_, _) => room.bad_node,
        FormAt::Delete(_, _) => room.bad_node,
        FormAt::Vacuum(_) => false,
        FormAt::Select(_) => room.bad_node || room.bad_key,
        FormAt::Open(_, _) => room.bad_node || room.bad_key,
        FormAt::Start(_, n) => is_outside(n, 1, 1000000000),
        FormAt::Work(n) => is_outside(n, 1, 1000000000),
        FormAt::Fetch(_, n) => is_outside(n, 1, 1000000000),
        FormAt::Close(_) => false,
        FormAt::Pool(n) => is_outside(n, 16, max),
        FormAt::Mpl(n) => is_outside(n, 1, 16),
        FormAt::Memory => false,
    }
}

#[tactic(auto, unfolding(crate::specs::Kept::kept))]
fn column_count(form: &FormAt<'_>, room: &Room) -> u8
    ensures { result ≡ columns_kept (form_at form.now) (kept room.now) }
{
    match form {
        FormAt::Table(_) => room.column_count,
        FormAt::Index(_, _, _) => room.name_count,
        FormAt::Insert(_) => room.name_count,
        FormAt::Update(_, _) => room.set_count,
        FormAt::Delete(_, _) => 0,
        FormAt::Vacuum(_) => 0,
        FormAt::Select(_) => 0,
        FormAt::Open(_, _) => 0,
        FormAt::Start(_, _) => 0,
        FormAt::Work(_) => 0,
        FormAt::Fetch(_, _) => 0,
        FormAt::Close(_) => 0,
        FormAt::Pool(_) => 0,
        FormAt::Mpl(_) => 0,
        FormAt::Memory => 0,
    }
}

/// Of what there are too many.
#[tactic(auto, unfolding(crate::specs::Kept::kept))]
pub fn too_many(form: &FormAt<'_>, long_name: bool, long_text: bool, room: &Room) -> Option<Count>
    ensures { result ≡ too_many_kept long_name long_text (form_at form.now) (kept room.now) }
{
    if long_name {
        return Some(Count::NameLetters);
    }
    if long_text {
        return Some(Count::TextLetters);
    }
    if column_count(form, room) > 16 {
        return Some(Count::Columns);
    }
    match form {
        FormAt::Insert(_) => {
            if room.end_count > 64 {
                return Some(Count::Rows);
            }
            if room.value_count > 1024 {
                return Some(Count::Values);
            }
            None
        }
        FormAt::Select(_) => too_many_of_query(room),
        FormAt::Open(_, _) => too_many_of_query(room),
        FormAt::Update(_, _) => too_many_nodes(room),
        FormAt::Delete(_, _) => too_many_nodes(room),
        FormAt::Table(_) => None,
        FormAt::Index(_, _, _) => None,
        FormAt::Vacuum(_) => None,
        FormAt::Start(_, _) => None,
        FormAt::Work(_) => None,
        FormAt::Fetch(_, _) => None,
        FormAt::Close(_) => None,
        FormAt::Pool(_) => None,
        FormAt::Mpl(_) => None,
        FormAt::Memory => None,
    }
}

#[tactic(auto, unfolding(crate::specs::Kept::kept))]
fn too_many_nodes(room: &Room) -> Option<Count>
    ensures { result ≡ nodes_over (kept room.now) }
{
    if room.node_count > 96 {
        return Some(Count::Nodes);
    }
    None
}

#[tactic(auto, unfolding(crate::specs::Kept::kept))]
fn too_many_of_query(room: &Room) -> Option<Count>
    ensures { result ≡ query_over (kept room.now) }
{
    if room.table_count > 4 {
        return Some(Count::TablesInFrom);
    }
    if room.output_count > 16 {
        return Some(Count::Outputs);
    }
    if room.group_count > 16 {
        return Some(Count::GroupColumns);
    }
    if room.order_count > 8 {
        return Some(Count::OrderKeys);
    }
    too_many_nodes(room)
}

/// A count of the statement, where it fits.
fn to_count(number: &NumberAt<'_>) -> u32
    ensures { result ≡ short_count (number_at number.now) }
{
    number.piece.count().unwrap_or(0)
}

/// The statement of which this is the form.
pub fn to_statement(form: &FormAt<'_>) -> Statement
    ensures { result ≡ short_form (form_at form.now) }
{
    match form {
        FormAt::Table(t) => Statement::CreateTable(t.piece.name()),
        FormAt::Index(unique, i, t) => {
            Statement::CreateIndex(*unique, i.piece.name(), t.piece.name())
        }
        FormAt::Insert(t) => Statement::Insert(t.piece.name()),
        FormAt::Update(t, f) => Statement::Update(t.piece.name(), *f),
        FormAt::Delete(t, f) => Statement::Delete(t.piece.name(), *f),
        FormAt::Vacuum(t) => Statement::Vacuum(t.piece.name()),
        FormAt::Select(h) => Statement::Select(*h),
        FormAt::Open(c, h) => Statement::OpenCursor(c.piece.name(), *h),
        FormAt::Start(c, n) => Statement::Start(c.piece.name(), to_count(n)),
        FormAt::Work(n) => Statement::Work(to_count(n)),
        FormAt::Fetch(c, n) => Statement::Fetch(c.piece.name(), to_count(n)),
        FormAt::Close(c) => Statement::Close(c.piece.name()),
        FormAt::Pool(n) => Statement::Pool(to_count(n)),
        FormAt::Mpl(n) => Statement::Mpl(to_count(n)),
        FormAt::Memory => Statement::ShowMemory,
    }
}
