//! Puts parts of a statement into its room.
use crate::places::{ColumnAt, Constraints, KeyAt, NameAt, NumberAt, TableAt, TextAt, TypeAt};
use crate::room::Room;
use arrayvec::{ArrayString, ArrayVec};
use hg_model::{
    Cmp, ColRef, Column, Fold, FromTable, Literal, Name, NewColumn, Node, Op, OrderBy, OrderKey,
    Output, Span, SqlType,
};
use hg_scan::Number;

impl<'a> ColumnAt<'a> {
    ghost use Rattle.std.specs.Prelude.{◌≡◌};
    ghost use Rattle.hg_parse.specs.Keeping.{short_column};
    ghost use Rattle.hg_parse.specs.Kept.{column_at};

    fn to_column(&self) -> ColRef
        ensures { result ≡ short_column (column_at self.now) }
    {
        let table = match self.table {
            Some(table) => Some(table.piece.name()),
            None => None,
        };
        ColRef {
            table,
            name: self.name.piece.name(),
        }
    }
}

impl<'a> TypeAt<'a> {
    ghost use Rattle.std.specs.Prelude.{◌≡◌};
    ghost use Rattle.hg_model.specs.Reading.{is_bad_type};
    ghost use Rattle.hg_parse.specs.Keeping.{short_type};
    ghost use Rattle.hg_parse.specs.Kept.{type_at};

    fn is_bad(&self) -> bool
        ensures { result ≡ is_bad_type (type_at self.now) }
    {
        match self {
            TypeAt::Integer => false,
            TypeAt::Varchar(most) => match most.piece.count() {
                Some(most) => !(1 <= most && most <= 255),
                None => true,
            },
        }
    }

    fn to_type(&self) -> SqlType
        ensures { result ≡ short_type (type_at self.now) }
    {
        match self {
            TypeAt::Integer => SqlType::Integer,
            TypeAt::Varchar(most) => match most.piece.count() {
                Some(most) if 1 <= most && most <= 255 => SqlType::Varchar(most as u8),
                _ => SqlType::Varchar(1),
            },
        }
    }
}

impl<'a> KeyAt<'a> {
    ghost use Rattle.std.specs.Prelude.{◌≡◌};
    ghost use Rattle.hg_model.specs.Reading.{is_bad_key};
    ghost use Rattle.hg_parse.specs.Keeping.{short_by};
    ghost use Rattle.hg_parse.specs.Kept.{by_at};

    fn is_bad(&self) -> bool
        ensures { result ≡ is_bad_key (by_at self.now) }
    {
        match self {
            KeyAt::Position(number) => number.piece.count().is_none(),
            KeyAt::Column(_) => false,
        }
    }

    fn to_key(&self) -> OrderBy
        ensures { result ≡ short_by (by_at self.now) }
    {
        match self {
            KeyAt::Position(number) => match number.piece.count() {
                Some(n) => OrderBy::Position(n),
                None => OrderBy::Position(0),
            },
            KeyAt::Column(n) => OrderBy::Column(*n),
        }
    }
}

#[tactic(auto, unfolding(crate::specs::Kept::kept, crate::specs::Kept::keeper))]
impl Room {
    ghost use Rattle.std.specs.Prelude.{◌≡◌, ◌≤◌, ◌+◌, Option, Some, None, pos, neg_ℤ, false, length, []};
    ghost use Rattle.hg_model.specs.declared.trees.Literal.TheVariants as literal;
    ghost use Rattle.hg_model.specs.declared.trees.Node.TheVariants as node;
    ghost use Rattle.hg_parse.specs.AtHand.{word_at, number_at, letters_at};
    ghost use Rattle.hg_parse.specs.Building.{empty_draft};
    ghost use Rattle.hg_parse.specs.Keeping.{kept_of};
    ghost use Rattle.hg_parse.specs.Kept.{kept, keeper, used, column_at, type_at, by_at, table_at, flags_at, output_of, key_of, with_letters, span_of, with_node, with_value, with_output, with_table, with_group, with_key, with_column, with_name, with_set, with_end};
    ghost use Rattle.std.specs.Option.{option_map};
    ghost use Rattle.hg_model.specs.declared.trees.Fold.TheVariants as of;
    ghost use Rattle.hg_parse.specs.Rules.{joined_table, new_column_of};

    /// Counts a node, and keeps it where it fits.
    fn put_node(&mut self, node: Node) -> u8
        ensures kept { kept self.new ≡ with_node (kept self.old) node }
        ensures index { result ≡ (kept self.old).nodes.count }
        ensures texts { self.new.texts ≡ self.old.texts }
    {
        let index = self.node_count;
        self.node_count = index.saturating_add(1);
        if index < 96 {
            self.nodes.push(node);
        }
        index
    }

    fn put_value(&mut self, value: Literal)
        ensures kept { kept self.new ≡ with_value (kept self.old) value }
        ensures texts { self.new.texts ≡ self.old.texts }
    {
        let count = self.value_count;
        self.value_count = count.saturating_add(1);
        if count < 1024 {
            self.values.push(value);
        }
    }

    fn put_output(&mut self, output: Output)
        ensures kept { kept self.new ≡ with_output (kept self.old) output }
        ensures texts { self.new.texts ≡ self.old.texts }
    {
        let count = self.output_count;
        self.output_count = count.saturating_add(1);
        if count < 16 {
            self.outputs.push(output);
        }
    }

    fn put_table(&mut self, table: FromTable)
        ensures kept { kept self.new ≡ with_table (kept self.old) table }
        ensures texts { self.new.texts ≡ self.old.texts }
    {
        let count = self.table_count;
        self.table_count = count.saturating_add(1);
        if count < 4 {
            self.tables.push(table);
        }
    }

    fn put_group(&mut self, group: u8)
        ensures kept { kept self.new ≡ with_group (kept self.old) group }
        ensures texts { self.new.texts ≡ self.old.texts }
    {
        let count = self.group_count;
        self.group_count = count.saturating_add(1);
        if count < 16 {
            self.group.push(group);
        }
    }

    fn put_key(&mut self, key: OrderKey)
        ensures kept { kept self.new ≡ with_key (kept self.old) key }
        ensures texts { self.new.texts ≡ self.old.texts }
    {
        let count = self.order_count;
        self.order_count = count.saturating_add(1);
        if count < 8 {
            self.order.push(key);
        }
    }

    fn put_column(&mut self, column: NewColumn)
        ensures kept { kept self.new ≡ with_column (kept self.old) column }
        ensures texts { self.new.texts ≡ self.old.texts }
    {
        let count = self.column_count;
        self.column_count = count.saturating_add(1);
        if count < 16 {
            self.columns.push(column);
        }
    }

    fn put_name(&mut self, name: Name)
        ensures kept { kept self.new ≡ with_name (kept self.old) name }
        ensures texts { self.new.texts ≡ self.old.texts }
    {
        let count = self.name_count;
        self.name_count = count.saturating_add(1);
        if count < 16 {
            self.names.push(name);
        }
    }

    fn put_set(&mut self, set: (Name, u8))
        ensures kept { kept self.new ≡ with_set (kept self.old) set }
        ensures texts { self.new.texts ≡ self.old.texts }
    {
        let count = self.set_count;
        self.set_count = count.saturating_add(1);
        if count < 16 {
            self.sets.push(set);
        }
    }

    fn put_end(&mut self, end: u16)
        ensures kept { kept self.new ≡ with_end (kept self.old) end }
        ensures texts { self.new.texts ≡ self.old.texts }
    {
        let count = self.end_count;
        self.end_count = count.saturating_add(1);
        if count < 64 {
            self.ends.push(end);
        }
    }

    pub fn push_null(&mut self) -> u8
        ensures kept { kept self.new ≡ keeper.node (kept self.old) (node.Lit literal.Null) }
        ensures index { result ≡ keeper.next (kept self.old) }
        ensures texts { used self.new ≡ used self.old }
    {
        self.put_node(Node::Lit(Literal::Null))
    }

    pub fn push_column(&mut self, column: &ColumnAt<'_>) -> u8
        ensures kept { kept self.new ≡ keeper.node (kept self.old) (node.Col (column_at column.now)) }
        ensures index { result ≡ keeper.next (kept self.old) }
        ensures texts { used self.new ≡ used self.old }
    {
        self.put_node(Node::Col(column.to_column()))
    }

    pub fn push_neg(&mut self, a: u8) -> u8
        ensures kept { kept self.new ≡ keeper.node (kept self.old) (node.Neg a) }
        ensures index { result ≡ keeper.next (kept self.old) }
        ensures texts { used self.new ≡ used self.old }
    {
        self.put_node(Node::Neg(a))
    }

    pub fn push_arith(&mut self, op: Op, a: u8, b: u8) -> u8
        ensures kept { kept self.new ≡ keeper.node (kept self.old) (node.Arith op a b) }
        ensures index { result ≡ keeper.next (kept self.old) }
        ensures texts { used self.new ≡ used self.old }
    {
        self.put_node(Node::Arith(op, a, b))
    }

    pub fn push_compare(&mut self, cmp: Cmp, a: u8, b: u8) -> u8
        ensures kept { kept self.new ≡ keeper.node (kept self.old) (node.Compare cmp a b) }
        ensures index { result ≡ keeper.next (kept self.old) }
        ensures texts { used self.new ≡ used self.old }
    {
        self.put_node(Node::Compare(cmp, a, b))
    }

    pub fn push_both(&mut self, a: u8, b: u8) -> u8
        ensures kept { kept self.new ≡ keeper.node (kept self.old) (node.Both a b) }
        ensures index { result ≡ keeper.next (kept self.old) }
        ensures texts { used self.new ≡ used self.old }
    {
        self.put_node(Node::Both(a, b))
    }

    pub fn push_either(&mut self, a: u8, b: u8) -> u8
        ensures kept { kept self.new ≡ keeper.node (kept self.old) (node.Either a b) }
        ensures index { result ≡ keeper.next (kept self.old) }
        ensures texts { used self.new ≡ used self.old }
    {
        self.put_node(Node::Either(a, b))
    }

    pub fn push_not(&mut self, a: u8) -> u8
        ensures kept { kept self.new ≡ keeper.node (kept self.old) (node.Not a) }
        ensures index { result ≡ keeper.next (kept self.old) }
        ensures texts { used self.new ≡ used self.old }
    {
        self.put_node(Node::Not(a))
    }

    pub fn push_is_null(&mut self, a: u8) -> u8
        ensures kept { kept self.new ≡ keeper.node (kept self.old) (node.IsNull a) }
        ensures index { result ≡ keeper.next (kept self.old) }
        ensures texts { used self.new ≡ used self.old }
    {
        self.put_node(Node::IsNull(a))
    }

    pub fn push_not_null(&mut self, a: u8) -> u8
        ensures kept { kept self.new ≡ keeper.node (kept self.old) (node.NotNull a) }
        ensures index { result ≡ keeper.next (kept self.old) }
        ensures texts { used self.new ≡ used self.old }
    {
        self.put_node(Node::NotNull(a))
    }

    pub fn push_row_count(&mut self) -> u8
        ensures kept { kept self.new ≡ keeper.node (kept self.old) (node.Aggregate of.CountRows None) }
        ensures index { result ≡ keeper.next (kept self.old) }
        ensures texts { used self.new ≡ used self.old }
    {
        self.put_node(Node::Aggregate(Fold::CountRows, None))
    }

    pub fn push_aggregate(&mut self, fold: Fold, a: u8) -> u8
        ensures kept { kept self.new ≡ keeper.node (kept self.old) (node.Aggregate fold (Some a)) }
        ensures index { result ≡ keeper.next (kept self.old) }
        ensures texts { used self.new ≡ used self.old }
    {
        self.put_node(Node::Aggregate(fold, Some(a)))
    }

    pub fn push_number(&mut self, number: &NumberAt<'_>) -> u8
        ensures kept { kept self.new ≡ keeper.node (kept self.old) (node.Lit (literal.Int (pos (number_at number.now)))) }
        ensures index { result ≡ keeper.next (kept self.old) }
        ensures texts { used self.new ≡ used self.old }
    {
        match number.piece.number() {
            Number::Magnitude(n) => self.put_node(Node::Lit(Literal::Int(n))),
            Number::TooLong => {
                self.bad_node = true;
                self.put_node(Node::Lit(Literal::Null))
            }
        }
    }

    /// Puts a text behind the others.
    fn put_text(&mut self, text: &TextAt<'_>) -> Span
        requires room { used self.old + length (letters_at text.now) ≤ 4096 }
        ensures kept { kept self.new ≡ with_letters (kept self.old) (letters_at text.now) }
        ensures span { result ≡ span_of (kept self.old) (letters_at text.now) }
        ensures texts { used self.new ≡ used self.old + length (letters_at text.now) }
    {
        let at = self.texts.len() as u16;
        let len = text.piece.text_len() as u16;
        text.piece.push_text(&mut self.texts);
        Span { at, len }
    }

    pub fn push_text(&mut self, text: &TextAt<'_>) -> u8
        requires room { used self.old + length (letters_at text.now) ≤ 4096 }
        ensures kept { kept self.new ≡ keeper.text (kept self.old) (letters_at text.now) }
        ensures index { result ≡ keeper.next (kept self.old) }
        ensures texts { used self.new ≡ used self.old + length (letters_at text.now) }
    {
        let span = self.put_text(text);
        self.put_node(Node::Lit(Literal::Text(span)))
    }

    pub fn push_output(&mut self, node: u8, name: &Option<NameAt<'_>>)
        ensures kept { kept self.new ≡ keeper.output (kept self.old) (output_of node (option_map word_at name.now)) }
        ensures texts { used self.new ≡ used self.old }
    {
        let name = match name {
            Some(name) => Some(name.piece.name()),
            None => None,
        };
        self.put_output(Output { node, name });
    }

    pub fn push_table(&mut self, table: &TableAt<'_>)
        ensures kept { kept self.new ≡ keeper.table (kept self.old) (table_at table.now) }
        ensures texts { used self.new ≡ used self.old }
    {
        self.put_table(FromTable {
            table: table.table.piece.name(),
            alias: table.alias.piece.name(),
            on: None,
        });
    }

    pub fn push_joined(&mut self, table: &TableAt<'_>, on: u8)
        ensures kept { kept self.new ≡ keeper.table (kept self.old) (joined_table (table_at table.now) on) }
        ensures texts { used self.new ≡ used self.old }
    {
        self.put_table(FromTable {
            table: table.table.piece.name(),
            alias: table.alias.piece.name(),
            on: Some(on),
        });
    }

    pub fn push_group(&mut self, node: u8)
        ensures kept { kept self.new ≡ keeper.group (kept self.old) node }
        ensures texts { used self.new ≡ used self.old }
    {
        self.put_group(node);
    }

    pub fn push_key(&mut self, by: &KeyAt<'_>, descending: bool)
        ensures kept { kept self.new ≡ keeper.key (kept self.old) (key_of (by_at by.now) descending) }
        ensures texts { used self.new ≡ used self.old }
    {
        self.bad_key |= by.is_bad();
        self.put_key(OrderKey {
            by: by.to_key(),
            descending,
        });
    }

    pub fn push_new_column(&mut self, name: &NameAt<'_>, ty: &TypeAt<'_>, flags: Constraints)
        ensures kept { kept self.new ≡ keeper.column (kept self.old) (new_column_of (word_at name.now) (type_at ty.now) (flags_at flags)) }
        ensures texts { used self.new ≡ used self.old }
    {
        self.bad_type |= ty.is_bad();
        let column = Column {
            name: name.piece.name(),
            ty: ty.to_type(),
            not_null: flags.not_null,
        };
        self.put_column(NewColumn {
            column,
            primary: flags.primary,
            unique: flags.unique,
        });
    }

    pub fn push_name(&mut self, name: &NameAt<'_>)
        ensures kept { kept self.new ≡ keeper.name (kept self.old) (word_at name.now) }
        ensures texts { used self.new ≡ used self.old }
    {
        self.put_name(name.piece.name());
    }

    pub fn push_set(&mut self, name: &NameAt<'_>, node: u8)
        ensures kept { kept self.new ≡ keeper.set (kept self.old) (word_at name.now) node }
        ensures texts { used self.new ≡ used self.old }
    {
        self.put_set((name.piece.name(), node));
    }

    pub fn push_null_value(&mut self)
        ensures kept { kept self.new ≡ keeper.value (kept self.old) literal.Null }
        ensures texts { used self.new ≡ used self.old }
    {
        self.put_value(Literal::Null);
    }

    pub fn push_positive(&mut self, number: &NumberAt<'_>)
        ensures kept { kept self.new ≡ keeper.value (kept self.old) (literal.Int (pos (number_at number.now))) }
        ensures texts { used self.new ≡ used self.old }
    {
        match number.piece.number() {
            Number::Magnitude(n) => self.put_value(Literal::Int(n)),
            Number::TooLong => {
                self.bad_value = true;
                self.put_value(Literal::Null);
            }
        }
    }

    pub fn push_negative(&mut self, number: &NumberAt<'_>)
        ensures kept { kept self.new ≡ keeper.value (kept self.old) (literal.Int (neg_ℤ (pos (number_at number.now)))) }
        ensures texts { used self.new ≡ used self.old }
    {
        match number.piece.number() {
            Number::Magnitude(n) => self.put_value(Literal::Int(-n)),
            Number::TooLong => {
                self.bad_value = true;
                self.put_value(Literal::Null);
            }
        }
    }

    pub fn push_text_value(&mut self, text: &TextAt<'_>)
        requires room { used self.old + length (letters_at text.now) ≤ 4096 }
        ensures kept { kept self.new ≡ keeper.text_value (kept self.old) (letters_at text.now) }
        ensures texts { used self.new ≡ used self.old + length (letters_at text.now) }
    {
        let span = self.put_text(text);
        self.put_value(Literal::Text(span));
    }

    pub fn end_row(&mut self)
        ensures kept { kept self.new ≡ keeper.row (kept self.old) }
        ensures texts { used self.new ≡ used self.old }
    {
        self.put_end(self.value_count);
    }

    /// Empties the room.
    pub fn clear(&mut self)
        ensures kept { kept self.new ≡ kept_of empty_draft }
        ensures texts { used self.new ≡ 0 }
    {
        self.clear_lists();
        self.node_count = 0;
        self.output_count = 0;
        self.table_count = 0;
        self.group_count = 0;
        self.order_count = 0;
        self.column_count = 0;
        self.name_count = 0;
        self.set_count = 0;
        self.value_count = 0;
        self.end_count = 0;
        self.bad_node = false;
        self.bad_key = false;
        self.bad_type = false;
        self.bad_value = false;
    }

    /// Empties the lists alone.
    fn clear_lists(&mut self)
        ensures nodes { self.new.nodes.items ≡ [] }
        ensures texts { self.new.texts.bytes ≡ [] }
        ensures outputs { self.new.outputs.items ≡ [] }
        ensures tables { self.new.tables.items ≡ [] }
        ensures group { self.new.group.items ≡ [] }
        ensures order { self.new.order.items ≡ [] }
        ensures columns { self.new.columns.items ≡ [] }
        ensures names { self.new.names.items ≡ [] }
        ensures sets { self.new.sets.items ≡ [] }
        ensures values { self.new.values.items ≡ [] }
        ensures ends { self.new.ends.items ≡ [] }
    {
        self.nodes.clear();
        self.texts.clear();
        self.outputs.clear();
        self.tables.clear();
        self.group.clear();
        self.order.clear();
        self.columns.clear();
        self.names.clear();
        self.sets.clear();
        self.values.clear();
        self.ends.clear();
    }

    /// A room with nothing in it. It has 51 KB, and this call takes 127 KB of stack for a moment, which is why
    /// it is never a part of its caller: keep the room where it is not moved.
    #[inline(never)]
    pub fn new() -> Room
        ensures { kept result ≡ kept_of empty_draft }
    {
        Room {
            nodes: ArrayVec::new(),
            texts: ArrayString::new(),
            outputs: ArrayVec::new(),
            tables: ArrayVec::new(),
            group: ArrayVec::new(),
            order: ArrayVec::new(),
            columns: ArrayVec::new(),
            names: ArrayVec::new(),
            sets: ArrayVec::new(),
            values: ArrayVec::new(),
            ends: ArrayVec::new(),
            node_count: 0,
            output_count: 0,
            table_count: 0,
            group_count: 0,
            order_count: 0,
            column_count: 0,
            name_count: 0,
            set_count: 0,
            value_count: 0,
            end_count: 0,
            bad_node: false,
            bad_key: false,
            bad_type: false,
            bad_value: false,
        }
    }
}
