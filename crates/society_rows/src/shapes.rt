//! Whether what a schema has is what layout 3 has.
ghost use Rattle.std.specs.Prelude.{◌≡◌, ◌≢◌, ◌↔◌, ◌<◌, ◌-◌, ℕ, List, [], ◌∷◌, ◌++◌, map, pos, if◌then◌else◌, slice_index_or, true, IsTrue, MatchOption};
ghost use Rattle.std.specs.Borrow.{Bor};
ghost use Rattle.sqlite_value.specs.Keys.{plain};
ghost use Rattle.sqlite_value.specs.declared.value.Value.TheVariants.{Null, Int};
ghost use Rattle.sqlite_schema.specs.declared.schema.Kind.{Kind};
ghost use Rattle.sqlite_schema.specs.Code.{term_in};
ghost use Rattle.society_rows.specs.Layout.{column_of, keyed_table, numbered_table};
ghost use Rattle.society_rows.specs.Shapes.{columns_named, is_guarded, guard_name, guard_shaped, in_order, references_of, refers_to, table_shaped};
ghost use Rattle.society_rows.specs.Finding.{is_one, is_same};

use sqlite_items::Items;
use sqlite_schema::code::{Op, Terms};
use sqlite_schema::schema::{Action, Column, Index, Kind, Reference, Stamps, Table};
use sqlite_sql::ops::{BinaryOp, CompareOp};
use sqlite_value::keys::{Collation, Order};
use sqlite_value::value::{Bytes, Value};

/// The columns that refer to those of a parent.
#[derive(Clone, Copy, Debug)]
pub(crate) struct Parent<'a> {
    pub(crate) columns: &'a [usize],
    pub(crate) parent: &'a str,
    pub(crate) parent_columns: &'a [&'a str],
}

/// What the rows of a table are under.
#[derive(Clone, Copy, Debug)]
pub(crate) enum Rows {
    /// One row, whose first column is its rowid, 1.
    Single,
    /// Their first column, which is their rowid.
    Numbered,
    /// A key of their columns.
    Keyed,
}

/// A table as its statement makes it, and the statements over all of it.
#[derive(Clone, Copy, Debug)]
pub(crate) struct TableShape<'a> {
    pub(crate) name: &'a str,
    pub(crate) columns: &'a [(&'a str, Kind)],
    pub(crate) rows: Rows,
    /// The places of its key: the columns from 1, or 0 for the rowid.
    pub(crate) key: &'a [usize],
    /// What it refers to.
    pub(crate) parents: &'a [Parent<'a>],
    /// What makes it, where those that it refers to are there.
    pub(crate) create: &'a str,
    /// The query that shows all rows, by their key; by all their columns where two rows of one key could not be told apart else.
    pub(crate) listing: &'a str,
    /// The query that shows the rowid of every row.
    pub(crate) rowids: &'a str,
}

impl TableShape<'_> {
    /// Whether its rows are under a key of their columns, for which there is an index.
    pub(crate) fn is_guarded(&self) -> bool
        ensures { result ≡ is_guarded self.now.rows }
    {
        matches!(self.rows, Rows::Keyed)
    }
}

// Whether a column has this name, holds this kind of value and no NULL, and has no default.
fn is_column(column: &Column, name: &str, kind: Kind) -> bool
    ensures { IsTrue result ↔ (column.now ≡ column_of kind name.now) }
{
    column.name.as_slice() == name.as_bytes()
        && column.kind == kind
        && column.is_strict
        && column.not_null
        && matches!(column.default, Value::Null)
        && column.collation == Collation::Binary
}

// Whether columns have these names and kinds, in their order.
#[tactic(auto, using(crate::proofs::lemmas::readings::Alike::alike_more))]
fn are_columns(columns: &[Column], forms: &[(&str, Kind)]) -> bool
    ensures { IsTrue result ↔ (columns.now ≡ columns_named forms.now) }
{
    if columns.len() != forms.len() {
        return false;
    }
    for at in 0..forms.len() {
        if !is_column(&columns[at], forms[at].0, forms[at].1) {
            return false;
        }
    }
    true
}

// Whether a name is this one.
fn is_name(name: &Bytes, form: &str) -> bool
    ensures { IsTrue result ↔ (name.now ≡ form.now) }
{
    name.as_slice() == form.as_bytes()
}

// Whether names are these, in their order.
#[tactic(auto, using(crate::proofs::lemmas::readings::Alike::alike_more))]
fn are_names(names: &[Bytes], forms: &[&str]) -> bool
    ensures { IsTrue result ↔ (names.now ≡ map (λ (f : Bor (List ℕ)). f.now) forms.now) }
{
    if names.len() != forms.len() {
        return false;
    }
    for at in 0..forms.len() {
        if !is_name(&names[at], forms[at]) {
            return false;
        }
    }
    true
}

// Whether a reference is from these columns to those of this parent, and does nothing where the parent changes.
fn is_reference(reference: &Reference, form: &Parent<'_>) -> bool
    ensures { IsTrue result ↔ (reference.now ≡ refers_to form.now) }
{
    reference.columns.as_slice() == form.columns
        && reference.parent.as_slice() == form.parent.as_bytes()
        && are_names(reference.parent_columns.as_slice(), form.parent_columns)
        && reference.on_delete == Action::NoAction
        && reference.on_update == Action::NoAction
        && !reference.is_deferred
}

// Where what stands at a place of several stands, where they may be turned from the last to the first.
fn place_in(count: usize, at: usize, turned: bool) -> usize
    requires { at < count }
    ensures { result ≡ (if turned then count - 1 - at else at) }
{
    if turned { count - 1 - at } else { at }
}

// Whether references are to these parents, in their order, or where they are turned from the last to the first.
#[tactic(auto, using(crate::proofs::lemmas::readings::Alike::turned_more))]
fn are_references(references: &[Reference], parents: &[Parent<'_>], turned: bool) -> bool
    ensures { IsTrue result ↔ (references.now ≡ in_order turned (map refers_to parents.now)) }
{
    if references.len() != parents.len() {
        return false;
    }
    for at in 0..parents.len() {
        let place = place_in(parents.len(), at, turned);
        if !is_reference(&references[at], &parents[place]) {
            return false;
        }
    }
    true
}

// Whether places are these, in their order.
fn are_places(places: &Items<usize>, forms: &[usize]) -> bool
    ensures { IsTrue result ↔ (places.now ≡ forms.now) }
{
    places.as_slice() == forms
}

// Whether there is this one key.
fn is_only_key(keys: &[Items<usize>], key: &[usize]) -> bool
    ensures { IsTrue result ↔ (keys.now ≡ key.now ∷ []) }
{
    match keys {
        [only] => are_places(only, key),
        _ => false,
    }
}

// Whether there is one order, that of the bytes.
fn is_only_plain(orders: &[Order]) -> bool
    ensures { IsTrue result ↔ (orders.now ≡ plain ∷ []) }
{
    match orders {
        [only] => *only == Order::PLAIN,
        _ => false,
    }
}

// Whether there is no expression.
fn is_no_term(terms: &Terms) -> bool
    ensures { IsTrue result ↔ (terms.now ≡ []) }
{
    terms.roots.is_empty()
}

// Whether no default reads the time.
fn is_unstamped(stamps: &Stamps) -> bool
    ensures { IsTrue result ↔ (stamps.now ≡ record { places = []; terms = []; formats = [] }) }
{
    stamps.places.is_empty() && is_no_term(&stamps.terms) && stamps.formats.is_empty()
}

// The places of what the node at a place compares, if it asks whether two values are the same.
fn comparison_at(ops: &[Op], at: usize) -> Option<(usize, usize)>
    ensures { MatchOption result ((a : ℕ) → (b : ℕ) → slice_index_or ops.now at (Op.Literal Null) ≢ Op.Binary is_same a b)
        (λ p. slice_index_or ops.now at (Op.Literal Null) ≡ Op.Binary is_same p.0 p.1) }
{
    match ops.get(at) {
        Some(Op::Binary(op, first, second)) => {
            if *op == BinaryOp::Compare(CompareOp::Eq, Collation::Binary) {
                Some((*first, *second))
            } else {
                None
            }
        }
        _ => None,
    }
}

// Whether the node at a place is the first column of a row.
fn is_first(ops: &[Op], at: usize) -> bool
    ensures { IsTrue result ↔ (slice_index_or ops.now at (Op.Literal Null) ≡ Op.Column 1 0) }
{
    match ops.get(at) {
        Some(Op::Column(slot, place)) => *slot == 1 && *place == 0,
        _ => false,
    }
}

// Whether the node at a place is the number 1.
fn is_number(ops: &[Op], at: usize) -> bool
    ensures { IsTrue result ↔ (slice_index_or ops.now at (Op.Literal Null) ≡ Op.Literal (Int (pos 1))) }
{
    match ops.get(at) {
        Some(Op::Literal(Value::Int(n))) => *n == 1,
        _ => false,
    }
}

// Whether the expression at a root says that the first column is 1.
fn says_one(ops: &[Op], root: usize) -> bool
    ensures { IsTrue result ↔ (term_in ops.now root ≡ is_one) }
{
    // An expression of three nodes is read two deep.
    if ops.len() < 2 {
        return false;
    }
    match comparison_at(ops, root) {
        Some((first, second)) => is_first(ops, first) && is_number(ops, second),
        None => false,
    }
}

// Whether the one expression says that the first column is 1.
fn is_only_one(terms: &Terms) -> bool
    ensures { IsTrue result ↔ (terms.now ≡ is_one ∷ []) }
{
    match terms.roots.as_slice() {
        [root] => says_one(terms.nodes.as_slice(), *root),
        _ => false,
    }
}

// Whether a table is under a key of its own columns, is of a shape, and has this tree; its references may be turned.
fn is_keyed(table: &Table, shape: &TableShape<'_>, tree: usize, turned: bool) -> bool
    ensures { IsTrue result ↔ (table.now ≡ keyed_table shape.now.name.now tree (columns_named shape.now.columns.now) shape.now.key.now (references_of shape.now turned)) }
{
    table.name.as_slice() == shape.name.as_bytes()
        && table.tree as usize == tree
        && are_columns(table.columns.as_slice(), shape.columns)
        && table.key.is_none()
        && table.primary.as_slice() == shape.key
        && is_only_key(table.uniques.as_slice(), shape.key)
        && is_only_plain(table.orders.as_slice())
        && is_no_term(&table.checks)
        && are_references(table.references.as_slice(), shape.parents, turned)
        && table.computed.is_empty()
        && is_unstamped(&table.stamps)
        && !table.is_counted
}

// Whether a table's first column is its rowid, which has to be 1 where the table is for one row, and it is of a shape and has this tree.
fn is_numbered(table: &Table, shape: &TableShape<'_>, one: bool, tree: usize, turned: bool) -> bool
    ensures { IsTrue result ↔ (table.now ≡ numbered_table shape.now.name.now tree (columns_named shape.now.columns.now) (if one then is_one ∷ [] else []) (references_of shape.now turned)) }
{
    let checked = if one {
        is_only_one(&table.checks)
    } else {
        is_no_term(&table.checks)
    };
    checked
        && table.name.as_slice() == shape.name.as_bytes()
        && table.tree as usize == tree
        && are_columns(table.columns.as_slice(), shape.columns)
        && table.key == Some(0)
        && table.primary.as_slice() == [0].as_slice()
        && table.uniques.is_empty()
        && table.orders.is_empty()
        && are_references(table.references.as_slice(), shape.parents, turned)
        && table.computed.is_empty()
        && is_unstamped(&table.stamps)
        && !table.is_counted
}

/// Whether a table is of a shape, and has this tree; its references are those of the shape, from the last to the first where they are turned.
pub(crate) fn is_table(table: &Table, shape: &TableShape<'_>, tree: usize, turned: bool) -> bool
    ensures { IsTrue result ↔ (table.now ≡ table_shaped shape.now tree (references_of shape.now turned)) }
{
    match shape.rows {
        Rows::Single => is_numbered(table, shape, true, tree, turned),
        Rows::Numbered => is_numbered(table, shape, false, tree, turned),
        Rows::Keyed => is_keyed(table, shape, tree, turned),
    }
}

// What is behind these first bytes.
fn rest_behind<'a>(bytes: &'a [u8], first: &[u8]) -> Option<&'a [u8]>
    ensures { MatchOption result ((rest : List ℕ) → bytes.now ≢ first.now ++ rest) (λ rest. bytes.now ≡ first.now ++ rest.now) }
{
    bytes.strip_prefix(first)
}

// Whether a name is the one that SQLite gives to the index for the key of a table.
#[tactic(auto, unfolding(sqlite_tied::specs::Compute::everything))]
fn is_guard_name(name: &[u8], table: &str) -> bool
    ensures { IsTrue result ↔ (name.now ≡ guard_name table.now) }
{
    match rest_behind(name, b"sqlite_autoindex_") {
        Some(rest) => match rest_behind(rest, table.as_bytes()) {
            Some(last) => last == b"_1".as_slice(),
            None => false,
        },
        None => false,
    }
}

/// Whether an index is the one that SQLite makes for the key of a table of a shape, which has this tree.
pub(crate) fn is_guard(index: &Index, shape: &TableShape<'_>, tree: usize) -> bool
    ensures { IsTrue result ↔ (index.now ≡ guard_shaped shape.now tree) }
{
    is_guard_name(index.name.as_slice(), shape.name)
        && index.tree as usize > tree
        && index.tree as usize - tree == 1
        && index.table as usize == tree
        && index.columns.as_slice() == shape.key
        && index.order == Order::PLAIN
        && index.is_unique
}
