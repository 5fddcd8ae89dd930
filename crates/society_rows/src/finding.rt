//! What a database holds: nothing, one of the layouts, or something else.
ghost use Rattle.std.specs.Prelude.{◌≡◌, ◌↔◌, ◌≤◌, IsTrue, slice_get};
ghost use Rattle.sqlite.specs.Held.{state};
ghost use Rattle.society_rows.specs.Finding.{IsFound};
ghost use Rattle.society_rows.specs.Layout.{no_schema, table_called};
ghost use Rattle.society_rows.specs.Layouts.{IsFirst};
ghost use Rattle.society_rows.specs.Shapes.{guard_shaped, in_order, schema_turned, table_turned};

use crate::shapes::{TableShape, is_guard, is_table};
use crate::tables::{TABLE_COUNT, name_at, shape_of};
use crate::{Idle, OlderLayout, TableName};
use sqlite::Alter;
use sqlite_schema::schema::{Index, Schema, Table};

/// What a database holds.
#[derive(Clone, Copy, Debug, PartialEq, Eq)]
pub enum Found {
    /// No table, index or view.
    Nothing,
    /// The tables of layout 3, and nothing else.
    Layout,
    /// The tables of an older layout, and nothing else.
    Older(OlderLayout),
    /// Anything else.
    Other,
}

// Whether the references of a table are turned, where those of cuts and of payments may be.
fn is_turned(name: TableName, cuts: bool, payments: bool) -> bool
    ensures { record (table_called name) { references = in_order result (table_called name).references } ≡ table_turned cuts payments name }
{
    match name {
        TableName::PoolCuts => cuts,
        TableName::PoolReturns => payments,
        _ => false,
    }
}

// Whether a table is that of a name, with this tree, where the references of cuts and of payments may be turned.
fn is_called(table: &Table, name: TableName, tree: usize, cuts: bool, payments: bool) -> bool
    ensures { IsTrue result ↔ (table.now ≡ record (table_turned cuts payments name) { tree = tree }) }
{
    is_table(
        table,
        &shape_of(name),
        tree,
        is_turned(name, cuts, payments),
    )
}

// Whether the index at a place is the one for the key of the table of a shape, which has this tree.
fn has_guard(indexes: &[Index], at: usize, shape: &TableShape<'_>, tree: usize) -> bool
    ensures { IsTrue result ↔ (slice_get indexes.now at ≡ Some (guard_shaped shape.now tree)) }
{
    match indexes.get(at) {
        Some(index) => is_guard(index, shape, tree),
        None => false,
    }
}

// Whether a schema has so many of the first tables, the indexes for their keys, and nothing else, where the references of cuts and of
// payments may be turned. A table's tree is behind those of the tables and of the indexes before it.
fn is_made_of(schema: &Schema, count: usize, cuts: bool, payments: bool) -> bool
    requires { count ≤ 14 }
    ensures { IsTrue result ↔ (schema.now ≡ schema_turned count cuts payments) }
{
    let tables = schema.tables.as_slice();
    if tables.len() != count {
        return false;
    }
    let mut guards = 0;
    for at in 0..count {
        let name = name_at(at);
        let tree = at + guards;
        if !is_called(&tables[at], name, tree, cuts, payments) {
            return false;
        }
        let shape = shape_of(name);
        if shape.is_guarded() {
            if !has_guard(schema.indexes.as_slice(), guards, &shape, tree) {
                return false;
            }
            guards += 1;
        }
    }
    schema.indexes.len() == guards && schema.views.is_empty()
}

// Whether a schema is that of so many of the first tables.
#[tactic(auto, unfolding(crate::specs::Layouts::IsFirst))]
fn is_first(schema: &Schema, count: usize) -> bool
    requires { count ≤ 14 }
    ensures { IsTrue result ↔ IsFirst count schema.now }
{
    is_made_of(schema, count, false, false)
        || is_made_of(schema, count, false, true)
        || is_made_of(schema, count, true, false)
        || is_made_of(schema, count, true, true)
}

// Whether a schema has no table, index or view.
fn is_bare(schema: &Schema) -> bool
    ensures { IsTrue result ↔ (schema.now ≡ no_schema) }
{
    schema.tables.is_empty() && schema.indexes.is_empty() && schema.views.is_empty()
}

/// What a database holds, as its connection sees it; it reads no row and changes nothing. A table that refers to two others may name
/// them in either order.
pub fn layout_found<S: Alter>(conn: &Idle<S>) -> Found
    ensures found { IsFound (state S.Store conn.now).now result }
    ensures settled { IsTrue (state S.Store conn.now).is_open → (state S.Store conn.now).now ≡ (state S.Store conn.now).committed }
{
    conn.see_last_commit();
    let schema = conn.connection.schema();
    if is_first(schema, TABLE_COUNT) {
        Found::Layout
    } else if is_first(schema, OlderLayout::Second.table_count()) {
        Found::Older(OlderLayout::Second)
    } else if is_first(schema, OlderLayout::First.table_count()) {
        Found::Older(OlderLayout::First)
    } else if is_bare(schema) {
        Found::Nothing
    } else {
        Found::Other
    }
}
