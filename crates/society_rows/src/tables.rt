//! The tables by name, and all rows of each.
ghost use Rattle.std.specs.Prelude.{◌≡◌, ◌<◌, ◌+◌, ℕ, List, get_or, map};
ghost use Rattle.sqlite_catalog.specs.Change.{automatics};
ghost use Rattle.sqlite_schema.specs.declared.schema.Reference.{Reference};
ghost use Rattle.society_rows.specs.Effects.{ErrsByMediumOver, OnlyFailsOver};
ghost use Rattle.society_rows.specs.Layout.{all_names, table_called, table_with};
ghost use Rattle.society_rows.specs.Layouts.{HasTable};
ghost use Rattle.society_rows.specs.Listings.{ListsAll};
ghost use Rattle.society_rows.specs.Reads.{ReadsOver};
ghost use Rattle.society_rows.specs.Shapes.{guards_shaped, refers_to, table_shaped};
ghost use Rattle.society_rows.specs.TableNames.{create_text, listing_text, rowids_text};
ghost use Rattle.society_rows.specs.declared.tables.TableName.TheVariants.{Office};
ghost use Rattle.society_rows.specs.Between.{Within, within};

use crate::RowFault;
use crate::balances::BALANCES;
use crate::credits::CREDITS;
use crate::fronts::FRONTS;
use crate::mechanical_pools::MECHANICAL_POOLS;
use crate::office::OFFICE;
use crate::pool_cuts::POOL_CUTS;
use crate::pool_returns::POOL_RETURNS;
use crate::pools::POOLS;
use crate::recordings::RECORDINGS;
use crate::returns::RETURNS;
use crate::segment_ends::SEGMENT_ENDS;
use crate::shapes::TableShape;
use crate::statement::select;
use crate::transmissions::TRANSMISSIONS;
use crate::verdicts::VERDICTS;
use crate::versions::VERSIONS;
use sqlite::{Alter, Row, Transaction};

/// The tables of layout 3.
#[derive(Clone, Copy, Debug, PartialEq, Eq)]
pub enum TableName {
    Office,
    Transmissions,
    Returns,
    Pools,
    PoolCuts,
    PoolReturns,
    Fronts,
    Verdicts,
    Versions,
    Recordings,
    Credits,
    Balances,
    SegmentEnds,
    MechanicalPools,
}

/// The tables, in the order in which they are made.
const ALL: [TableName; 14] = [
    TableName::Office,
    TableName::Transmissions,
    TableName::Returns,
    TableName::Pools,
    TableName::PoolCuts,
    TableName::PoolReturns,
    TableName::Fronts,
    TableName::Verdicts,
    TableName::Versions,
    TableName::Recordings,
    TableName::Credits,
    TableName::Balances,
    TableName::SegmentEnds,
    TableName::MechanicalPools,
];

/// How many tables layout 3 has.
pub(crate) const TABLE_COUNT: usize = ALL.len();

/// The table that is made at this place.
pub(crate) fn name_at(at: usize) -> TableName
    requires { at < 14 }
    ensures { result ≡ get_or all_names at Office }
{
    ALL[at]
}

/// The table of a name.
#[tactic(auto, unfolding(crate::specs::Layout::written_out))]
pub(crate) fn shape_of(name: TableName) -> TableShape<'static>
    ensures table { (tree : ℕ) (references : List Reference) → table_shaped result tree references ≡ record (table_called name) { tree = tree; references = references } }
    ensures parents { map refers_to result.parents.now ≡ (table_called name).references }
    ensures guards { (cuts payments : List Reference) (tree : ℕ) → automatics (record (table_with cuts payments name) { tree = tree }) 0 (tree + 1) (table_with cuts payments name).uniques ≡ guards_shaped result tree }
    ensures create { result.create.now ≡ create_text name }
    ensures listing { result.listing.now ≡ listing_text name }
    ensures rowids { result.rowids.now ≡ rowids_text name }
{
    match name {
        TableName::Office => OFFICE,
        TableName::Transmissions => TRANSMISSIONS,
        TableName::Returns => RETURNS,
        TableName::Pools => POOLS,
        TableName::PoolCuts => POOL_CUTS,
        TableName::PoolReturns => POOL_RETURNS,
        TableName::Fronts => FRONTS,
        TableName::Verdicts => VERDICTS,
        TableName::Versions => VERSIONS,
        TableName::Recordings => RECORDINGS,
        TableName::Credits => CREDITS,
        TableName::Balances => BALANCES,
        TableName::SegmentEnds => SEGMENT_ENDS,
        TableName::MechanicalPools => MECHANICAL_POOLS,
    }
}

/// All rows of a table, by its key, and then, where the list says so, by its other columns; also in a database of an older layout that
/// has it.
pub fn all_rows<S: Alter>(
    tx: &mut Transaction<'_, S>,
    table: TableName,
) -> Result<Vec<Row>, RowFault>
    ensures read { Within S.Store tx.old tx.new (ReadsOver (HasTable table)) result
        (λ db rows. ListsAll table db rows.items) }
    ensures err { within S.Store tx.old tx.new (OnlyFailsOver (HasTable table)) result }
    ensures medium { within S.Store tx.old tx.new (ErrsByMediumOver (HasTable table)) result }
{
    select(tx, shape_of(table).listing, &[])
}
