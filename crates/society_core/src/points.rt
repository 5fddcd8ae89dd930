//! The points of the recordings of a pool's performances.
ghost use Rattle.std.specs.Prelude.{◌≡◌, ◌+◌, ◌<◌, ◌≤◌, ◌∷◌, [], List, ℕ, IfOk, bytes_eq, length};
ghost use Rattle.std.specs.List.{list_any};
ghost use Rattle.perf_returns.specs.declared.performance.Performance.{Performance as Row};
ghost use Rattle.society_core.specs.Points.{HasPoints, Tallies, TalliesOn, is_tallied, points_by_recording, points_of, recordings_in};

use perf_returns::Performance;
use std::alloc::{AllocError, Global};
use std::collections::BTreeMap;
use work_ids::Isrc;

/// The points of each recording of the performances that were added, at most 10,000,000 of them (profile). It takes memory
/// for each recording once, however often it was performed.
#[derive(Debug, Drop)]
pub struct Tally {
    totals: BTreeMap<Isrc, u64>,
}

// The points of a performance, 1 to 10,000,000,000.
fn points_of(row: &Performance) -> u64
    ensures value { result ≡ points_of row.now }
    ensures played { HasPoints row.now }
{
    u64::from(row.plays.value()) * u64::from(row.seconds.value())
}

impl Tally {
    /// The tally of no performances.
    pub fn new(alloc: Global) -> Tally
        ensures { Tallies result [] }
    {
        Tally {
            totals: BTreeMap::new(alloc),
        }
    }

    // Adds one performance.
    fn add(&mut self, row: &Performance) -> Result<(), AllocError>
        ensures { (rows : List Row) → length rows < 10000000 → TalliesOn self.old rows (row.now ∷ []) result self.new }
    {
        let points = points_of(row);
        let known = self.totals.get(&row.isrc).copied().unwrap_or(0);
        // The points of 10,000,000 performances are at most 10 to the 17, so no total is cut.
        self.totals.insert(row.isrc, known.saturating_add(points))?;
        Ok(())
    }

    /// Adds the performances of a return, behind those that came before, up to 10,000,000 in all (profile).
    pub fn add_all(&mut self, more: &[Performance]) -> Result<(), AllocError>
        ensures { (rows : List Row) → length rows + length more.now ≤ 10000000 → TalliesOn self.old rows more.now result self.new }
    {
        for row in more {
            self.add(row)?;
        }
        Ok(())
    }

    /// Whether it has points for a recording.
    pub(crate) fn has(&self, isrc: &Isrc) -> bool
        ensures { result ≡ is_tallied self.now isrc.now }
    {
        self.totals.contains_key(isrc)
    }

    /// The recordings that it has points for, ascending, each once.
    pub fn recordings(&self, alloc: Global) -> Result<Vec<Isrc>, AllocError>
        ensures tallied { IfOk result (λ list. (isrc : List ℕ) → is_tallied self.now isrc ≡ list_any (bytes_eq isrc) list.items) }
        ensures once { (rows : List Row) → Tallies self.now rows → IfOk result (λ list. list.items ≡ recordings_in rows) }
    {
        self.totals.keys().copied().collect(alloc)
    }

    /// Each recording with its points, ascending by ISRC.
    pub fn points_by_recording(&self, alloc: Global) -> Result<Vec<(Isrc, u64)>, AllocError>
        ensures { (rows : List Row) → Tallies self.now rows → IfOk result (λ points. points.items ≡ points_by_recording rows) }
    {
        self.totals
            .iter()
            .map(|(isrc, points)| (*isrc, *points))
            .collect(alloc)
    }
}
