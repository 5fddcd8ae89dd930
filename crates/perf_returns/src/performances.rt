//! The rows of a return.
ghost use Rattle.std.specs.Prelude.{◌≡◌, ◌≤◌, length};

use crate::performance::Performance;
use std::marker::Model;

/// The rows of data of a return, in order, at most 10,000 (profile). Clauses see a list.
#[derive(Debug, Drop)]
pub struct Performances {
    list: Vec<Performance>,
}

impl Model for Performances {
    ghost use Rattle.std.specs.Prelude.{◌≤◌, length, List};
    ghost use Rattle.perf_returns.specs.declared.performance.Performance.{Performance};

    ghost Value = { List Performance };

    ghost view = { λ p. p.list.items };

    ghost invariant = { λ p. length p.list.items ≤ 10000 };
}

impl Performances {
    /// These rows, at most 10,000.
    pub fn from_vec(list: Vec<Performance>) -> Performances
        requires { length list.items ≤ 10000 }
        ensures { result ≡ list.items }
    {
        Performances { list }
    }

    /// The rows, lent.
    pub fn as_slice(&self) -> &[Performance]
        ensures rows { result.now ≡ self.now }
        ensures limit { length self.now ≤ 10000 }
    {
        self.list.as_slice()
    }
}

/// A return: its rows of data.
#[derive(Debug, Drop)]
pub struct Return {
    pub rows: Performances,
}
