ghost use Rattle.std.specs.Prelude.{◌≡◌};
ghost use Rattle.linear_model.specs.Forms as spec;
ghost use Rattle.linear_model.specs.Forms.{IsRising};
ghost use Rattle.linear_model.specs.Normal as normal;
ghost use Rattle.lin_row.specs.Truth.{truth_of};

use crate::row::Row;
use clp_model::Rel;

/// Whether a row holds whatever its variables stand for, never, or as they do.
#[derive(Clone, Copy, Debug, PartialEq, Eq)]
pub enum Truth {
    Always,
    Never,
    Depends,
}

/// Whether the number compares so with 0.
fn compares(rel: Rel, number: i64) -> bool
    ensures { result ≡ normal.compares rel number }
{
    match rel {
        Rel::Eq => number == 0,
        Rel::Le => number <= 0,
        Rel::Lt => number < 0,
    }
}

/// The coefficient of the variable in rising pairs, 0 where it has none.
fn coefficient_in(pairs: &[(u32, i64)], variable: u32) -> i64
    requires rising { IsRising pairs.now }
    ensures { result ≡ spec.coefficient pairs.now variable }
{
    for p in pairs {
        if p.0 == variable {
            return p.1;
        }
        if variable < p.0 {
            return 0;
        }
    }
    0
}

impl Row {
    /// `Depends` exactly where the row has a variable, and else what its constant says. It takes no memory.
    pub fn truth(&self) -> Truth
        ensures { result ≡ truth_of self.now }
    {
        if !self.pairs.is_empty() {
            return Truth::Depends;
        }
        if compares(self.rel, self.constant) {
            Truth::Always
        } else {
            Truth::Never
        }
    }

    /// The coefficient of the variable, 0 where it has none. It takes no memory.
    pub fn coefficient(&self, variable: u32) -> i64
        ensures { result ≡ spec.coefficient self.now.pairs variable }
    {
        coefficient_in(self.pairs.as_slice(), variable)
    }
}
