//! A query each of whose rows is looked at by itself.

ghost use Rattle.std.specs.Prelude.{IfOk, IfErr};
ghost use Rattle.sqlite.specs.State.{HasCleanDisk};
ghost use Rattle.sqlite.specs.Held.{state};
ghost use Rattle.sqlite.specs.Given.{IsPlain};
ghost use Rattle.sqlite.specs.Listing.{understood};
ghost use Rattle.vault_audit_rows.specs.Health.{IsHealthy, IsMemory, Asks, OnlyLooks};
ghost use Rattle.vault_audit_rows.specs.Records.{Checked};

use crate::walk::{Pass, walk};
use sqlite::{Alter, Connection, Error, Row};

/// A check that looks at each row by itself. An error is out of memory.
pub trait Check {
    ghost use Rattle.std.specs.Prelude.{MatchBool, IfOk, IfErr};
    ghost use Rattle.vault_audit_rows.specs.Health.{IsMemory};
    ghost use Rattle.sqlite_value.specs.Order.{Row as Values};

    // The rows that pass.
    ghost takes: { Self → Values → Type 0 };

    /// Whether the row passes.
    fn is_passed_by(&self, row: &Row) -> Result<bool, Error>
        ensures reported { IfOk result (λ passes. MatchBool passes (takes self.now row.now) (¬ takes self.now row.now)) }
        ensures err { IfErr result IsMemory };
}

/// A walk whose check of a row doesn't depend on the rows before it.
#[derive(Drop)]
struct EachRow<'a, C> {
    check: &'a C,
}

impl<'a, C: Check> Pass for EachRow<'a, C> {
    ghost use Rattle.std.specs.Prelude.{◌≡◌};

    ghost goes = { λ old row new. (new ≡ old) × C.takes old.check.now row };

    ghost stops = { λ old row. ¬ C.takes old.check.now row };

    fn take(&mut self, row: &Row) -> Result<bool, Error> {
        self.check.is_passed_by(row)
    }
}

/// Whether each row of the answer passes. Nothing is changed.
pub fn check_rows<S: Alter, C: Check>(
    conn: &mut Connection<S>,
    sql: &str,
    check: &C,
) -> Result<bool, Error>
    requires { HasCleanDisk (state S.Store conn.old) → IsPlain (understood conn.old.schema sql.now) }
    ensures checked { HasCleanDisk (state S.Store conn.new) → IfOk result (Checked (C.takes check.now) sql.now (state S.Store conn.old) (state S.Store conn.new)) }
    ensures look { OnlyLooks S.Store conn.old conn.new result }
    // A store that works answers such a text, or wants memory.
    ensures err { IsHealthy (state S.Store conn.new) → (HasCleanDisk (state S.Store conn.old) → Asks conn.old.schema sql.now) → IfErr result IsMemory }
{
    walk(conn, sql, &mut EachRow { check })
}
