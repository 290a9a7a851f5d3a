//! A query whose rows go one at a time through a running check.

ghost use Rattle.std.specs.Prelude.{[], IfOk, IfErr};
ghost use Rattle.sqlite.specs.State.{HasCleanDisk};
ghost use Rattle.sqlite.specs.Held.{state};
ghost use Rattle.sqlite.specs.Given.{IsPlain};
ghost use Rattle.sqlite.specs.Listing.{understood};
ghost use Rattle.vault_audit_rows.specs.Health.{IsHealthy, IsMemory, Asks, OnlyLooks};
ghost use Rattle.vault_audit_rows.specs.Walk.{Walked};

use sqlite::{Alter, Connection, Error, ErrorCode, Row};

/// A check that takes rows one at a time. An error is out of memory.
pub trait Pass {
    ghost use Rattle.std.specs.Prelude.{MatchBool, IfErr};
    ghost use Rattle.vault_audit_rows.specs.Health.{IsMemory};
    ghost use Rattle.sqlite_value.specs.Order.{Row as Values};

    // It takes the row, and is then as this one; or it refuses the row.
    ghost goes: { Self → Values → Self → Type 0 };

    ghost stops: { Self → Values → Type 0 };

    fn take(&mut self, row: &Row) -> Result<bool, Error>
        ensures reported { IfOk result (λ goes_on. MatchBool goes_on (goes self.old row.now self.new) (stops self.old row.now)) }
        ensures err { IfErr result IsMemory };
}

/// Whether the check takes each row of the answer. Nothing is changed.
pub fn walk<S: Alter, P: Pass>(
    conn: &mut Connection<S>,
    sql: &str,
    pass: &mut P,
) -> Result<bool, Error>
    requires { HasCleanDisk (state S.Store conn.old) → IsPlain (understood conn.old.schema sql.now) }
    ensures walked { HasCleanDisk (state S.Store conn.new) → IfOk result (Walked P.goes P.stops sql.now (state S.Store conn.old) (state S.Store conn.new) pass.old pass.new) }
    ensures look { OnlyLooks S.Store conn.old conn.new result }
    // A store that works answers such a text, or wants memory.
    ensures err { IsHealthy (state S.Store conn.new) → (HasCleanDisk (state S.Store conn.old) → Asks conn.old.schema sql.now) → IfErr result IsMemory }
{
    let mut rows = conn.query(sql, &[])?;
    'rows: for _ in 0..u64::MAX {
        let Some(row) = rows.next()? else {
            return Ok(true);
        };
        if !pass.take(row)? {
            return Ok(false);
        }
    }
    Err(Error::SqliteFailure(ErrorCode::OutOfMemory))
}
