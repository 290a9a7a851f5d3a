//! What the tests call of a store. None of these has a clause, so that the proof of a test does not carry the state of each
//! call.
use sqlite::{Alter, Connection, Error};
use vault_base::refusal::Refusal;
use vault_store::create::fill;

/// Makes a vault in an empty store.
pub fn made<S: Alter>(conn: &mut Connection<S>) -> Result<(), Refusal> {
    fill(conn, false)
}

/// Carries out statements.
pub fn batch<S: Alter>(conn: &mut Connection<S>, sql: &str) -> Result<(), Error> {
    conn.execute_batch(sql)
}

/// The number that a query states.
pub fn number<S: Alter>(conn: &mut Connection<S>, sql: &str) -> Result<i64, Error> {
    conn.query_row(sql, &[])?.get(0)
}
