//! A bucket that moves to another department.
ghost use Rattle.std.specs.Prelude.{◌≡◌, ◌+◌, false, Some, IfOk, OnOk};
ghost use Rattle.sqlite.specs.Held.{state};
ghost use Rattle.sqlite.specs.State.{HasCleanDisk};
ghost use Rattle.vault_base.specs.Days.{day};
ghost use Rattle.vault_core_model.specs.declared.change.Change.TheVariants as change;
ghost use Rattle.vault_core_model.specs.Totals.{IsRowFor, bucket_bytes, bucket_weight};
ghost use Rattle.vault_core_model.specs.Vault.{Vault, config_of};
ghost use Rattle.vault_store_model.specs.Keeping.{Keeps};
ghost use Rattle.vault_store_model.specs.Sums.{HandsOver, Receives};
ghost use Rattle.vault_store_apply.specs.Applies.{Changes, MayLeaveChanged};
ghost use Rattle.vault_store_model.specs.Known.{AreKnown};
ghost use Rattle.vault_store_apply.specs.Known.{IsKnownOf, IsOpen};
ghost use Rattle.vault_store_reads.specs.Quiet.{OnlyReads, IsOpenIfOk};
ghost use Rattle.vault_store_edits.specs.Commits.{KeepsIfErr};

use crate::commit::commit_part;
use crate::entries::context::{read_config, read_sums};
use crate::parts::moves::MovedBucket;
use sqlite::{Alter, Connection, Error, ErrorCode};
use vault_base::moment::Moment;
use vault_base::name::{BucketName, DeptName};
use vault_core_model::records::BucketConfig;
use vault_store_model::known::Known;
use vault_store_reads::meta::read_moves;
use vault_store_walks::held::read_bucket_held;
use vault_tally::row::Row;

/// The number after n moves. `TooBig` beyond 32 bits.
fn next_number(moves: u32) -> Result<u32, Error>
    ensures { IfOk result (λ number. number ≡ moves + 1) }
{
    if moves == u32::MAX {
        return Err(Error::SqliteFailure(ErrorCode::TooBig));
    }
    Ok(moves + 1)
}

/// How often a bucket was moved.
fn find_moves<S: Alter>(conn: &mut Connection<S>, known: &Known) -> Result<u32, Error>
    requires { IsOpen S.Store conn.old }
    ensures value { HasCleanDisk (state S.Store conn.new) → IfOk result (λ moves. (v : Vault) → Keeps (state S.Store conn.old) v → AreKnown known.now v → moves ≡ v.moves) }
    ensures open { IsOpenIfOk S.Store conn.new result }
    ensures read { OnlyReads S.Store conn.old conn.new }
{
    match known.moves() {
        Some(moves) => Ok(moves),
        None => read_moves(conn),
    }
}

/// The number of the next move.
fn find_number<S: Alter>(conn: &mut Connection<S>, known: &Known) -> Result<u32, Error>
    requires { IsOpen S.Store conn.old }
    ensures value { HasCleanDisk (state S.Store conn.new) → IfOk result (λ number. (v : Vault) → Keeps (state S.Store conn.old) v → AreKnown known.now v → number ≡ v.moves + 1) }
    ensures open { IsOpenIfOk S.Store conn.new result }
    ensures read { OnlyReads S.Store conn.old conn.new }
{
    let moves = find_moves(conn, known)?;
    next_number(moves)
}

/// The bytes and the weight of a bucket's held versions.
fn find_held<S: Alter>(
    conn: &mut Connection<S>,
    known: &Known,
    bucket: &BucketName,
) -> Result<(u64, u64), Error>
    requires { IsOpen S.Store conn.old }
    ensures value { HasCleanDisk (state S.Store conn.new) → IfOk result (λ held. (v : Vault) → Keeps (state S.Store conn.old) v → AreKnown known.now v
        → (held.0 ≡ bucket_bytes v bucket.now) × (held.1 ≡ bucket_weight v bucket.now)) }
    ensures open { IsOpenIfOk S.Store conn.new result }
    ensures read { OnlyReads S.Store conn.old conn.new }
{
    match known.load(bucket) {
        Some(held) => Ok(held),
        None => read_bucket_held(conn, bucket),
    }
}

/// What moves: the bytes of the bucket's held versions, their weight, and the number of the move.
#[derive(Clone, Copy)]
struct Load {
    bytes: u64,
    weight: u64,
    number: u32,
}

/// Reads that.
fn read_load<S: Alter>(
    conn: &mut Connection<S>,
    known: &Known,
    bucket: &BucketName,
) -> Result<Load, Error>
    requires { IsOpen S.Store conn.old }
    ensures value { HasCleanDisk (state S.Store conn.new) → IfOk result (λ load. (v : Vault) → Keeps (state S.Store conn.old) v → AreKnown known.now v
        → (load.bytes ≡ bucket_bytes v bucket.now) × (load.weight ≡ bucket_weight v bucket.now) × (load.number ≡ v.moves + 1)) }
    ensures open { IsOpenIfOk S.Store conn.new result }
    ensures read { OnlyReads S.Store conn.old conn.new }
{
    let held = find_held(conn, known, bucket)?;
    let number = find_number(conn, known)?;
    Ok(Load {
        bytes: held.0,
        weight: held.1,
        number,
    })
}

/// The configuration of the bucket, the sums of the department that it names, and those of the one that
/// gets the bucket.
#[derive(Drop)]
struct Hands {
    config: BucketConfig,
    giver: Row,
    taker: Row,
}

/// Reads that; an error where there is no such bucket.
fn read_hands<S: Alter>(
    conn: &mut Connection<S>,
    known: &Known,
    bucket: &BucketName,
    dept: &DeptName,
) -> Result<Hands, Error>
    requires { IsOpen S.Store conn.old }
    ensures value { HasCleanDisk (state S.Store conn.new) → IfOk result (λ hands. (v : Vault) → Keeps (state S.Store conn.old) v → AreKnown known.now v
        → (Some hands.config ≡ config_of v bucket.now) × IsRowFor v hands.config.dept hands.giver × IsRowFor v dept.now hands.taker) }
    ensures read { OnlyReads S.Store conn.old conn.new }
{
    let config = read_config(conn, known, bucket)?;
    let giver = read_sums(conn, known, &config.dept)?;
    let taker = read_sums(conn, known, dept)?;
    Ok(Hands {
        config,
        giver,
        taker,
    })
}

/// The sums of a department that hands so much over at a moment.
fn without_load(sums: Row, load: Load, at: Moment) -> Row
    ensures { HandsOver sums load.bytes load.weight (day at) result }
{
    let mut sums = sums;
    sums.hand_over(load.bytes, load.weight, at.day());
    sums
}

/// The sums of a department that receives so much at a moment.
fn with_load(sums: Row, load: Load, at: Moment) -> Row
    ensures { Receives sums load.bytes (day at) result }
{
    let mut sums = sums;
    sums.receive(load.bytes, at.day());
    sums
}

/// Moves a bucket to another department: its held versions get a tenure, and both departments their sums.
pub fn move_bucket<S: Alter>(
    conn: &mut Connection<S>,
    known: &Known,
    at: Moment,
    name: &BucketName,
    dept: &DeptName,
) -> Result<(), Error>
    requires mode { conn.old.in_transaction ≡ false }
    requires known { IsKnownOf S.Store conn.old known.now }
    ensures mode { conn.new.in_transaction ≡ false }
    ensures open { IsOpenIfOk S.Store conn.new result }
    ensures done { HasCleanDisk (state S.Store conn.new) → OnOk result (Changes (state S.Store conn.old) (state S.Store conn.new) at (change.MoveBucket name.now dept.now)) }
    ensures nothing { KeepsIfErr S.Store conn.old conn.new result }
    ensures honest { HasCleanDisk (state S.Store conn.new) → HasCleanDisk (state S.Store conn.old) }
    ensures crash { MayLeaveChanged S.Store conn.old conn.new at (change.MoveBucket name.now dept.now) }
{
    let load = read_load(conn, known, name)?;
    let hands = read_hands(conn, known, name, dept)?;
    let handed = without_load(hands.giver, load, at);
    let received = with_load(hands.taker, load, at);
    let part = MovedBucket {
        at,
        name,
        number: load.number,
        owner: &hands.config.dept,
        handed,
        dept,
        received,
    };
    let moved = commit_part(conn, at, &part);
    drop(hands);
    moved
}
