//! What a report reads, and what is read of one key, takes as many steps in a large vault as in a small one, and of a key with
//! many removed versions as of a fresh one. So do a few ids of a key with many held ones, and a few keys after one before which
//! there are many. What a bucket holds is summed by one statement, whose steps grow with the tenures of its versions. Neither
//! this nor the statement that gives them tenures takes a step for the entries of another bucket.
use crate::calls::{batch, made, number};
use sqlite::{Alter, Connection, Error, params};
use std::alloc::Global;
use std::process::Abort;
use std::test::Fail;
use vault_base::moment::Moment;
use vault_base::name::{BucketName, DeptName, KeyPrefix, ObjectKey, VersionId};
use vault_store_edits::tenures::put_tenures;
use vault_store_reads::heads::read_head;
use vault_store_reads::meta::read_last;
use vault_store_reads::names::{has_department, read_totals};
use vault_store_reads::rows_in_order::reads::{read_entries, read_ids, read_keys, read_newest_but};
use vault_store_walks::held::read_bucket_held;

/// A department, its bucket, a key of it, where the bucket's keys begin, and a place between them.
#[derive(Drop)]
struct Names {
    dept: DeptName,
    bucket: BucketName,
    key: ObjectKey,
    start: KeyPrefix,
    later: KeyPrefix,
}

/// What is read for a command.
#[derive(Clone, Copy)]
enum Reading {
    Report,
    Head,
    Entries,
    /// The newest held entry besides another one, which a removal asks for.
    Newest,
    Keys,
    /// Keys after a place between them.
    LaterKeys,
    /// All ids of the key, and those older than one that is newer than all.
    Ids,
    OlderIds,
    /// Three of the key's ids that are older than one.
    OfMany(u32),
}

// These have no clause, so that the proof of a test does not carry the state of each call, nor work out a name.

fn dept_name(alloc: Global, text: &str) -> Result<DeptName, Fail> {
    Ok(DeptName::read(alloc, text)?.ok().ok_or("a name")?)
}

fn bucket_name(alloc: Global, text: &str) -> Result<BucketName, Fail> {
    Ok(BucketName::read(alloc, text)?.ok().ok_or("a name")?)
}

fn object_key(alloc: Global, text: &str) -> Result<ObjectKey, Fail> {
    Ok(ObjectKey::read(alloc, text)?.ok().ok_or("a key")?)
}

fn key_prefix(alloc: Global, text: &str) -> Result<KeyPrefix, Fail> {
    Ok(KeyPrefix::read(alloc, text)?.ok().ok_or("a prefix")?)
}

fn entries<S: Alter>(conn: &mut Connection<S>) -> Result<i64, Error> {
    number(conn, "SELECT count(*) FROM entries")
}

/// Bounds the steps of each statement from now on.
fn limit<S: Alter>(conn: &mut Connection<S>, steps: Option<u64>) {
    conn.set_step_limit(steps)
}

fn reads_last<S: Alter>(conn: &mut Connection<S>) -> bool {
    read_last(conn).is_ok()
}

fn reads_department<S: Alter>(conn: &mut Connection<S>, names: &Names) -> bool {
    has_department(conn, &names.dept).is_ok()
}

fn reads_totals<S: Alter>(conn: &mut Connection<S>, names: &Names) -> bool {
    read_totals(conn, &names.dept).is_ok()
}

fn reads_head<S: Alter>(conn: &mut Connection<S>, names: &Names) -> bool {
    read_head(conn, &names.bucket, &names.key).is_ok()
}

fn reads_entries<S: Alter>(conn: &mut Connection<S>, alloc: Global, names: &Names) -> bool {
    read_entries(conn, alloc, &names.bucket, &names.key).is_ok_and(|found| found.len() == 1)
}

fn reads_newest<S: Alter>(conn: &mut Connection<S>, names: &Names) -> bool {
    let Some(another) = VersionId::new(GREATEST) else {
        return false;
    };
    read_newest_but(conn, &names.bucket, &names.key, another).is_ok_and(|found| found.is_some())
}

fn reads_keys<S: Alter>(
    conn: &mut Connection<S>,
    alloc: Global,
    names: &Names,
    after: &KeyPrefix,
) -> bool {
    read_keys(conn, alloc, &names.bucket, after, 5).is_ok_and(|found| found.len() == 5)
}

/// Whether `found` ids of the key are read that are older than one: each is, where that has the number 0.
fn reads_ids<S: Alter>(
    conn: &mut Connection<S>,
    alloc: Global,
    names: &Names,
    than: u32,
    most: u32,
    found: usize,
) -> bool {
    read_ids(
        conn,
        alloc,
        &names.bucket,
        &names.key,
        VersionId::new(than),
        most,
    )
    .is_ok_and(|ids| ids.len() == found)
}

fn can<S: Alter>(conn: &mut Connection<S>, alloc: Global, names: &Names, reading: Reading) -> bool {
    match reading {
        Reading::Report => reads_last(conn)
            && reads_department(conn, names)
            && reads_totals(conn, names),
        Reading::Head => reads_head(conn, names),
        Reading::Entries => reads_entries(conn, alloc, names),
        Reading::Newest => reads_newest(conn, names),
        Reading::Keys => reads_keys(conn, alloc, names, &names.start),
        Reading::LaterKeys => reads_keys(conn, alloc, names, &names.later),
        Reading::Ids => reads_ids(conn, alloc, names, 0, 2, 1),
        Reading::OlderIds => reads_ids(conn, alloc, names, GREATEST, 2, 1),
        Reading::OfMany(than) => reads_ids(conn, alloc, names, than, 3, 3),
    }
}

/// The least power of two that, as a number of steps for each statement, is enough; 1024 where none below is.
fn enough_steps<S: Alter>(
    conn: &mut Connection<S>,
    alloc: Global,
    names: &Names,
    reading: Reading,
) -> u64 {
    for steps in [1, 2, 4, 8, 16, 32, 64, 128, 256, 512] {
        limit(conn, Some(steps));
        if can(conn, alloc, names, reading) {
            return steps;
        }
    }
    1024
}

/// Puts as many versions more as there are, each at a key of its own.
fn double<S: Alter>(conn: &mut Connection<S>, present: i64) -> Result<(), Error> {
    conn.execute(MORE_ENTRIES, params![present])?;
    conn.execute(MORE_HEADS, params![present])?;
    Ok(())
}

fn grow<S: Alter>(conn: &mut Connection<S>) -> Result<(), Error> {
    limit(conn, None);
    for present in [10, 20, 40, 80, 160, 320, 640, 1280, 2560, 5120] {
        double(conn, present)?;
    }
    Ok(())
}

const TEN_VERSIONS: &str =
    "INSERT INTO departments VALUES ('records', 10, 10, 0, 185180, 0, 0, 0); INSERT INTO buckets VALUES ('docs', 'records', 0, NULL, NULL); INSERT INTO entries SELECT id + n, 'docs', 'k' || (id + n), 0, 1, x'00', 1600000000, 0, 'ada', NULL, NULL, NULL FROM (SELECT 1 AS id UNION ALL SELECT 2 UNION ALL SELECT 3 UNION ALL SELECT 4 UNION ALL SELECT 5), (SELECT 0 AS n UNION ALL SELECT 5); INSERT INTO settings SELECT id, 1, admitted, admitted_by, 0, NULL, 0, 0 FROM entries; INSERT INTO heads SELECT bucket, key, id, 1 FROM entries";

const MORE_ENTRIES: &str =
    "INSERT INTO entries SELECT id + ?1, bucket, 'k' || (id + ?1), marker, size, digest, admitted, by_rule, admitted_by, removed, cause, cause_by FROM entries";

const MORE_HEADS: &str = "INSERT INTO heads SELECT bucket, key, id, 1 FROM entries WHERE id > ?1";

/// The greatest number that an id has.
const GREATEST: u32 = 1_000_000_000;

/// As many versions of one key as there are entries, all removed.
const REMOVED_VERSIONS: &str =
    "INSERT INTO entries SELECT id + 10240, bucket, 'k7', marker, size, digest, admitted, by_rule, admitted_by, 1700000000, 0, 'ada' FROM entries";

fn read_names(alloc: Global) -> Result<Names, Fail> {
    Ok(Names {
        dept: dept_name(alloc, "records")?,
        bucket: bucket_name(alloc, "docs")?,
        key: object_key(alloc, "k7")?,
        start: key_prefix(alloc, "")?,
        later: key_prefix(alloc, "k4")?,
    })
}

/// The steps that are enough for each reading.
fn enough_for_each<S: Alter>(conn: &mut Connection<S>, alloc: Global, names: &Names) -> [u64; 8] {
    [
        enough_steps(conn, alloc, names, Reading::Report),
        enough_steps(conn, alloc, names, Reading::Head),
        enough_steps(conn, alloc, names, Reading::Entries),
        enough_steps(conn, alloc, names, Reading::Newest),
        enough_steps(conn, alloc, names, Reading::Keys),
        enough_steps(conn, alloc, names, Reading::LaterKeys),
        enough_steps(conn, alloc, names, Reading::Ids),
        enough_steps(conn, alloc, names, Reading::OlderIds),
    ]
}

#[test]
fn what_a_command_reads_does_not_grow_with_the_vault(rt: HostRuntime) -> Result<(), Fail> {
    let mut conn = Connection::open_in_memory(rt.alloc())?;
    let judged = read_in_small_and_large(&rt, rt.alloc(), &mut conn);
    drop(conn);
    judged
}

/// Makes a vault of ten versions in an empty store.
fn make_small<S: Alter>(rt: &impl Abort, conn: &mut Connection<S>) -> Result<(), Fail> {
    assert_eq!(rt; made(conn), Ok(()));
    batch(conn, TEN_VERSIONS)?;
    Ok(())
}

fn read_in_small_and_large<S: Alter>(
    rt: &impl Abort,
    alloc: Global,
    conn: &mut Connection<S>,
) -> Result<(), Fail> {
    make_small(rt, conn)?;
    let names = read_names(alloc)?;
    let judged = judge_steps(rt, alloc, conn, &names);
    drop(names);
    judged
}

/// The steps that are enough among ten versions are few, and are enough among 10,240, and where the key has had as many
/// that were removed.
fn judge_steps<S: Alter>(
    rt: &impl Abort,
    alloc: Global,
    conn: &mut Connection<S>,
    names: &Names,
) -> Result<(), Fail> {
    let among_ten = enough_for_each(conn, alloc, names);
    for steps in among_ten {
        assert!(rt; steps < 64);
    }
    grow(conn)?;
    assert_eq!(rt; entries(conn)?, 10_240);
    assert_eq!(rt; enough_for_each(conn, alloc, names), among_ten);
    assert!(rt; entries(conn).is_err());
    limit(conn, None);
    batch(conn, REMOVED_VERSIONS)?;
    assert_eq!(rt; enough_for_each(conn, alloc, names), among_ten);
    Ok(())
}

const TEN_OF_ONE_KEY: &str =
    "INSERT INTO departments VALUES ('records', 10, 10, 0, 185180, 0, 0, 0); INSERT INTO buckets VALUES ('docs', 'records', 0, NULL, NULL); INSERT INTO entries SELECT id + n, 'docs', 'k7', 0, 1, x'00', 1600000000, 0, 'ada', NULL, NULL, NULL FROM (SELECT 1 AS id UNION ALL SELECT 2 UNION ALL SELECT 3 UNION ALL SELECT 4 UNION ALL SELECT 5), (SELECT 0 AS n UNION ALL SELECT 5); INSERT INTO heads VALUES ('docs', 'k7', 10, 10)";

const MORE_OF_ONE_KEY: &str =
    "INSERT INTO entries SELECT id + ?1, bucket, key, marker, size, digest, admitted, by_rule, admitted_by, removed, cause, cause_by FROM entries";

const NEWER_HEAD: &str = "UPDATE heads SET newest = newest + ?1, count = count + ?1";

/// Puts as many versions more of the key as there are.
fn double_versions<S: Alter>(conn: &mut Connection<S>, present: i64) -> Result<(), Error> {
    conn.execute(MORE_OF_ONE_KEY, params![present])?;
    conn.execute(NEWER_HEAD, params![present])?;
    Ok(())
}

fn grow_key<S: Alter>(conn: &mut Connection<S>) -> Result<(), Error> {
    limit(conn, None);
    for present in [10, 20, 40, 80, 160, 320, 640, 1280, 2560, 5120] {
        double_versions(conn, present)?;
    }
    Ok(())
}

/// The steps that are enough for three ids: for the newest, for three that are older than the ninth, and for three that are
/// older than what comes after all.
fn enough_of_many<S: Alter>(conn: &mut Connection<S>, alloc: Global, names: &Names) -> [u64; 3] {
    [
        enough_steps(conn, alloc, names, Reading::OfMany(0)),
        enough_steps(conn, alloc, names, Reading::OfMany(9)),
        enough_steps(conn, alloc, names, Reading::OfMany(10_241)),
    ]
}

#[test]
fn a_few_ids_of_a_key_take_as_much_of_many_versions_as_of_ten(rt: HostRuntime) -> Result<(), Fail> {
    let mut conn = Connection::open_in_memory(rt.alloc())?;
    let judged = read_of_few_and_many(&rt, rt.alloc(), &mut conn);
    drop(conn);
    judged
}

fn read_of_few_and_many<S: Alter>(
    rt: &impl Abort,
    alloc: Global,
    conn: &mut Connection<S>,
) -> Result<(), Fail> {
    assert_eq!(rt; made(conn), Ok(()));
    batch(conn, TEN_OF_ONE_KEY)?;
    let names = read_names(alloc)?;
    let judged = judge_ids(rt, alloc, conn, &names);
    drop(names);
    judged
}

/// The steps that are enough of a key with ten versions are few, and are enough of one with 10,240, and where as many came
/// after these and were removed.
fn judge_ids<S: Alter>(
    rt: &impl Abort,
    alloc: Global,
    conn: &mut Connection<S>,
    names: &Names,
) -> Result<(), Fail> {
    let of_ten = enough_of_many(conn, alloc, names);
    for steps in of_ten {
        assert!(rt; steps < 64);
    }
    grow_key(conn)?;
    assert_eq!(rt; entries(conn)?, 10_240);
    assert_eq!(rt; enough_of_many(conn, alloc, names), of_ten);
    limit(conn, None);
    batch(conn, REMOVED_VERSIONS)?;
    assert_eq!(rt; enough_of_many(conn, alloc, names), of_ten);
    Ok(())
}

/// How many versions the bucket holds once it has grown, each of one byte.
const MANY: u64 = 10_240;

const FIRST_TENURES: &str = "INSERT INTO tenures SELECT id, 0, 'records', 1600000000 FROM entries";

const LATER_TENURES: &str = "INSERT INTO tenures SELECT id, 1, 'records', 1700000000 FROM entries";

/// Whether `steps` are enough to sum the grown bucket, whose versions its department has from a day.
fn sums_within<S: Alter>(conn: &mut Connection<S>, names: &Names, steps: u64, day: u64) -> bool {
    limit(conn, Some(steps));
    let read = read_bucket_held(conn, &names.bucket);
    limit(conn, None);
    read.is_ok_and(|held| held.0 == MANY && MANY.checked_mul(day) == Some(held.1))
}

/// As many entries of another bucket as there are. Each of these, and each removed version, gets a tenure.
const OF_ANOTHER: &str =
    "INSERT INTO buckets VALUES ('maps', 'records', 0, NULL, NULL); INSERT INTO entries SELECT id + 20480, 'maps', key, marker, size, digest, admitted, by_rule, admitted_by, removed, cause, cause_by FROM entries; INSERT INTO tenures SELECT id, 0, 'records', 1600000000 FROM entries WHERE id > 10240";

/// Gives each version that the bucket holds a tenure, and takes it back.
fn gives<S: Alter>(conn: &mut Connection<S>, names: &Names) -> bool {
    let Some(at) = Moment::from_secs(1_800_000_000) else {
        return false;
    };
    if !conn.is_autocommit() {
        return false;
    }
    let mut tx = conn.transaction();
    let given = put_tenures(&mut tx, &names.bucket, 2, &names.dept, at);
    tx.rollback();
    given.is_ok()
}

/// Whether `steps` are enough to give the versions of the grown bucket a tenure each.
fn gives_within<S: Alter>(conn: &mut Connection<S>, names: &Names, steps: u64) -> bool {
    limit(conn, Some(steps));
    let given = gives(conn, names);
    limit(conn, None);
    given
}

#[test]
fn what_a_bucket_holds_is_summed_by_one_statement(rt: HostRuntime) -> Result<(), Fail> {
    let mut conn = Connection::open_in_memory(rt.alloc())?;
    let judged = summed_in_one_pass(&rt, rt.alloc(), &mut conn);
    drop(conn);
    judged
}

fn summed_in_one_pass<S: Alter>(
    rt: &impl Abort,
    alloc: Global,
    conn: &mut Connection<S>,
) -> Result<(), Fail> {
    make_small(rt, conn)?;
    let names = read_names(alloc)?;
    let judged = judge_sums(rt, conn, &names);
    drop(names);
    judged
}

/// Five steps a version are in one statement: a limit of four isn't enough, as it would be if each version were asked for by
/// itself. A tenure more takes four, a removed version one, and the entry of another bucket none. To give tenures takes four
/// steps a version where as many were removed: those of another bucket would take three more.
fn judge_sums<S: Alter>(
    rt: &impl Abort,
    conn: &mut Connection<S>,
    names: &Names,
) -> Result<(), Fail> {
    grow(conn)?;
    batch(conn, FIRST_TENURES)?;
    assert!(rt; !sums_within(conn, names, 4 * MANY, 18_518));
    assert!(rt; sums_within(conn, names, 5 * MANY + 10, 18_518));
    batch(conn, LATER_TENURES)?;
    assert!(rt; sums_within(conn, names, 9 * MANY + 10, 19_675));
    batch(conn, REMOVED_VERSIONS)?;
    batch(conn, OF_ANOTHER)?;
    assert!(rt; sums_within(conn, names, 10 * MANY + 10, 19_675));
    assert!(rt; !gives_within(conn, names, MANY));
    assert!(rt; gives_within(conn, names, 5 * MANY));
    Ok(())
}
