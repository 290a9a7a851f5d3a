//! How often a vault's files are read for what a keeper is asked, where one page of them has room in memory: as often
//! with many entries as with few, for the first removed entry less often than for all, and not at all for what a put
//! made known. Nor does a change ask again for what is known: neither a put nor a move.
use sqlite::{Alter, Connection, FileStore, Files, Options, Unknown};
use sqlite_disk::Disk;
use std::alloc::Global;
use std::test::Fail;
use vault_base::name::{BucketName, DeptName, KeyPrefix};
use vault_core_model::keeper::{Keeper, Sink};
use vault_core_model::records::Entry;
use vault_failing::device::{ALL_CALLS, Bytes, Media, TornWrites};
use vault_store::sql_keeper::SqlKeeper;
use vault_transcript::transcript::{OPENING, play, replies};

/// With keys so long a page has four of them, or four entries.
const KEY_LENGTH: usize = 900;

const FEW: u64 = 6;

/// The puts after the few whose reads are counted.
const MORE: u64 = 12;

/// The reads of a put of a new key in a script, among few entries: for its caller, for its key, and for what it writes to.
/// The bucket, the sums of its department and the row of `meta` are known. To ask the tables for one of them takes a read
/// more, or several.
const READS_OF_PUT: u64 = 39;

const MANY: u64 = 100;

/// How many of them are removed in the end.
const REMOVED: u64 = 50;

/// A key for each number.
fn key(alloc: Global, number: u64) -> Result<String, Fail> {
    let stem = "k".repeat(alloc, KEY_LENGTH)?;
    Ok(format!(in alloc; "{stem}{number}")?)
}

/// Ann puts a byte at the key of that number.
fn put(alloc: Global, number: u64) -> Result<String, Fail> {
    let key = key(alloc, number)?;
    Ok(format!(in alloc;
        "{{\"at\":\"2024-01-15T10:30:00Z\",\"as\":\"ann\",\"do\":\"put\",\"bucket\":\"docs\",\"key\":\"{key}\",\"text\":\"a\"}}"
    )?)
}

/// Ann removes the version with that id, which is at the key of that number.
fn removal(alloc: Global, number: u64) -> Result<String, Fail> {
    let key = key(alloc, number)?;
    Ok(format!(in alloc;
        "{{\"at\":\"2024-01-16T00:00:00Z\",\"as\":\"ann\",\"do\":\"delete-version\",\"bucket\":\"docs\",\"key\":\"{key}\",\"id\":{number}}}"
    )?)
}

/// Puts the versions after n, up to that number.
fn put_each<K: Keeper>(alloc: Global, keeper: &mut K, after: u64, last: u64) -> Result<(), Fail> {
    for number in after..last {
        let line = put(alloc, number.saturating_add(1))?;
        replies(alloc, keeper, line.as_bytes())?;
    }
    if keeper.next_id().ok() == Some(last.saturating_add(1)) {
        return Ok(());
    }
    Err(Fail::new("a version isn't put"))
}

/// Removes the first versions.
fn remove_each<K: Keeper>(alloc: Global, keeper: &mut K) -> Result<(), Fail> {
    for number in 0..REMOVED {
        let line = removal(alloc, number.saturating_add(1))?;
        replies(alloc, keeper, line.as_bytes())?;
    }
    Ok(())
}

/// A department, one that isn't there, the first one's bucket, and where the bucket's keys begin.
#[derive(Drop)]
struct Names {
    dept: DeptName,
    other: DeptName,
    bucket: BucketName,
    start: KeyPrefix,
}

fn read_names(alloc: Global) -> Result<Names, Fail> {
    Ok(Names {
        dept: DeptName::read(alloc, "records")?.ok().ok_or("a name")?,
        other: DeptName::read(alloc, "maps")?.ok().ok_or("a name")?,
        bucket: BucketName::read(alloc, "docs")?.ok().ok_or("a name")?,
        start: KeyPrefix::read(alloc, "")?.ok().ok_or("a prefix")?,
    })
}

/// How often the files were read for an answer.
#[derive(Clone, Copy, Debug)]
struct Reads {
    totals: u64,
    keys: u64,
}

/// Fails if the files are read for what the last put made known: the last moment, the next id, the bucket, and the sums of
/// its department.
fn read_nothing_known<K: Keeper>(keeper: &mut K, media: &Media, names: &Names) -> Result<(), Fail> {
    let before = media.reads();
    let known = keeper.last().is_ok()
        && keeper.next_id().is_ok()
        && keeper.bucket(&names.bucket).is_ok()
        && keeper.totals(&names.dept).is_ok();
    let reads = media.reads().saturating_sub(before);
    if known && reads == 0 {
        return Ok(());
    }
    Err(Fail::new(format_args!("{reads} reads of what is known")))
}

/// The reads for a department's sums, after those of another one were asked for, so that they aren't known.
fn reads_of_totals<K: Keeper>(
    keeper: &mut K,
    media: &Media,
    names: &Names,
    held: u64,
) -> Result<u64, Fail> {
    let _none = keeper.totals(&names.other).ok().ok_or("no sums")?;
    let before = media.reads();
    let sums = keeper.totals(&names.dept).ok().ok_or("no sums")?;
    if sums.held != held {
        return Err(Fail::new("other sums"));
    }
    Ok(media.reads().saturating_sub(before))
}

/// The least reads of some puts of new keys: of some the log is copied too.
fn reads_of_put<K: Keeper>(alloc: Global, keeper: &mut K, media: &Media) -> Result<u64, Fail> {
    let mut least = u64::MAX;
    for number in FEW..MORE {
        let line = put(alloc, number.saturating_add(1))?;
        let before = media.reads();
        replies(alloc, keeper, line.as_bytes())?;
        least = least.min(media.reads().saturating_sub(before));
    }
    Ok(least)
}

/// The reads for the first five keys of a bucket.
fn reads_of_keys<K: Keeper>(keeper: &mut K, media: &Media, names: &Names) -> Result<u64, Fail> {
    let before = media.reads();
    let keys = keeper.keys(&names.bucket, &names.start, 5);
    if !keys.is_ok_and(|keys| keys.len() == 5) {
        return Err(Fail::new("no five keys"));
    }
    Ok(media.reads().saturating_sub(before))
}

fn reads_among<K: Keeper>(
    keeper: &mut K,
    media: &Media,
    names: &Names,
    held: u64,
) -> Result<Reads, Fail> {
    Ok(Reads {
        totals: reads_of_totals(keeper, media, names, held)?,
        keys: reads_of_keys(keeper, media, names)?,
    })
}

/// Whether the many are no more than the few three times over: a tree that grows has two steps more, and each of five
/// keys may take them; all entries are in 25 pages. No page is read without a read of a file.
fn is_alike(few: u64, many: u64) -> bool {
    few != 0 && many <= few.saturating_mul(3)
}

/// Fails if a put reads more than it has to.
fn read_put<K: Keeper>(alloc: Global, keeper: &mut K, media: &Media) -> Result<(), Fail> {
    let reads = reads_of_put(alloc, keeper, media)?;
    if reads != 0 && reads <= READS_OF_PUT {
        return Ok(());
    }
    Err(Fail::new(format_args!("{reads} reads of a put")))
}

/// Fails unless the sums and the keys are read as well among many entries as among few, and puts read little.
fn read_among_few_and_many<K: Keeper>(
    alloc: Global,
    keeper: &mut K,
    media: &Media,
    names: &Names,
) -> Result<(), Fail> {
    put_each(alloc, keeper, 0, FEW)?;
    read_nothing_known(keeper, media, names)?;
    let few = reads_among(keeper, media, names, FEW)?;
    read_put(alloc, keeper, media)?;
    put_each(alloc, keeper, MORE, MANY)?;
    let many = reads_among(keeper, media, names, MANY)?;
    if is_alike(few.totals, many.totals) && is_alike(few.keys, many.keys) {
        return Ok(());
    }
    Err(Fail::new(format_args!("{few:?}, and among many {many:?}")))
}

/// Takes n entries, and refuses the next.
#[derive(Drop)]
struct Room {
    left: u64,
}

impl Sink for Room {
    ghost takes = { λ _ _ _ _. Unit {0} };

    fn take(&mut self, _entry: &Entry) -> bool {
        if self.left == 0 {
            return false;
        }
        self.left -= 1;
        true
    }
}

/// The reads until a sink with room for n removed entries has taken them: all of them, or not.
fn reads_of_removed<K: Keeper>(
    keeper: &mut K,
    media: &Media,
    room: u64,
    all: bool,
) -> Result<u64, Fail> {
    let before = media.reads();
    let mut sink = Room { left: room };
    let walked = keeper.walk_removed(&mut sink);
    let left = sink.left;
    drop(sink);
    if left != 0 || walked.ok() != Some(all) {
        return Err(Fail::new("other entries are handed on"));
    }
    Ok(media.reads().saturating_sub(before))
}

/// Fails unless a removed entry is handed on before the next ones are read.
fn read_removed<K: Keeper>(alloc: Global, keeper: &mut K, media: &Media) -> Result<(), Fail> {
    remove_each(alloc, keeper)?;
    let first = reads_of_removed(keeper, media, 1, false)?;
    let all = reads_of_removed(keeper, media, REMOVED, true)?;
    if first != 0 && first.saturating_mul(4) <= all {
        return Ok(());
    }
    Err(Fail::new(format_args!("{first} reads for the first, {all} for all")))
}

/// The line that makes another department.
const TAKER: &str = r#"
{"at":"2024-01-17T00:00:00Z","as":"registrar","do":"add-dept","dept":"court"}
  {"ok":{}}
"#;

/// The line by which it gets the bucket.
const MOVE: &str = r#"
{"at":"2024-01-17T00:00:00Z","as":"registrar","do":"move-bucket","bucket":"docs","dept":"court"}
  {"ok":{"bytes":50}}
"#;

/// The reads for what the bucket holds.
fn reads_of_held<K: Keeper>(keeper: &mut K, media: &Media, names: &Names) -> Result<u64, Fail> {
    let before = media.reads();
    let held = keeper.bucket_held(&names.bucket).ok().ok_or("no sums")?;
    if held.0 != MANY - REMOVED {
        return Err(Fail::new("other sums"));
    }
    Ok(media.reads().saturating_sub(before))
}

/// Fails unless a move whose bucket's sums are known leaves it at that. To change the rows takes as many reads as the sums
/// took, so a move that asked for them again would read twice as much.
fn read_moved<K: Keeper>(
    alloc: Global,
    keeper: &mut K,
    media: &Media,
    names: &Names,
) -> Result<(), Fail> {
    play(alloc, keeper, TAKER)?;
    let held = reads_of_held(keeper, media, names)?;
    let before = media.reads();
    play(alloc, keeper, MOVE)?;
    let moved = media.reads().saturating_sub(before);
    if held != 0 && moved <= held.saturating_add(held / 2) {
        return Ok(());
    }
    Err(Fail::new(format_args!("{held} reads of what is held, {moved} of a move")))
}

fn judge<K: Keeper>(
    alloc: Global,
    keeper: &mut K,
    media: &Media,
    names: &Names,
) -> Result<(), Fail> {
    play(alloc, keeper, OPENING)?;
    read_among_few_and_many(alloc, keeper, media, names)?;
    read_removed(alloc, keeper, media)?;
    read_moved(alloc, keeper, media, names)
}

/// Opens the files with room for one page of them.
fn connected<D: Disk + Drop>(
    alloc: Global,
    files: Files<D>,
) -> Result<Connection<FileStore<D>>, Fail> {
    if !files.may_be_used() {
        return Err(Fail::new("the files can't be used"));
    }
    // The log is kept short, as what is synced is copied.
    let options = Options {
        cache_pages: 1,
        spill_pages: 2000,
        checkpoint_frames: 40,
        seed: 1,
    };
    let opened = Connection::open_files(alloc, files, options);
    Ok(opened.ok().ok_or("the files can't be opened")?)
}

/// Judges a new vault in a store. It is over any store, as a proof over files would carry their state through each call.
fn judge_over<S: Alter>(
    alloc: Global,
    conn: Connection<S>,
    media: &Media,
    names: &Names,
) -> (Result<(), Fail>, Connection<S>) {
    match SqlKeeper::create(alloc, conn, false) {
        Ok(keeper) => {
            let mut keeper = keeper;
            let judged = judge(alloc, &mut keeper, media, names);
            (judged, keeper.into_connection())
        }
        Err((_, conn)) => (Err(Fail::new("a vault can't be made")), conn),
    }
}

/// Judges a new vault in these files.
fn judge_in<D: Disk + Drop>(
    alloc: Global,
    files: Files<D>,
    media: &Media,
    names: &Names,
) -> Result<(), Fail> {
    let (judged, conn) = judge_over(alloc, connected(alloc, files)?, media, names);
    drop(conn);
    judged
}

#[test]
fn sums_and_keys_are_read_without_entries_and_removals_one_by_one(
    rt: HostRuntime,
) -> Result<(), Fail> {
    let alloc = rt.alloc();
    let media = Media::new(alloc, &Bytes::none(alloc), TornWrites::Mixing)?;
    let names = read_names(alloc)?;
    // They are of the kind that the stops have, so that the whole vault isn't compiled for another one.
    judge_in(alloc, media.opened::<Unknown>(ALL_CALLS)?, &media, &names)
}
