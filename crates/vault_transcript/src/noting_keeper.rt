//! A keeper that notes what is asked of it and runs out of ids, for tests of how a run goes about its work.
use crate::transcript::play;
use std::alloc::{AllocError, Global};
use std::test::Fail;
use vault_base::name::VersionId;
use vault_core_model::change::Change;
use vault_core_model::halt::Fault;
use vault_core_model::keeper::Keeper;
use vault_core_model::kept::Kept;
use vault_core_model::wrapper::{Read, Wrapper};

/// The id after the last one that an entry may have.
const PAST_THE_LAST: u64 = 1_000_000_001;

/// Answers what the keeper below does, and notes each call but walks as a line. After n ids it says that none is
/// left. Once it has said so, it refuses every change with `Memory`.
#[derive(Drop)]
pub struct NotingKeeper<'a, K> {
    alloc: Global,
    keeper: &'a mut K,
    calls: String,
    /// How many ids it still states as they are.
    ids: u64,
    is_full: bool,
}

impl<'a, K> NotingKeeper<'a, K> {
    /// A keeper over another one, of which nothing was asked yet, that states n ids before it is full.
    pub fn new(alloc: Global, keeper: &'a mut K, ids: u64) -> NotingKeeper<'a, K> {
        NotingKeeper {
            alloc,
            keeper,
            calls: String::new(alloc),
            ids,
            is_full: false,
        }
    }

    /// The calls, a line each.
    pub fn into_calls(self) -> String {
        self.calls
    }
}

/// What the lines of a transcript ask of their keeper, a call a line. Fails where a reply isn't that of the transcript.
pub fn calls_of<K: Keeper>(
    alloc: Global,
    keeper: &mut K,
    transcript: &str,
) -> Result<String, Fail> {
    let mut noting = NotingKeeper::new(alloc, keeper, u64::MAX);
    play(alloc, &mut noting, transcript)?;
    Ok(noting.into_calls())
}

fn push_call(calls: &mut String, call: &str, about: &str) -> Result<(), AllocError> {
    calls.push_str(call)?;
    calls.push_str(about)?;
    calls.push('\n')
}

fn push_ids(
    alloc: Global,
    calls: &mut String,
    key: &str,
    than: &Option<VersionId>,
    most: u32,
) -> Result<(), AllocError> {
    let asked = match than {
        None => format!(in alloc; "{most} ids of {key}")?,
        Some(than) => format!(in alloc; "{most} ids of {key} older than {}", than.number())?,
    };
    push_call(calls, asked.as_str(), "")
}

fn push_read(alloc: Global, calls: &mut String, read: &Read<'_>) -> Result<(), AllocError> {
    match read {
        Read::Last => push_call(calls, "last", ""),
        Read::NextId => push_call(calls, "next id", ""),
        Read::Caller(name) => push_call(calls, "caller ", name.as_str()),
        Read::Dept(name) => push_call(calls, "dept ", name.as_str()),
        Read::Bucket(name) => push_call(calls, "bucket ", name.as_str()),
        Read::Rules(bucket) => push_call(calls, "rules ", bucket.as_str()),
        Read::Head(key) => push_call(calls, "head ", key.as_str()),
        Read::Entries(key) => push_call(calls, "entries ", key.as_str()),
        Read::Entry(_) => push_call(calls, "entry", ""),
        Read::Setting(_) => push_call(calls, "setting", ""),
        Read::Settings(_) => push_call(calls, "settings", ""),
        Read::External => push_call(calls, "external", ""),
        Read::Content(_) => push_call(calls, "content", ""),
        Read::Keys(after, 256) => push_call(calls, "256 keys after ", after.as_str()),
        Read::Keys(after, _) => push_call(calls, "keys after ", after.as_str()),
        Read::Ids(key, than, most) => push_ids(alloc, calls, key.as_str(), than, *most),
        Read::Buckets(after, _) => push_call(calls, "buckets after ", after),
        Read::Note(_, _) => push_call(calls, "note", ""),
        Read::Removed => Ok(()),
        Read::Moves => push_call(calls, "moves", ""),
        Read::Tenures(_) => push_call(calls, "tenures", ""),
        Read::BucketHeld(bucket) => push_call(calls, "bucket held ", bucket.as_str()),
        Read::Totals(dept) => push_call(calls, "totals ", dept.as_str()),
    }
}

/// What a change is, as far as runs make it.
fn kind_of(change: &Change) -> &'static str {
    match change {
        Change::Admit(_) => "admit",
        Change::Remove(_, _) => "remove",
        _ => "change",
    }
}

impl<K: Kept> Kept for NotingKeeper<'_, K> {
    ghost use Rattle.std.specs.Prelude.{◌≡◌, false};

    // What it answers holds of its vault until it has said that it is full.
    ghost is_honest = { λ k. (k.is_full ≡ false) × K.is_honest k.keeper.now };

    ghost vault = { λ k. K.vault k.keeper.now };

    ghost count = { λ k. K.count k.keeper.now };

    ghost sound = { λ k honest. K.sound k.keeper.now honest.1 };
}

impl<K: Keeper> Wrapper for NotingKeeper<'_, K> {
    type Below = K;

    ghost use Rattle.std.specs.Prelude.{refl};

    ghost within = { λ k. k.keeper.now };

    ghost with_below = { λ k below. record k { keeper = record k.keeper { now = below } } };

    ghost wraps = { record {
      put = λ _ _. refl;
      vault = λ _. refl;
      trusts = λ _ honest. honest.1;
      honest = λ _ _ before honest. (honest.0, before honest.1);
      counted = λ _ _ _ is. is;
    } };

    fn below(&mut self) -> &mut K {
        self.keeper
    }

    fn all_faults(&self) -> u64 {
        self.keeper.faults()
    }

    // A note without room is left out, so that the calls aren't those wanted.
    fn before_read(&mut self, read: &Read<'_>) {
        let _ = push_read(self.alloc, &mut self.calls, read);
        if let Read::NextId = read {
            match self.ids.checked_sub(1) {
                Some(ids) => self.ids = ids,
                None => self.is_full = true,
            }
        }
    }

    fn before_change(&mut self, change: &Change) -> Result<(), Fault> {
        let _ = push_call(&mut self.calls, kind_of(change), "");
        if self.is_full {
            return Err(Fault::Memory);
        }
        Ok(())
    }

    fn shown_id(&self, id: Result<u64, Fault>) -> Result<u64, Fault> {
        if self.is_full {
            let _ = id?;
            return Ok(PAST_THE_LAST);
        }
        id
    }
}
