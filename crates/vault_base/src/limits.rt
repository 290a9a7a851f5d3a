//! How much a vault takes, and how much of it is read or listed at once.

/// The bytes of one version at most, where the vault keeps them.
pub const MOST_CONTENT: usize = 1_048_576;

/// The bytes of one version at most, where they are kept outside: as many as one put of S3 may have (API Reference, "PutObject").
pub const MOST_EXTERNAL: u64 = 5_368_709_120;

/// The last number that a vault counts to: of its ids, its moves of buckets and the settings of one version.
const LAST_NUMBER: u32 = 1_000_000_000;

/// The last id.
pub const MOST_IDS: u32 = LAST_NUMBER;

/// The moves of buckets in one vault at most.
pub const MOST_MOVES: u32 = LAST_NUMBER;

/// The settings of one version at most.
pub const MOST_SETTINGS: u64 = LAST_NUMBER as u64;

/// The rules of one bucket at most.
pub const MOST_RULES: usize = 1_000;

/// The keys of one page: a run and a listing read a bucket's keys page by page.
pub const MOST_KEYS: u32 = 256;

/// The entries of one page of a listing at most, and of one for which no number is given.
pub const MOST_LISTED: u32 = 1_000;

/// The bytes of one line of a script at most, its LF not counted.
pub const LONGEST_LINE: usize = 4_194_304;

/// The bytes of a request's JSON body at most: as many as a script line that asks the same.
pub const LONGEST_BODY: usize = LONGEST_LINE;
