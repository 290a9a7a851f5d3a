//! What a run asks of its keeper over buckets of n keys that they are read in pages.
use std::alloc::Global;
use std::test::Fail;
use vault_core_model::keeper::Keeper;
use vault_transcript::fillings::{FILLINGS, Filling, fill, text_of};
use vault_transcript::noting_keeper::calls_of;
use vault_transcript::trial::{Trial, compare, try_after};

const RULES: &str = r#"
{"at":"2014-01-01T00:00:00Z","as":"ann","do":"set-rules","bucket":"docs","rules":[{"ID":"r1","Status":"Enabled","Expiration":{"Days":1}}]}
  {"ok":{}}
"#;

/// What a run asks of its keeper at the key of that number. After 256 keys it asks for more.
fn calls_at(alloc: Global, number: u32, change: &str) -> Result<String, Fail> {
    let key = text_of(alloc, number.saturating_add(1_000))?;
    let key = key.as_str();
    if number % 256 == 0 {
        let calls = [
            "entries k",
            key,
            "\n",
            change,
            "256 keys after k",
            key,
            "\n",
        ];
        return Ok(calls.concat(alloc)?);
    }
    let calls = ["entries k", key, "\n", change];
    Ok(calls.concat(alloc)?)
}

fn push_calls(alloc: Global, calls: &mut String, number: u32, change: &str) -> Result<(), Fail> {
    let at_key = calls_at(alloc, number, change)?;
    Ok(calls.push_str(at_key.as_str())?)
}

/// What a run asks of its keeper before the first key.
const FIRST_CALLS: &str = "last\ncaller ann\nbucket docs\nrules docs\n256 keys after \n";

/// What a run asks of its keeper over n keys, each with this change: at most 256 keys after the last
/// one seen, and at each key its entries before its change. A page of fewer keys is the last.
fn calls_wanted(alloc: Global, keys: u32, change: &str) -> Result<String, Fail> {
    let mut calls = String::from_str(alloc, FIRST_CALLS)?;
    for number in 1..=keys {
        push_calls(alloc, &mut calls, number, change)?;
    }
    Ok(calls)
}

fn compare_wanted(alloc: Global, keys: u32, change: &str, calls: &str) -> Result<(), Fail> {
    let wanted = calls_wanted(alloc, keys, change)?;
    compare("the calls", calls, wanted.as_str())
}

/// The calls over three keys, by the change at each.
const CALLS: [(&str, &str); 2] = [
    (
        "next id\nadmit\n",
        "last\n\
         caller ann\n\
         bucket docs\n\
         rules docs\n\
         256 keys after \n\
         entries k1001\n\
         next id\n\
         admit\n\
         entries k1002\n\
         next id\n\
         admit\n\
         entries k1003\n\
         next id\n\
         admit\n",
    ),
    (
        "remove\n",
        "last\n\
         caller ann\n\
         bucket docs\n\
         rules docs\n\
         256 keys after \n\
         entries k1001\n\
         remove\n\
         entries k1002\n\
         remove\n\
         entries k1003\n\
         remove\n",
    ),
];

/// Each key is read before it is changed.
#[test]
fn calls_over_three_keys(rt: HostRuntime) -> Result<(), Fail> {
    for (change, calls) in &CALLS {
        compare_wanted(rt.alloc(), 3, change, calls)?;
    }
    Ok(())
}

/// A run over n keys.
#[derive(Clone, Copy)]
struct Run<'a> {
    filling: &'a Filling,
    keys: u32,
    transcript: &'a str,
}

impl Trial for Run<'_> {
    fn carry_out<K: Keeper>(&self, alloc: Global, keeper: &mut K) -> Result<(), Fail> {
        fill(alloc, keeper, self.filling, self.keys)?;
        let calls = calls_of(alloc, keeper, self.transcript)?;
        compare_wanted(alloc, self.keys, self.filling.change, calls.as_str())
    }
}

/// By the filling and the number of keys. A page of 256 keys may have another after it; a 257th key is on a page of
/// its own; three pages are read of 600 keys. The last key seen is the place to go on from, also where it is gone.
const RUNS: [(usize, u32, &str); 6] = [
    (
        0,
        3,
        r#"
{"at":"2024-03-02T00:00:00Z","as":"ann","do":"run","bucket":"docs"}
  {"ok":{"changes":3,"lone":0,"marked":3,"removed":0}}
"#,
    ),
    (
        1,
        3,
        r#"
{"at":"2024-03-02T00:00:00Z","as":"ann","do":"run","bucket":"docs"}
  {"ok":{"changes":3,"lone":3,"marked":0,"removed":0}}
"#,
    ),
    (
        0,
        256,
        r#"
{"at":"2024-03-02T00:00:00Z","as":"ann","do":"run","bucket":"docs"}
  {"ok":{"changes":256,"lone":0,"marked":256,"removed":0}}
"#,
    ),
    (
        0,
        257,
        r#"
{"at":"2024-03-02T00:00:00Z","as":"ann","do":"run","bucket":"docs"}
  {"ok":{"changes":257,"lone":0,"marked":257,"removed":0}}
"#,
    ),
    (
        0,
        600,
        r#"
{"at":"2024-03-02T00:00:00Z","as":"ann","do":"run","bucket":"docs"}
  {"ok":{"changes":600,"lone":0,"marked":600,"removed":0}}
"#,
    ),
    (
        1,
        600,
        r#"
{"at":"2024-03-02T00:00:00Z","as":"ann","do":"run","bucket":"docs"}
  {"ok":{"changes":600,"lone":600,"marked":0,"removed":0}}
"#,
    ),
];

#[test]
fn a_run_asks_for_its_keys_in_pages(rt: HostRuntime) -> Result<(), Fail> {
    for (filling, keys, transcript) in &RUNS {
        let run = Run {
            filling: FILLINGS.get(*filling).ok_or("a filling")?,
            keys: *keys,
            transcript,
        };
        try_after(rt.alloc(), RULES, &run)?;
    }
    Ok(())
}
