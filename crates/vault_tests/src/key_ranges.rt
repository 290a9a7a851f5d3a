//! What runs and listings ask of their keeper where prefixes say which keys are meant: none is read before them, and
//! none between two of them.
use std::alloc::Global;
use std::test::Fail;
use vault_core_model::keeper::Keeper;
use vault_transcript::fillings::{FILLINGS, fill};
use vault_transcript::noting_keeper::calls_of;
use vault_transcript::trial::{Trial, compare, try_after};

/// The keys are `k1001` to `k1600`, each with one version.
const KEYS: u32 = 600;

/// Lines before the keys are there, lines that are watched, and what they ask of their keeper.
struct Asked {
    before: &'static str,
    transcript: &'static str,
    calls: &'static str,
}

impl Trial for Asked {
    fn carry_out<K: Keeper>(&self, alloc: Global, keeper: &mut K) -> Result<(), Fail> {
        let filling = FILLINGS.first().ok_or("a filling")?;
        fill(alloc, keeper, filling, KEYS)?;
        let calls = calls_of(alloc, keeper, self.transcript)?;
        compare("the calls", calls.as_str(), self.calls)
    }
}

fn try_each(alloc: Global, rows: &[Asked]) -> Result<(), Fail> {
    for row in rows {
        try_after(alloc, row.before, row)?;
    }
    Ok(())
}

/// Of the keys before a prefix nothing is read, nor of those between two; a prefix may be a key itself. A key in two
/// ranges is read once. A rule that is disabled reaches no key.
const RUNS: [Asked; 4] = [
    Asked {
        before: r#"
{"at":"2014-01-01T00:00:00Z","as":"ann","do":"set-rules","bucket":"docs","rules":[{"ID":"r1","Status":"Enabled","Prefix":"z","Expiration":{"Days":1}}]}
  {"ok":{}}
"#,
        transcript: r#"
{"at":"2024-03-02T00:00:00Z","as":"ann","do":"run","bucket":"docs"}
  {"ok":{"changes":0,"lone":0,"marked":0,"removed":0}}
"#,
        calls: "last\ncaller ann\nbucket docs\nrules docs\nentries z\n256 keys after z\n",
    },
    Asked {
        before: r#"
{"at":"2014-01-01T00:00:00Z","as":"ann","do":"set-rules","bucket":"docs","rules":[{"ID":"r1","Status":"Enabled","Prefix":"k160","Expiration":{"Days":1}},{"ID":"r2","Status":"Enabled","Prefix":"a","Expiration":{"Days":1}},{"ID":"r3","Status":"Enabled","Prefix":"k1300","Expiration":{"Days":1}},{"ID":"r4","Status":"Disabled","Prefix":"k1400","Expiration":{"Days":1}}]}
  {"ok":{}}
"#,
        transcript: r#"
{"at":"2024-03-02T00:00:00Z","as":"ann","do":"run","bucket":"docs"}
  {"ok":{"changes":2,"lone":0,"marked":2,"removed":0}}
"#,
        calls: "last\ncaller ann\nbucket docs\nrules docs\n\
                entries a\n256 keys after a\n\
                entries k1300\nnext id\nadmit\n256 keys after k1300\n\
                entries k160\n256 keys after k160\n\
                entries k1600\nnext id\nadmit\n",
    },
    Asked {
        before: r#"
{"at":"2014-01-01T00:00:00Z","as":"ann","do":"set-rules","bucket":"docs","rules":[{"ID":"r1","Status":"Enabled","Prefix":"k1303","Expiration":{"Days":1}},{"ID":"r2","Status":"Enabled","Prefix":"k130","Expiration":{"Days":1},"ObjectSizeLessThan":1},{"ID":"r3","Status":"Enabled","Prefix":"k1305","Expiration":{"Days":1}}]}
  {"ok":{}}
"#,
        transcript: r#"
{"at":"2024-03-02T00:00:00Z","as":"ann","do":"run","bucket":"docs"}
  {"ok":{"changes":2,"lone":0,"marked":2,"removed":0}}
"#,
        calls: "last\ncaller ann\nbucket docs\nrules docs\n\
                entries k130\n256 keys after k130\n\
                entries k1300\nentries k1301\nentries k1302\nentries k1303\nnext id\nadmit\n\
                entries k1304\nentries k1305\nnext id\nadmit\nentries k1306\nentries k1307\n\
                entries k1308\nentries k1309\n",
    },
    Asked {
        before: r#"
{"at":"2014-01-01T00:00:00Z","as":"ann","do":"set-rules","bucket":"docs","rules":[{"ID":"r1","Status":"Disabled","Expiration":{"Days":1}}]}
  {"ok":{}}
"#,
        transcript: r#"
{"at":"2024-03-02T00:00:00Z","as":"ann","do":"run","bucket":"docs"}
  {"ok":{"changes":0,"lone":0,"marked":0,"removed":0}}
"#,
        calls: "last\ncaller ann\nbucket docs\nrules docs\n",
    },
];

#[test]
fn a_run_reads_the_keys_of_its_prefixes(rt: HostRuntime) -> Result<(), Fail> {
    try_each(rt.alloc(), &RUNS)
}

/// A listing begins at its prefix, or at the key after which it is to begin, where that comes later; it ends after its
/// prefix. So one entry by the last key of many takes as many reads as one by the first.
const LISTINGS: [Asked; 6] = [
    Asked {
        before: "",
        transcript: r#"
{"at":"2024-03-02T00:00:00Z","as":"ann","do":"list-versions","bucket":"docs","prefix":"k1001","most":1}
  {"ok":{"entries":[{"admitted":"2024-03-01T00:00:00Z","current":true,"delete_marker":false,"key":"k1001","size":1,"version_id":1}],"more":false}}
"#,
        calls: "last\ncaller ann\nbucket docs\n2 ids of k1001\nentry\n256 keys after k1001\n",
    },
    Asked {
        before: "",
        transcript: r#"
{"at":"2024-03-02T00:00:00Z","as":"ann","do":"list-versions","bucket":"docs","prefix":"k1600","most":1}
  {"ok":{"entries":[{"admitted":"2024-03-01T00:00:00Z","current":true,"delete_marker":false,"key":"k1600","size":1,"version_id":600}],"more":false}}
"#,
        calls: "last\ncaller ann\nbucket docs\n2 ids of k1600\nentry\n256 keys after k1600\n",
    },
    Asked {
        before: "",
        transcript: r#"
{"at":"2024-03-02T00:00:00Z","as":"ann","do":"list-versions","bucket":"docs","prefix":"k15","most":1}
  {"ok":{"entries":[{"admitted":"2024-03-01T00:00:00Z","current":true,"delete_marker":false,"key":"k1500","size":1,"version_id":500}],"more":true}}
"#,
        calls: "last\ncaller ann\nbucket docs\n\
                2 ids of k15\n256 keys after k15\n2 ids of k1500\nentry\n1 ids of k1501\n",
    },
    Asked {
        before: "",
        transcript: r#"
{"at":"2024-03-02T00:00:00Z","as":"ann","do":"list-versions","bucket":"docs","prefix":"k1500","after_key":"k1499","after_id":499}
  {"ok":{"entries":[{"admitted":"2024-03-01T00:00:00Z","current":true,"delete_marker":false,"key":"k1500","size":1,"version_id":500}],"more":false}}
"#,
        calls: "last\ncaller ann\nbucket docs\n1001 ids of k1500\nentry\n256 keys after k1500\n",
    },
    Asked {
        before: "",
        transcript: r#"
{"at":"2024-03-02T00:00:00Z","as":"ann","do":"list-versions","bucket":"docs","prefix":"k15","after_key":"k1550","most":1}
  {"ok":{"entries":[{"admitted":"2024-03-01T00:00:00Z","current":true,"delete_marker":false,"key":"k1551","size":1,"version_id":551}],"more":true}}
"#,
        calls: "last\ncaller ann\nbucket docs\n256 keys after k1550\n2 ids of k1551\nentry\n1 ids of k1552\n",
    },
    Asked {
        before: "",
        transcript: r#"
{"at":"2024-03-02T00:00:00Z","as":"ann","do":"list-versions","bucket":"docs","prefix":"z"}
  {"ok":{"entries":[],"more":false}}
"#,
        calls: "last\ncaller ann\nbucket docs\n1001 ids of z\n256 keys after z\n",
    },
];

#[test]
fn a_listing_begins_at_its_prefix(rt: HostRuntime) -> Result<(), Fail> {
    try_each(rt.alloc(), &LISTINGS)
}
