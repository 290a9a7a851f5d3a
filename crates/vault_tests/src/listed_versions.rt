//! What a listing asks of its keeper of a key with n versions: the ids of what it shows and one more, however
//! many are held.
use std::alloc::Global;
use std::test::Fail;
use vault_core_model::keeper::Keeper;
use vault_transcript::noting_keeper::calls_of;
use vault_transcript::transcript::play;
use vault_transcript::trial::{Trial, compare, try_on_new};

/// How many versions the key `v` has, with the ids from 1, a listing of it, and what that asks of its keeper.
struct Listing {
    versions: u32,
    transcript: &'static str,
    calls: &'static str,
}

fn put_version<K: Keeper>(alloc: Global, keeper: &mut K, id: u32) -> Result<(), Fail> {
    let id = format!(in alloc; "{id}")?;
    let pieces = [
        "{\"at\":\"2024-03-01T00:00:00Z\",\"as\":\"ann\",\"do\":\"put\",\"bucket\":\"docs\",\"key\":\"v\",\"text\":\"x\"}\n  {\"ok\":{\"version_id\":",
        id.as_str(),
        "}}\n",
    ];
    let lines = pieces.concat(alloc)?;
    play(alloc, keeper, lines.as_str())
}

impl Trial for Listing {
    fn carry_out<K: Keeper>(&self, alloc: Global, keeper: &mut K) -> Result<(), Fail> {
        for id in 1..=self.versions {
            put_version(alloc, keeper, id)?;
        }
        let calls = calls_of(alloc, keeper, self.transcript)?;
        compare("the calls", calls.as_str(), self.calls)
    }
}

/// One entry takes two ids and one entry, of ten versions as of n. Below an id nothing is read but the newest of all,
/// which is current; where no entry is older, not even that.
const LISTINGS: [Listing; 6] = [
    Listing {
        versions: 10,
        transcript: r#"
{"at":"2024-03-02T00:00:00Z","as":"ann","do":"list-versions","bucket":"docs","prefix":"v","most":1}
  {"ok":{"entries":[{"admitted":"2024-03-01T00:00:00Z","current":true,"delete_marker":false,"key":"v","size":1,"version_id":10}],"more":true}}
"#,
        calls: "last\ncaller ann\nbucket docs\n2 ids of v\nentry\n",
    },
    Listing {
        versions: 600,
        transcript: r#"
{"at":"2024-03-02T00:00:00Z","as":"ann","do":"list-versions","bucket":"docs","prefix":"v","most":1}
  {"ok":{"entries":[{"admitted":"2024-03-01T00:00:00Z","current":true,"delete_marker":false,"key":"v","size":1,"version_id":600}],"more":true}}
"#,
        calls: "last\ncaller ann\nbucket docs\n2 ids of v\nentry\n",
    },
    Listing {
        versions: 600,
        transcript: r#"
{"at":"2024-03-02T00:00:00Z","as":"ann","do":"list-versions","bucket":"docs","after_key":"v","after_id":300,"most":1}
  {"ok":{"entries":[{"admitted":"2024-03-01T00:00:00Z","current":false,"delete_marker":false,"key":"v","size":1,"version_id":299}],"more":true}}
"#,
        calls: "last\ncaller ann\nbucket docs\n2 ids of v older than 300\n1 ids of v\nentry\n",
    },
    Listing {
        versions: 10,
        transcript: r#"
{"at":"2024-03-02T00:00:00Z","as":"ann","do":"list-versions","bucket":"docs","after_key":"v","after_id":11,"most":1}
  {"ok":{"entries":[{"admitted":"2024-03-01T00:00:00Z","current":true,"delete_marker":false,"key":"v","size":1,"version_id":10}],"more":true}}
"#,
        calls: "last\ncaller ann\nbucket docs\n2 ids of v older than 11\n1 ids of v\nentry\n",
    },
    Listing {
        versions: 10,
        transcript: r#"
{"at":"2024-03-02T00:00:00Z","as":"ann","do":"list-versions","bucket":"docs","after_key":"v","after_id":3,"most":2}
  {"ok":{"entries":[{"admitted":"2024-03-01T00:00:00Z","current":false,"delete_marker":false,"key":"v","size":1,"version_id":2},{"admitted":"2024-03-01T00:00:00Z","current":false,"delete_marker":false,"key":"v","size":1,"version_id":1}],"more":false}}
"#,
        calls: "last\ncaller ann\nbucket docs\n3 ids of v older than 3\n1 ids of v\nentry\nentry\n256 keys after v\n",
    },
    Listing {
        versions: 10,
        transcript: r#"
{"at":"2024-03-02T00:00:00Z","as":"ann","do":"list-versions","bucket":"docs","after_key":"v","after_id":1,"most":1}
  {"ok":{"entries":[],"more":false}}
"#,
        calls: "last\ncaller ann\nbucket docs\n2 ids of v older than 1\n256 keys after v\n",
    },
];

fn try_each(alloc: Global, listings: &[Listing]) -> Result<(), Fail> {
    for listing in listings {
        try_on_new(alloc, listing)?;
    }
    Ok(())
}

#[test]
fn a_listing_reads_of_a_key_what_it_shows(rt: HostRuntime) -> Result<(), Fail> {
    try_each(rt.alloc(), &LISTINGS)
}
