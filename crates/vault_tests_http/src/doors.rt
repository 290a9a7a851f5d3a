//! Who hears of the commands of a server with two doors, and when.
ghost use Rattle.std.specs.Prelude.{◌≡◌, nat_lt, None};

use crate::known_peer::{KnownPeer, StillClock, Taken};
use std::alloc::Global;
use std::cell::Cell;
use std::io;
use std::test::Fail;
use vault_base::moment::Moment;
use vault_base::name::CallerName;
use vault_core::hearing::Hears;
use vault_core_model::command::Command;
use vault_core_model::keeper::Keeper;
use vault_core_model::reply::Reply;
use vault_http::Hosts;
use vault_transcript::transcript::opened;
use vaultctl_log::entry::Entry;
use vaultctl_serve_lines::doors::{Arrived, Doors};
use vaultctl_serve_lines::heard::Heard;
use vaultctl_serve_lines::line::Next;
use vaultctl_serve_lines::service::Service;
use vaultctl_serve_lines::{Server, serve_doors};

/// 2024-01-15T10:30:00Z.
const READING: i64 = 1_705_314_600;

/// What comes in a turn.
#[derive(Clone, Copy)]
enum Coming {
    Request(&'static str),
    Line(&'static str),
}

/// Two doors by which these come in.
#[derive(Drop)]
struct KnownDoors<'a> {
    alloc: Global,
    turns: &'a [Coming],
    taken: &'a Taken,
    hosts: &'a Hosts,
}

impl<'a> KnownDoors<'a> {
    fn peer(&self, sent: &'static str) -> KnownPeer<'a> {
        KnownPeer {
            sent: Cell::new(sent.as_bytes()),
            taken: self.taken,
        }
    }

    fn line(&self, line: &str) -> Arrived<KnownPeer<'a>, KnownPeer<'a>> {
        match Vec::from_slice(self.alloc, line.as_bytes()) {
            Ok(bytes) => Arrived::Line(
                Heard {
                    bytes,
                    is_ended: true,
                },
                self.peer(""),
            ),
            Err(_) => Arrived::Nothing,
        }
    }
}

impl<'a> Doors for KnownDoors<'a> {
    type Request = KnownPeer<'a>;

    type Talker = KnownPeer<'a>;

    ghost tries = { λ _. None };

    ghost shown = { λ _. None };

    ghost silent = { λ _ _. Unit {0} };

    fn next(&mut self) -> Arrived<KnownPeer<'a>, KnownPeer<'a>> {
        let Some((first, later)) = self.turns.split_first() else {
            return Arrived::Nothing;
        };
        self.turns = later;
        match *first {
            Coming::Request(request) => Arrived::Request(self.peer(request)),
            Coming::Line(line) => self.line(line),
        }
    }

    fn reading(&self) -> i64 {
        READING
    }

    fn hosts(&self) -> &Hosts {
        self.hosts
    }

    ghost logs = { λ _ _ _ _ _ _. Unit {0} };

    fn log(&mut self, _entry: &Entry<'_>) -> io::Result<()> {
        Ok(())
    }

    fn keep(&mut self, _talker: KnownPeer<'a>) {}
}

/// What is noted of a command that is heard of.
const HEARD: &str = "heard\n";

/// Who hears of up to `most` commands, notes each among what clients take, and then lets no more be carried out.
#[derive(Drop)]
struct Noting<'a> {
    taken: &'a Taken,
    most: u32,
    heard: u32,
}

impl Hears for Noting<'_> {
    ghost hears = { λ before _ _ after. after.most ≡ before.most };

    ghost going = { λ it. nat_lt it.heard it.most };

    fn hear(
        &mut self,
        _alloc: Global,
        _at: Moment,
        _who: &CallerName,
        _command: &Command,
        _reply: &Reply,
    ) {
        self.heard = self.heard.saturating_add(1);
        let _ = self.taken.push(HEARD.as_bytes());
    }

    fn goes_on(&self) -> bool {
        self.heard < self.most
    }
}

/// Serves these turns, up to two commands: how the server ended, how many turns were left, and what clients took.
fn serve<K: Keeper>(
    alloc: Global,
    keeper: &mut K,
    turns: &[Coming],
) -> Result<(Next, usize, String), Fail> {
    let taken = Taken::new(alloc);
    let hosts = Hosts::any(alloc);
    let mut hears = Noting {
        taken: &taken,
        most: 2,
        heard: 0,
    };
    let mut doors = KnownDoors {
        alloc,
        turns,
        taken: &taken,
        hosts: &hosts,
    };
    let service = Service {
        alloc,
        version: "1.2 (schema 3)",
        since: Moment::from_secs(READING),
    };
    let server = Server {
        clock: &StillClock,
        service: &service,
    };
    let mut reports = Vec::new(alloc);
    let next = serve_doors(&server, &mut doors, keeper, &mut hears, 5, &mut reports);
    let left = doors.turns.len();
    Ok((next, left, String::from_utf8(taken.take())?))
}

const TURNS: [Coming; 5] = [
    Coming::Line(r#"{"as":"ann","do":"put","bucket":"docs","key":"a","text":"hello"}"#),
    Coming::Line("{\"a"),
    Coming::Line(r#"{"as":"ann","do":"status"}"#),
    Coming::Request("GET /docs/a HTTP/1.1\r\nx-vault-caller: ann\r\n\r\n"),
    Coming::Line(r#"{"as":"ann","do":"put","bucket":"docs","key":"b","text":"hello"}"#),
];

const TAKEN: &str = concat!(
    "heard\n",
    "{\"ok\":{\"version_id\":1}}\n",
    "{\"error\":{\"code\":\"MalformedBody\",\"n\":12}}\n",
    "{\"error\":{\"code\":\"AccessDenied\",\"n\":3,\"reason\":\"right:admin\"}}\n",
    "heard\n",
    "HTTP/1.1 200 OK\r\ndate: Mon, 15 Jan 2024 10:30:00 GMT\r\nconnection: close\r\ncontent-type: application/octet-stream\r\ncontent-length: 5\r\nx-amz-version-id: 1\r\nx-amz-object-lock-legal-hold: OFF\r\n\r\nhello",
);

/// Commands of both doors are heard of, each before its client takes anything of the reply or the answer; nothing else is
/// heard of. After as many as who hears lets be carried out, none is.
#[test]
fn who_hears_is_first_and_ends_it(rt: HostRuntime) -> Result<(), Fail> {
    let mut keeper = opened(rt.alloc())?;
    let (next, left, taken) = serve(rt.alloc(), &mut keeper, &TURNS)?;
    assert!(rt; next == Next::On);
    assert_eq!(rt; left, 1);
    assert_eq!(rt; taken.as_str(), TAKEN);
    Ok(())
}
