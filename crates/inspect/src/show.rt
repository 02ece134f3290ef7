// A message as text.
ghost use Rattle.std.specs.Prelude.{Some};
ghost use Rattle.gossip.specs.Kinds.{lattice_of};
ghost use Rattle.inspect.specs.Texts.{spaced, head_text, entry_text, entries_text, message_text};

use gossip::{Entry, Gossip, Head, Kind, State};
use std::fmt;

// A message of a kind: a line on its head, and a line on each of its entries.
#[derive(Drop)]
pub struct Shown<'a> {
    pub kind: Kind,
    pub gossip: &'a Gossip,
}

impl fmt::Display for Shown<'_> {
    ghost output = { λ x. Some (message_text (lattice_of x.kind).number x.gossip.now) };

    fn fmt<W: fmt::Write>(&self, f: &mut fmt::Formatter<W>) -> fmt::Result {
        let head = self.gossip.head();
        let list = self.gossip.entries();
        let start = Start {
            kind: self.kind,
            head: &head,
        };
        let count = list.len();
        let entries = Entries { n: head.n, list };
        write!(f, "{start} entries {count}{entries}")
    }
}

// The head of a message of a kind.
#[derive(Drop)]
struct Start<'a> {
    kind: Kind,
    head: &'a Head,
}

impl fmt::Display for Start<'_> {
    ghost output = { λ x. Some (head_text (lattice_of x.kind).number x.head.now) };

    fn fmt<W: fmt::Write>(&self, f: &mut fmt::Formatter<W>) -> fmt::Result {
        let kind = self.kind.number();
        let Head {
            n,
            sender,
            group,
            clock,
            timestamp,
        } = self.head;
        let parts = Parts(timestamp.prefix(*n));
        write!(
            f,
            "gossip kind {kind} n {n} sender {sender} group {group} clock {clock} timestamp {parts}"
        )
    }
}

// The entries of a message among n replicas, each behind a line end.
#[derive(Drop)]
struct Entries<'a> {
    n: usize,
    list: &'a [Entry],
}

impl fmt::Display for Entries<'_> {
    ghost output = { λ x. Some (entries_text x.n x.list.now) };

    fn fmt<W: fmt::Write>(&self, f: &mut fmt::Formatter<W>) -> fmt::Result {
        let n = self.n;
        for entry in self.list {
            let line = EntryLine { n, entry };
            write!(f, "\n{line}")?;
        }
        Ok(())
    }
}

// An entry of a message among n replicas.
#[derive(Drop)]
struct EntryLine<'a> {
    n: usize,
    entry: &'a Entry,
}

impl fmt::Display for EntryLine<'_> {
    ghost output = { λ x. Some (entry_text x.n x.entry.now) };

    fn fmt<W: fmt::Write>(&self, f: &mut fmt::Formatter<W>) -> fmt::Result {
        let Entry { seat, state } = self.entry;
        match state {
            State::Value(value) => write!(f, "seat {seat} value {value}"),
            State::Tombstone { time, timestamp } => {
                let parts = Parts(timestamp.prefix(self.n));
                write!(f, "seat {seat} deleted {time} timestamp {parts}")
            }
        }
    }
}

// The parts of a timestamp, with a space between each two.
#[derive(Drop)]
struct Parts<'a>(&'a [u32]);

impl fmt::Display for Parts<'_> {
    ghost output = { λ x. Some (spaced x.0.now) };

    fn fmt<W: fmt::Write>(&self, f: &mut fmt::Formatter<W>) -> fmt::Result {
        let [first, rest @ ..] = self.0 else {
            return Ok(());
        };
        write!(f, "{first}")?;
        for part in rest {
            write!(f, " {part}")?;
        }
        Ok(())
    }
}
