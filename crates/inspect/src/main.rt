// Prints what gossip messages say. Each line of standard input spells one in hexadecimal; blank lines and notes, which begin with `#`, are skipped.
#![tactic(auto)]

ghost use Rattle.std.specs.Prelude.{◌≡◌, ◌≢◌, slice_index};
ghost use Rattle.gossip.specs.Format.{decode};
ghost use Rattle.gossip.specs.Kinds.{lattice_of};
ghost use Rattle.inspect.specs.Kinds.{kind_of, nameless};
ghost use Rattle.gossip.specs.declared.kind.Kind.{Kind};

mod input;
mod line;
mod show;

use arrayvec::ArrayVec;
use gossip::{Kind, ROOM};
use input::Lines;
use line::Line;
use show::Shown;
use std::io;

fn main(rt: HostRuntime) -> io::Result<()> {
    run(&rt)
}

// Answers each line as soon as it is read, so that a pipe's other end need not wait.
fn run(rt: &HostRuntime) -> io::Result<()> {
    let mut lines = Lines::new(rt.alloc(), rt.stdin())?;
    let mut buffer = ArrayVec::new();
    for number in 1..u64::MAX {
        let Some(text) = lines.next()? else {
            break;
        };
        answer(rt, number, text, &mut buffer)?;
    }
    Ok(())
}

// Prints what the line of this number says, or what is wrong with it.
fn answer(
    rt: &impl Print,
    number: u64,
    text: &[u8],
    buffer: &mut ArrayVec<u8, ROOM>,
) -> io::Result<()> {
    match Line::read(text, buffer) {
        Ok(Line::Blank | Line::Note) => Ok(()),
        Ok(Line::Message) => answer_message(rt, buffer.as_slice()),
        Err(fault) => println!(rt; "line {number}: {fault}"),
    }
}

// Prints what a message says, or why it is refused.
fn answer_message(rt: &impl Print, bytes: &[u8]) -> io::Result<()> {
    let kind = kind_of(bytes);
    match kind.read(bytes) {
        Ok(gossip) => rt.println(Shown {
            kind,
            gossip: &gossip,
        }),
        Err(refusal) => println!(rt; "no {refusal}"),
    }
}

// The kind that a message's second byte names. A message that names none is taken for one of counts: read as a kind that it does not name, it is refused just as any reader would refuse it.
fn kind_of(bytes: &[u8]) -> Kind
    ensures answer { result ≡ kind_of bytes.now }
    ensures nameless { (k : Kind) → (slice_index bytes.now 1 ≢ (lattice_of k).number) → decode (lattice_of k) bytes.now ≡ nameless bytes.now }
{
    match bytes {
        [_, number, ..] => Kind::try_from(*number).unwrap_or(Kind::Counts),
        _ => Kind::Counts,
    }
}
