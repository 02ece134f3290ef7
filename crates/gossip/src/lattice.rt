// Kinds of values: what a seat's value can be, and how two of them join.
ghost use Rattle.std.specs.Prelude.{◌≡◌};
ghost use Rattle.gossip.specs.Lattices.{Kind, Laws, counts, ports};
ghost use Rattle.gossip.specs.KindLaws.{counts_laws, ports_laws};

// A kind of values. Each `impl` owes the laws of a join semilattice.
pub trait Lattice {
    ghost kind: { Kind };

    // The kind's number in messages.
    fn number() -> u8
        ensures answer { result ≡ kind.number };

    // Whether a code is a value of the kind.
    fn is_value(code: u64) -> bool
        ensures answer { result ≡ kind.valid code };

    // The join of two values.
    fn join(a: u64, b: u64) -> u64
        ensures answer { result ≡ kind.join a b };

    ghost lawful: { Laws kind };
}

// The numbers of the two kinds in messages.
pub(crate) const COUNTS: u8 = 1;

pub(crate) const PORTS: u8 = 2;

// The largest count, and the largest set of ports.
const MOST_COUNT: u64 = 4_294_967_295;

const ALL_PORTS: u64 = 65_535;

// Counts, joined to the larger.
#[derive(Clone, Copy)]
pub struct Counts;

impl Lattice for Counts {
    ghost kind = { counts };

    ghost lawful = { counts_laws };

    fn number() -> u8 {
        COUNTS
    }

    fn is_value(code: u64) -> bool {
        code <= MOST_COUNT
    }

    fn join(a: u64, b: u64) -> u64 {
        a.max(b)
    }
}

// Sets of ports, one bit a port, joined to the union.
#[derive(Clone, Copy)]
pub struct Ports;

impl Lattice for Ports {
    ghost kind = { ports };

    ghost lawful = { ports_laws };

    fn number() -> u8 {
        PORTS
    }

    fn is_value(code: u64) -> bool {
        code <= ALL_PORTS
    }

    fn join(a: u64, b: u64) -> u64 {
        a | b
    }
}
