// A line of input: what it is, and the bytes that its hexadecimal digits spell.
ghost use Rattle.std.specs.Prelude.{◌≡◌, ◌<◌, ◌≤◌, true, [], length, Some};
ghost use Rattle.std.specs.Char.{is_ascii_hexdigit};
ghost use Rattle.std.specs.List.{list_all};
ghost use Rattle.gossip.specs.Refusals.{outcome};
ghost use Rattle.inspect.specs.Hex.{digit, pairs};
ghost use Rattle.inspect.specs.Lines.{trimmed, spelled, found, line_of, bytes_of, Decisive, cause};

use arrayvec::ArrayVec;
use gossip::ROOM;
use std::fmt;

// What a line is that can be read. The bytes of a message stand in the caller's buffer.
#[derive(Clone, Copy, PartialEq, Eq, Debug)]
pub enum Line {
    Blank,
    Note,
    Message,
}

// What is wrong with a line that cannot be read.
#[derive(Clone, Copy, PartialEq, Eq, Debug)]
pub enum Fault {
    // It has more digits than there is room for.
    Long,
    // One of its characters is no hexadecimal digit.
    NotHex,
    // Its last byte has one digit.
    Odd,
}

impl Fault {
    // Its cause in words.
    fn cause(self) -> &'static str
        ensures { result.now ≡ cause self }
    {
        match self {
            Fault::Long => "more than 3320 bytes",
            Fault::NotHex => "not hexadecimal",
            Fault::Odd => "an odd number of digits",
        }
    }
}

// A fault prints as its cause.
impl fmt::Display for Fault {
    ghost output = { λ fault. Some (cause fault) };

    fn fmt<W: fmt::Write>(&self, f: &mut fmt::Formatter<W>) -> fmt::Result {
        f.write_str(self.cause())
    }
}

// The most digits of a message: two for each of its bytes.
const MOST_DIGITS: usize = 2 * ROOM;

// What of a long line is enough to read it as the whole: one more than the most digits, and a carriage return.
pub const KEPT: usize = MOST_DIGITS + 2;

// The first byte of a note, and the byte that may stand before a line end.
const NOTE: u8 = b'#';

const RETURN: u8 = b'\r';

impl Line {
    // What a line without its line end is, also where no more than `KEPT` bytes of it are left.
    // The buffer holds the bytes of a message then, and none at any other line.
    pub fn read(text: &[u8], buffer: &mut ArrayVec<u8, ROOM>) -> Result<Line, Fault>
        ensures answer { result ≡ line_of text.now }
        ensures buffer { buffer.new.items ≡ bytes_of text.now }
        ensures cut { Decisive text.now }
    {
        buffer.clear();
        match without_return(text) {
            [] => Ok(Line::Blank),
            [NOTE, ..] => Ok(Line::Note),
            digits => {
                read_hex(digits, buffer)?;
                Ok(Line::Message)
            }
        }
    }
}

// The line without a carriage return at its end.
fn without_return(text: &[u8]) -> &[u8]
    ensures { result.now ≡ trimmed text.now }
{
    match text {
        [front @ .., RETURN] => front,
        _ => text,
    }
}

// Puts the bytes that digits spell into an empty buffer, or says what is wrong with them first and puts none there.
fn read_hex(digits: &[u8], buffer: &mut ArrayVec<u8, ROOM>) -> Result<(), Fault>
    requires { buffer.old.items ≡ [] }
    ensures answer { result ≡ outcome (λ _. tt) (spelled digits.now) }
    ensures buffer { buffer.new.items ≡ found (spelled digits.now) }
{
    if digits.len() > MOST_DIGITS {
        return Err(Fault::Long);
    }
    if !are_digits(digits) {
        return Err(Fault::NotHex);
    }
    if digits.len() % 2 != 0 {
        return Err(Fault::Odd);
    }
    put_bytes(digits, buffer);
    Ok(())
}

// Whether each character is a hexadecimal digit, of either case.
fn are_digits(text: &[u8]) -> bool
    ensures { result ≡ list_all is_ascii_hexdigit text.now }
{
    text.iter().all(|c| c.is_ascii_hexdigit())
}

// Puts the bytes that pairs of digits spell into an empty buffer.
fn put_bytes(digits: &[u8], bytes: &mut ArrayVec<u8, ROOM>)
    requires empty { bytes.old.items ≡ [] }
    requires digits { list_all is_ascii_hexdigit digits.now ≡ true }
    requires room { length digits.now ≤ 6640 }
    ensures { bytes.new.items ≡ pairs digits.now }
{
    for pair in digits.chunks_exact(2) {
        bytes.push(16 * value(pair[0]) + value(pair[1]));
    }
}

// The value of a digit.
fn value(c: u8) -> u8
    requires { is_ascii_hexdigit c ≡ true }
    ensures value { Some result ≡ digit c }
    ensures small { result < 16 }
{
    char::from(c).to_digit(16).unwrap() as u8
}
