// Lines of input, read in blocks. Of a long line no more is kept than decides what it is.
ghost use Rattle.std.specs.Prelude.{◌≡◌, ◌++◌, ◌<◌, ◌==◌, [], length, take, IfOk, IfErr, IfSome};
ghost use Rattle.std.specs.Io.Buffered.{reader_inner};
ghost use Rattle.std.specs.IoError.{error_kind};
ghost use Rattle.std.specs.List.{position};
ghost use Rattle.std.specs.declared.io.ErrorKind.TheVariants.{OutOfMemory};

use crate::line::KEPT;
use arrayvec::ArrayVec;
use std::alloc::Global;
use std::io;
use std::io::{BufRead, BufReader, Read};

const LINE_END: u8 = b'\n';

// Input, and what is kept of the line that was read last.
#[derive(Drop)]
pub struct Lines<R> {
    reader: BufReader<R>,
    kept: ArrayVec<u8, KEPT>,
}

impl<R: Read> Lines<R> {
    // The lines of an input, before the first. It fails where there is no memory to read ahead, and then drops the input.
    pub(crate) fn new(alloc: Global, input: R) -> io::Result<Lines<R>>
    where
        R: Drop,
        ensures input { IfOk result (λ lines. reader_inner lines.reader ≡ input) }
        ensures err { IfErr result (λ e. error_kind e ≡ OutOfMemory) }
    {
        Ok(Lines {
            reader: BufReader::new(alloc, input)?,
            kept: ArrayVec::new(),
        })
    }

    // The next line without its line end, cut to what is kept of it; or none at the end of the input.
    pub(crate) fn next(&mut self) -> io::Result<Option<&[u8]>> {
        self.kept.clear();
        if self.reader.fill_buf()?.is_empty() {
            return Ok(None);
        }
        self.read_line()?;
        Ok(Some(self.kept.as_slice()))
    }

    // Reads on as far as the next line end, or the end of the input.
    fn read_line(&mut self) -> io::Result<()> {
        for _ in 0..u64::MAX {
            let block = self.reader.fill_buf()?;
            if block.is_empty() {
                break;
            }
            match line_end(block) {
                Some(end) => {
                    append(&mut self.kept, &block[..end]);
                    self.reader.consume(end + 1);
                    break;
                }
                None => {
                    let len = block.len();
                    append(&mut self.kept, block);
                    self.reader.consume(len);
                }
            }
        }
        Ok(())
    }
}

// Where the first line end stands among the bytes, if there is one.
fn line_end(bytes: &[u8]) -> Option<usize>
    ensures answer { result ≡ position (λ b. b == 10) bytes.now }
    ensures within { IfSome result (λ end. end < length bytes.now) }
{
    bytes.iter().position(|b| *b == LINE_END)
}

// Puts bytes behind those that are kept, as far as there is room.
fn append(kept: &mut ArrayVec<u8, KEPT>, bytes: &[u8])
    ensures { kept.new.items ≡ take 6642 (kept.old.items ++ bytes.now) }
{
    let more = bytes.len().min(kept.remaining_capacity());
    kept.try_extend_from_slice(&bytes[..more]).unwrap();
}
