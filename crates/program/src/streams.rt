// Standard input and standard output. What a run takes and gives is said of a reader and a writer that tell their bytes (`serve`); no
// contract can say what the system's streams take or give. What the write is handed is pinned by what it requires. A call that moves less
// than it was asked to is followed by another, and one that fails is said on standard error.
ghost use Rattle.std.specs.Prelude.{◌≡◌, ◌≤◌, length, take, IfOk, IfSome};
ghost use Rattle.std.specs.Io.{ReadsAtMost, WritesAtMost};
ghost use Rattle.std.specs.Io.KnownBytes.{ReadConsumes, WriteAppends};
ghost use Rattle.program.specs.Output.{output_of, output_room};
ghost use Rattle.program.specs.Running.{Within, input_room};
ghost use Rattle.program.specs.Internal.Serving.{Writes, Serves};

use crate::{OUTPUT_ROOM, put_output};
use std::io;
use std::io::{Error, ErrorKind, Read, Write};

// One byte more than an input may have, so that a longer one is seen.
const INPUT_ROOM: usize = opening::MOST_BYTES + 1;

// Why a run is not whole.
#[derive(Clone, Copy)]
pub(crate) enum ServeError {
    // A read failed.
    Unread(Error),
    // So many bytes were read, and a write failed or took nothing.
    Unwritten(usize, Error),
}

// One read, made again where a signal interrupted it: for ever, as far as anyone can tell.
fn read_some<R: Read>(reader: &mut R, buf: &mut [u8]) -> io::Result<usize>
    ensures bound { ReadsAtMost result buf.new }
    ensures bytes { ReadConsumes (R.remaining reader.old) (R.remaining reader.new) result buf.new }
{
    for _ in 0..u64::MAX {
        match reader.read(buf) {
            Err(e) if e.kind() == ErrorKind::Interrupted => {}
            got => return got,
        }
    }
    reader.read(buf)
}

// One write, made again where a signal interrupted it.
fn write_some<W: Write>(writer: &mut W, bytes: &[u8]) -> io::Result<usize>
    ensures bound { WritesAtMost result bytes.now }
    ensures bytes { WriteAppends (W.contents writer.old) (W.contents writer.new) result bytes.now }
{
    for _ in 0..u64::MAX {
        match writer.write(bytes) {
            Err(e) if e.kind() == ErrorKind::Interrupted => {}
            put => return put,
        }
    }
    writer.write(bytes)
}

// Reads until the input ends or buf is full. Not by std: `read_exact` refuses an input that is shorter than buf, `read_to_end` wants a Vec. No `for`
// here and below: each turn moves as many bytes as the call did.
fn read_input<R: Read>(reader: &mut R, buf: &mut [u8]) -> io::Result<usize>
    ensures within { IfOk result (λ n. n ≤ length buf.new) }
    ensures bytes { IfOk result (λ n. IfSome (R.remaining reader.old) (λ s. take n buf.new ≡ take (length buf.new) s)) }
{
    let mut n: usize = 0;
    while n < buf.len() {
        let more = read_some(reader, &mut buf[n..])?;
        if more == 0 {
            break;
        }
        n += more;
    }
    Ok(n)
}

// Writes the output for this input. A write that fails or takes nothing is the last. Not `write_all`: it says nothing of a write that failed half
// way, which `Writes` does.
fn write_output<W: Write>(writer: &mut W, input: &[u8], output: &[u8]) -> io::Result<()>
    requires { output.now ≡ output_of input.now }
    ensures { Writes (W.contents writer.old) (W.contents writer.new) (output_of input.now) result }
{
    let mut done: usize = 0;
    while done < output.len() {
        let more = write_some(writer, &output[done..])?;
        if more == 0 {
            return Err(Error::new(ErrorKind::WriteZero, "Nothing taken"));
        }
        done += more;
    }
    Ok(())
}

// Lays out the output for this input in `room`, which every output fits into, and writes it.
fn write_lot<W: Write>(writer: &mut W, input: &[u8], room: &mut [u8]) -> io::Result<()>
    requires { output_room ≤ length room.old }
    ensures { Writes (W.contents writer.old) (W.contents writer.new) (output_of input.now) result }
{
    let end = put_output(input, room);
    write_output(writer, input, &room[..end])
}

// Reads an input into one lent buffer, lays out its output in the other, and writes that; answers how many bytes were read. Where a read
// failed nothing is written.
pub(crate) fn serve<R: Read, W: Write>(
    reader: &mut R,
    writer: &mut W,
    input: &mut [u8],
    output: &mut [u8],
) -> Result<usize, ServeError>
    requires input_room { length input.old ≡ input_room }
    requires output_room { output_room ≤ length output.old }
    ensures { Serves (R.remaining reader.old) (W.contents writer.old) (W.contents writer.new) result }
{
    // No `?`: with `read_input(..).map_err(ServeError::Unread)?` the proof of `Serves` didn't close.
    match read_input(reader, input) {
        Ok(n) => match write_lot(writer, &input[..n], output) {
            Ok(()) => Ok(n),
            Err(e) => Err(ServeError::Unwritten(n, e)),
        },
        Err(e) => Err(ServeError::Unread(e)),
    }
}

// The system's words for a failure, without the number that std puts after them.
fn words(text: &str) -> &str {
    match text.split_once(" (os error ") {
        Some((words, _)) => words,
        None => text,
    }
}

// Says on standard error that a call failed.
fn tell(rt: &HostRuntime, stream: &str, error: &Error) {
    let _ = match format!(in rt.alloc(); "{error}") {
        Ok(text) => {
            let said = words(text.as_str());
            eprintln!(rt; "tally: standard {stream}: {said}")
        }
        Err(_) => eprintln!(rt; "tally: standard {stream}: {error}"),
    };
}

// Reads standard input, and writes its output to standard output. Answers how many bytes were read: the rules leave it open, so that nothing
// but its limit is said. Where a read failed there is no answer, and nothing is written.
pub fn run(rt: &HostRuntime) -> Option<usize>
    ensures { Within result input_room }
{
    let mut input = [0u8; INPUT_ROOM];
    let mut output = [0u8; OUTPUT_ROOM];
    match serve(&mut rt.stdin(), &mut rt.stdout(), &mut input, &mut output) {
        Ok(n) => Some(n),
        Err(ServeError::Unread(e)) => {
            tell(rt, "input", &e);
            None
        }
        Err(ServeError::Unwritten(n, e)) => {
            tell(rt, "output", &e);
            Some(n)
        }
    }
}
