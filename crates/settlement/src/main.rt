// The program settlement (02: Slip 4): a book on standard input, its settlement sheet on standard output.
//
// `run` takes no index out of range, adds without wrapping and ends, given that each call of its reader and its writer
// returns. Proved of it for every reader and writer whose bytes are known: where it ends well, it has written the
// definition's output for all that the reader had left, and where reading fails, it has written nothing. Not proved, since
// no contract says which bytes a system's read and write move: that what `main` hands on are the bytes of standard input,
// and that those written to standard output arrive.
// Where input cannot be read or output cannot be written, a message goes to standard error, nothing more to standard
// output, and the exit status is still 0.
#![tactic(auto)]

ghost use Rattle.std.specs.Prelude.{◌≡◌, IfSome, IfErr, OnOk};
ghost use Rattle.std.specs.Io.KnownBytes.{Appends, Keeps};
ghost use Rattle.model.specs.SheetCalls.{settlement};

use input::Failure;
use std::io::{Read, Write};

// One byte more than the longest book of 64 partitions and 512 deliveries: a longer one, cut there, has the same output (the
// law `cut_short` of settlement_text).
const ROOM: usize = 34 + 23 * 64 + 34 * 512 + 1;

// The whole input read, and its output written. The program layplan has the same four lines over its own text: one function for both, over
// a closure, would say what is written by the closure's predicates, and each program would still need this contract on a `run` of its own.
fn run<R: Read, W: Write>(reader: &mut R, writer: &mut W) -> Result<(), Failure>
    ensures written { OnOk result (IfSome (R.remaining reader.old) (λ text.
        Appends (W.contents writer.old) (W.contents writer.new) (settlement text))) }
    ensures unread { IfErr result (λ e. e ≡ Failure.Input → Keeps (W.contents writer.old) (W.contents writer.new)) }
{
    let mut input = [0u8; ROOM];
    let n = input::read_all(reader, &mut input).or(Err(Failure::Input))?;
    let out = settlement_text::settlement_text(&input[..n]);
    writer.write_all(out.as_slice()).or(Err(Failure::Output))?;
    Ok(())
}

fn main(rt: HostRuntime) {
    if let Err(failure) = run(&mut rt.stdin(), &mut rt.stdout()) {
        // Where the message cannot be written either, nothing is left to say so on.
        let _ = eprintln!(rt; "settlement: {failure}");
    }
}
