//! Answers lines on standard input that ask for codes to be packed or a packet to be unpacked.
#![tactic(auto)]

ghost use Rattle.std.specs.Prelude.{IfSome, OnOk};
ghost use Rattle.packet_text.specs.Lines.{AnswersInput, AnswersLine};

use anyhow::Context;
use program::{Asked, exit_code, unreadable, unwritable};
use std::alloc::Global;
use std::io::{BufRead, BufReader, Write};
use std::process::ExitCode;
use std::{env, io};

const HELP: &str = "\
Usage: packet_text < LINES

Answers each line of standard input by one line. A line is words with single spaces between,
  pack RATE CODES
answered by the packet of the 35 codes in hexadecimal, or
  unpack RATE PACKET
answered by the 35 codes of the packet. A call that refuses is answered
  refused NUMBER
with record 0 behind numbers 6 and 9. Any other line is answered
  unreadable: REASON
The rate goes by its number (4 is Rate 1, 3 is Rate 1/2, 2 is Rate 1/4, 1 is Rate 1/8), and
the codes are in the order LSP1 to LSP10, PLAG1 to PLAG4, PGAIN1 to PGAIN4, CBINDEX1 to
CBINDEX8, CBGAIN1 to CBGAIN8, CBSEED, with 0 for those that the rate lacks. Each number is
decimal, from 0 to 255. A packet is pairs of hexadecimal digits, or a hyphen for no bytes.
The status is 0 whatever the lines are. It is 1, with a sentence on standard error, if the input
cannot be read, the output cannot be written, a word other than --help is given, or memory runs out.";

const USAGE: &str = "it takes no arguments but --help, and reads lines from standard input";

fn main(rt: HostRuntime) -> ExitCode {
    exit_code(&rt, "packet_text", run(&rt))
}

fn run(rt: &HostRuntime) -> anyhow::Result<()> {
    let words: Vec<String> = env::args(rt)?.skip(1).collect(rt.alloc())?;
    match Asked::from_words(&words, 0).context(USAGE)? {
        Asked::Help => println!(rt; "{HELP}").map_err(unwritable),
        Asked::Run => {
            let input = BufReader::new(rt.alloc(), rt.stdin())?;
            answer_lines(rt.alloc(), input, &mut io::writer(rt))
        }
    }
}

// Answers each line of an input by one line.
fn answer_lines<R: BufRead + Drop, W: Write>(
    heap: Global,
    input: R,
    output: &mut W,
) -> anyhow::Result<()>
    ensures { OnOk result (IfSome (R.remaining input)
        (λ bytes. AnswersInput bytes (W.contents output.old) (W.contents output.new))) }
{
    for line in input.split(heap, b'\n') {
        let line = line.map_err(unreadable)?;
        answer_line(heap, &line, output)?;
    }
    Ok(())
}

// Answers a line by one line.
fn answer_line<W: Write>(heap: Global, line: &[u8], output: &mut W) -> anyhow::Result<()>
    ensures { OnOk result (AnswersLine line.now (W.contents output.old) (W.contents output.new)) }
{
    let text = packet_lines::answer(heap, line)?;
    writeln!(output, "{text}").map_err(unwritable)
}
