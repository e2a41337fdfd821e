//! Checks the reel on standard input, and prints its records and the verdict on standard output.
#![tactic(auto)]

ghost use Rattle.std.specs.Prelude.{◌≡◌, string_bytes, IfOk, IfSome};
ghost use Rattle.program.specs.Input.{first_bytes};
ghost use Rattle.reel_text.specs.Text.{reel_text};

use anyhow::Context;
use program::{Asked, exit_code, read_up_to, unreadable, unwritable};
use std::alloc::Global;
use std::io::Read;
use std::process::ExitCode;
use std::{env, io};

/// One byte more than the longest reel: an input that has so many is refused, and not read to its end.
const MAX_INPUT: u64 = reel::MAX_BYTES as u64 + 1;

const USAGE: &str = "it takes no arguments but --help, and reads the reel from standard input";

const HELP: &str = "\
Usage: reel_check < REEL

Checks the reel on standard input. A lawful reel prints one line for each record,
  NUMBER;WHAT;BYTES
with its bytes in hexadecimal, or a hyphen for none, and last
  ok RECORDS
An unlawful reel prints one line alone, by the first test that it fails,
  refused NUMBER
or, for a fault of a record,
  refused NUMBER RECORD
Either way the status is 0. It is 1, with a sentence on standard error, if the input cannot
be read, the output cannot be written, a word other than --help is given, or memory runs out.";

fn main(rt: HostRuntime) -> ExitCode {
    exit_code(&rt, "reel_check", run(&rt))
}

fn run(rt: &HostRuntime) -> anyhow::Result<()> {
    let words: Vec<String> = env::args(rt)?.skip(1).collect(rt.alloc())?;
    match Asked::from_words(&words, 0).context(USAGE)? {
        Asked::Help => println!(rt; "{HELP}").map_err(unwritable),
        Asked::Run => {
            let text = input_text(rt.alloc(), rt.stdin())?;
            rt.print(text).map_err(unwritable)
        }
    }
}

/// The text of the reel that an input has.
#[tactic(auto, using(crate::proofs::Limit::same_text))]
fn input_text<R: Read + Drop>(heap: Global, input: R) -> anyhow::Result<String>
    ensures { IfOk result (λ text. IfSome (R.remaining input)
        (λ bytes. string_bytes text ≡ reel_text bytes)) }
{
    let bytes = read_reel(heap, input).map_err(unreadable)?;
    let text = reel_text::listing(heap, &bytes)?;
    Ok(text)
}

/// The first bytes of an input, at most one more than the longest reel has.
fn read_reel<R: Read + Drop>(heap: Global, input: R) -> io::Result<Vec<u8>>
    ensures { IfOk result (λ bytes. IfSome (R.remaining input)
        (λ all. bytes.items ≡ first_bytes 65537 all)) }
{
    read_up_to(heap, input, MAX_INPUT)
}

#[cfg(test)]
mod tests {
    use super::input_text;
    use std::test::Fail;

    // The longest reel, of two packets at Rate 1/8, as far as they go.
    const LONGEST: &[u8; 36] = b"\
        \x02\x00\x00\x00\x10\x00\x00\x00\x20\x00\x00\x00\
        \x00\x00\x01\x00\x00\x00\x00\x00\x01\x02\x00\x00\
        \x02\x00\x00\x00\x01\x02\x00\x00\x00\x00\xff\xff\
    ";

    #[test]
    fn refuses_one_byte_too_many(rt: HostRuntime) -> Result<(), Fail> {
        let heap = rt.alloc();
        let mut input = Vec::from_slice(heap, LONGEST)?;
        input.resize(65_536, 0)?;
        let longest = input_text(heap, input.as_slice())?;
        assert_eq!(rt;
            longest.as_str(),
            "1;Rate 1/8;0000\n2;Rate 1/8;ffff\nok 2\n"
        );
        input.push(0)?;
        let longer = input_text(heap, input.as_slice())?;
        assert_eq!(rt; longer.as_str(), "refused 1\n");
        Ok(())
    }
}
