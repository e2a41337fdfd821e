//! Prints what each code of LSP 1 stands for at each rate, in grains.
#![tactic(auto)]

ghost use Rattle.std.specs.Prelude.{pos, Some, slice_index, slice_index_or};
ghost use Rattle.service.specs.Rates.{rate_is};
ghost use Rattle.lsp.specs.Quantizers.{values};
ghost use Rattle.lsp_values.specs.Text.{row_text};

use anyhow::Context;
use lsp::{LspCodes, top_code};
use program::{Asked, exit_code, unwritable};
use service::Rate;
use std::process::ExitCode;
use std::{env, fmt};

const HELP: &str = "\
Usage: lsp_values

Prints what each code of LSP 1 stands for: a header, then for each rate and code a line
  RATE;CODE;VALUE
with the rate by its number (4 is Rate 1, 3 is Rate 1/2, 2 is Rate 1/4, 1 is Rate 1/8)
and the value in grains, of which the sampling frequency has 10,813,440,000.";

const HEADER: &str = "rate;code;LSP1";

fn main(rt: HostRuntime) -> ExitCode {
    exit_code(&rt, "lsp_values", run(&rt))
}

fn run(rt: &HostRuntime) -> anyhow::Result<()> {
    let words: Vec<String> = env::args(rt)?.skip(1).collect(rt.alloc())?;
    match Asked::from_words(&words, 0).context("it takes no arguments but --help")? {
        Asked::Help => println!(rt; "{HELP}").map_err(unwritable),
        Asked::Run => print_table(rt),
    }
}

// Prints the header, and the rows rate by rate.
fn print_table(rt: &HostRuntime) -> anyhow::Result<()> {
    println!(rt; "{HEADER}").map_err(unwritable)?;
    for rate in [Rate::Full, Rate::Half, Rate::Quarter, Rate::Eighth] {
        print_rate(rt, rate)?;
    }
    Ok(())
}

// Prints the rows of one rate.
fn print_rate(rt: &HostRuntime, rate: Rate) -> anyhow::Result<()> {
    for code in 0..=top_code(rate) {
        let row = Row(LspCodes::new(rate, [code; 10])?);
        println!(rt; "{row}").map_err(unwritable)?;
    }
    Ok(())
}

// The row of the first of ten codes.
#[derive(Clone, Copy)]
struct Row(LspCodes);

impl fmt::Display for Row {
    ghost output = { λ row. Some (row_text (rate_is row.0.rate).number (slice_index row.0.codes 0)
        (slice_index_or (values row.0.rate row.0.codes) 0 (pos 0))) };

    /// Writes the rate, the code and its value.
    fn fmt<W: fmt::Write>(&self, f: &mut fmt::Formatter<W>) -> fmt::Result {
        let codes = self.0;
        let rate = u8::from(codes.rate());
        let code = codes.codes()[0];
        let value = codes.values()[0];
        write!(f, "{rate};{code};{value}")
    }
}
