//! Compares this program's answers with a folder of reference vectors, which a separate program computed.
#![tactic(auto)]

ghost use Rattle.std.specs.Prelude.{All, IfOk};
ghost use Rattle.std.specs.Str.Lines.{lines};
ghost use Rattle.vector_check.specs.Tallies.{IsAllRight, IsTallyOf};

mod comparing;
mod differences;
mod files;
mod limits;
mod packs;
mod reels;
mod tallies;
mod unpacks;
mod words;

use crate::comparing::{Comparison, compare};
use crate::files::CaseFile;
use crate::limits::LimitFile;
use crate::packs::PackFile;
use crate::reels::ReelFile;
use crate::tallies::{Tally, verdict};
use crate::unpacks::UnpackFile;
use anyhow::{Context, anyhow, bail};
use program::{Asked, exit_code, unwritable};
use std::collections::BTreeMap;
use std::process::ExitCode;
use std::{env, fs};

const USAGE: &str = "it takes one folder of vectors (--help says more)";

const HELP: &str = "\
Usage: vector_check FOLDER

Compares our answers with the reference vectors in a folder: names each difference, and
prints for each file of cases how many were compared and how many differ. The status is 1,
with a sentence on standard error, if any differs, a file cannot be read, a line does not
have the form of its file, there is nothing to compare, the output cannot be written, memory
runs out, or it is not given one folder.";

fn main(rt: HostRuntime) -> ExitCode {
    exit_code(&rt, "vector_check", run(&rt))
}

fn run(rt: &HostRuntime) -> anyhow::Result<()> {
    let words: Vec<String> = env::args(rt)?.skip(1).collect(rt.alloc())?;
    match Asked::from_words(&words, 1).context(USAGE)? {
        Asked::Help => println!(rt; "{HELP}").map_err(unwritable),
        Asked::Run => {
            let folder = words[0].as_str();
            compare_folder(Vectors { rt, folder })?;
            Ok(())
        }
    }
}

/// Compares the cases of each file of a folder, and answers their tallies. It is an error if any differs, or a file has none.
fn compare_folder(vectors: Vectors<'_>) -> anyhow::Result<[Tally; 4]>
    ensures { IfOk result (All IsAllRight) }
{
    let tallies = [
        vectors.compare_reels()?,
        vectors.compare_file("pack", &PackFile)?,
        vectors.compare_file("pack-limits", &LimitFile)?,
        vectors.compare_file("unpack", &UnpackFile)?,
    ];
    verdict(&tallies)?;
    Ok(tallies)
}

/// A folder of reference vectors.
#[derive(Clone, Copy)]
struct Vectors<'a> {
    rt: &'a HostRuntime,
    folder: &'a str,
}

impl Vectors<'_> {
    /// Compares the cases of reel-check.txt, and answers their tally.
    fn compare_reels(self) -> anyhow::Result<Tally> {
        let cases = self.read_cases("reel-check")?;
        let reels = self.read_reels(cases.as_str())?;
        self.report("reel-check", &ReelFile { reels }, cases.as_str())
    }

    /// Compares the cases of a file, and answers their tally.
    fn compare_file<F: CaseFile>(self, name: &str, file: &F) -> anyhow::Result<Tally> {
        let cases = self.read_cases(name)?;
        self.report(name, file, cases.as_str())
    }

    /// Prints what differs in the cases of a file and how many differ, and answers the tally of all its lines. It is an error
    /// if a line does not have the form of the file.
    fn report<F: CaseFile>(self, name: &str, file: &F, cases: &str) -> anyhow::Result<Tally>
        ensures { IfOk result (IsTallyOf (F.is_case file.now) (F.is_right file.now) (F.names file.now) (lines cases.now)) }
    {
        let rt = self.rt;
        let Comparison {
            tally,
            differences,
            malformed,
        } = compare(rt.alloc(), file, cases)?;
        rt.print(differences).map_err(unwritable)?;
        if let Some(malformed) = malformed {
            bail!("{name}.txt has {malformed}");
        }
        println!(rt; "{name}: {tally}").map_err(unwritable)?;
        Ok(tally)
    }

    /// The text of a file of cases.
    fn read_cases(self, name: &str) -> anyhow::Result<String> {
        let Vectors { rt, folder } = self;
        let path = format!(in rt.alloc(); "{folder}/{name}.txt")?;
        fs::read_to_string(rt, path.as_str()).map_err(|e| anyhow!("cannot read {path}: {e}"))
    }

    /// The reels that cases name, by their names.
    fn read_reels(self, cases: &str) -> anyhow::Result<BTreeMap<String, Vec<u8>>> {
        let Vectors { rt, folder } = self;
        let heap = rt.alloc();
        let mut reels = BTreeMap::new(heap);
        for case in cases.lines() {
            let Some((name, _)) = case.split_once(' ') else {
                continue;
            };
            let path = format!(in heap; "{folder}/{name}.reel")?;
            let bytes = fs::read(rt, path.as_str()).map_err(|e| anyhow!(
                "cannot read {path}: {e}"
            ))?;
            reels
                .insert(String::from_str(heap, name)?, bytes)
                .map_err(std::alloc::AllocError::from)?;
        }
        Ok(reels)
    }
}

#[cfg(test)]
mod tests;
