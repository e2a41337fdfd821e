use crate::comparing::compare;
use crate::files::{CaseFile, Malformed};
use crate::limits::LimitFile;
use crate::packs::PackFile;
use crate::reels::ReelFile;
use crate::tallies::{Fault, Tally, verdict};
use crate::unpacks::UnpackFile;
use std::alloc::Global;
use std::collections::BTreeMap;
use std::test::Fail;

// The second case has 2 for 1 in its last digit, or 4 for 5, or b for a.
const PACKS: &str = "\
1 1 1 1 1 1 1 1 1 1 1 0 0 0 0 0 0 0 0 0 0 0 0 0 0 0 0 3 0 0 0 0 0 0 0 15 ffff
1 0 0 0 0 0 0 0 0 0 0 0 0 0 0 0 0 0 0 0 0 0 0 0 0 0 0 1 0 0 0 0 0 0 0 0 0002
";

const LIMITS: &str = "\
1 1 0 0 0 1 1 0 0 0 1 0 0 0 0 0 0 0 0 0 0 0 0 0 0 0 0 3 0 0 0 0 0 0 0 14 1 refused 16
1 0 1 0 0 0 1 0 1 1 0 0 0 0 0 0 0 0 0 0 0 0 0 0 0 0 0 2 0 0 0 0 0 0 0 9 2 a13b
";

const UNPACKS: &str = "\
4 - refused 6 0
1 1f7b 0 0 1 1 1 1 1 1 1 0 0 0 0 0 0 0 0 0 0 0 0 0 0 0 0 0 3 0 0 0 0 0 0 0 4
";

const REELS: &str = "\
refuse-1-one refused 1
refuse-1-empty refused 2
";

// Not assert_eq: in a function below a test it would need the bound Abort.
fn check_one_wrong<F: CaseFile>(
    heap: Global,
    file: &F,
    cases: &str,
    differences: &str,
) -> Result<(), Fail> {
    let found = compare(heap, file, cases)?;
    let one_wrong = Tally {
        compared: 2,
        differ: 1,
    };
    if found.malformed.is_none()
        && found.tally == one_wrong
        && found.differences.as_str() == differences
    {
        Ok(())
    } else {
        Err(Fail::from(found.differences))
    }
}

fn check_malformed<F: CaseFile>(
    heap: Global,
    file: &F,
    cases: &str,
    malformed: Malformed,
) -> Result<(), Fail> {
    let found = compare(heap, file, cases)?;
    if found.malformed == Some(malformed) && found.tally.compared == 2 {
        Ok(())
    } else {
        Err(Fail::from(found.differences))
    }
}

fn reels(heap: Global) -> Result<ReelFile, Fail> {
    let mut reels = BTreeMap::new(heap);
    reels.insert(String::from_str(heap, "refuse-1-one")?, vec![in heap; 0]?)?;
    reels.insert(String::from_str(heap, "refuse-1-empty")?, Vec::new(heap))?;
    Ok(ReelFile { reels })
}

#[test]
fn finds_a_wrong_packet(rt: HostRuntime) -> Result<(), Fail> {
    check_one_wrong(
        rt.alloc(),
        &PackFile,
        PACKS,
        "\
pack 1 0 0 0 0 0 0 0 0 0 0 0 0 0 0 0 0 0 0 0 0 0 0 0 0 0 0 1 0 0 0 0 0 0 0 0: \
expected '0002', answered '0001'
unpack 1 0002: \
expected '0 0 0 0 0 0 0 0 0 0 0 0 0 0 0 0 0 0 0 0 0 0 0 0 0 0 1 0 0 0 0 0 0 0 0', \
answered '0 0 0 0 0 0 0 0 0 0 0 0 0 0 0 0 0 0 0 0 0 0 0 0 0 0 2 0 0 0 0 0 0 0 0'
",
    )
}

#[test]
fn finds_a_wrong_answer_in_a_buffer(rt: HostRuntime) -> Result<(), Fail> {
    check_one_wrong(
        rt.alloc(),
        &LimitFile,
        LIMITS,
        "\
pack 1 0 1 0 0 0 1 0 1 1 0 0 0 0 0 0 0 0 0 0 0 0 0 0 0 0 0 2 0 0 0 0 0 0 0 9 into 2 bytes: \
expected 'a13b', answered 'a13a'
",
    )
}

#[test]
fn finds_wrong_codes(rt: HostRuntime) -> Result<(), Fail> {
    check_one_wrong(
        rt.alloc(),
        &UnpackFile,
        UNPACKS,
        "\
unpack 1 1f7b: \
expected '0 0 1 1 1 1 1 1 1 0 0 0 0 0 0 0 0 0 0 0 0 0 0 0 0 0 3 0 0 0 0 0 0 0 4', \
answered '0 0 1 1 1 1 1 1 1 0 0 0 0 0 0 0 0 0 0 0 0 0 0 0 0 0 3 0 0 0 0 0 0 0 5'
",
    )
}

#[test]
fn finds_a_wrong_check(rt: HostRuntime) -> Result<(), Fail> {
    let heap = rt.alloc();
    check_one_wrong(
        heap,
        &reels(heap)?,
        REELS,
        "reel-check refuse-1-empty: expected 'refused 2', answered 'refused 1'\n",
    )
}

#[test]
fn names_what_a_line_lacks(rt: HostRuntime) -> Result<(), Fail> {
    let heap = rt.alloc();
    let packs = format!(in heap; "{PACKS}4 0")?;
    check_malformed(heap, &PackFile, packs.as_str(), Malformed::Codes)?;
    let limits = format!(in heap; "{LIMITS}4 0 65 refused 17")?;
    check_malformed(heap, &LimitFile, limits.as_str(), Malformed::Room)?;
    let unpacks = format!(in heap; "{UNPACKS}4 -")?;
    check_malformed(heap, &UnpackFile, unpacks.as_str(), Malformed::Answer)?;
    let cases = format!(in heap; "{REELS}refuse-1-two refused 1\nexample ok")?;
    check_malformed(heap, &reels(heap)?, cases.as_str(), Malformed::Reel)
}

#[test]
fn judges_tallies(rt: HostRuntime) {
    let right = Tally {
        compared: 2,
        differ: 0,
    };
    let wrong = Tally {
        compared: 2,
        differ: 1,
    };
    assert_eq!(rt; verdict(&[right, right]), Ok(()));
    assert_eq!(rt; verdict(&[right, wrong]), Err(Fault::SomeDiffer));
    assert_eq!(rt;
        verdict(&[Tally::default(), right]),
        Err(Fault::NothingCompared)
    );
}
