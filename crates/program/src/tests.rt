use crate::{Asked, UsageError, exit_code, read_up_to, unreadable, unwritable};
use std::alloc::{AllocError, Global};
use std::io;
use std::process::ExitCode;
use std::test::Fail;

fn words(heap: Global, texts: &[&str]) -> Result<Vec<String>, AllocError> {
    let mut words = Vec::new(heap);
    for text in texts {
        words.push(String::from_str(heap, text)?)?;
    }
    Ok(words)
}

#[test]
fn asks_by_the_words(rt: HostRuntime) -> Result<(), Fail> {
    let heap = rt.alloc();
    let none = words(heap, &[])?;
    assert_eq!(rt; Asked::from_words(&none, 0), Ok(Asked::Run));
    assert_eq!(rt;
        Asked::from_words(&none, 1),
        Err(UsageError::MissingOperand)
    );
    let help = words(heap, &["--help"])?;
    assert_eq!(rt; Asked::from_words(&help, 0), Ok(Asked::Help));
    assert_eq!(rt; Asked::from_words(&help, 1), Ok(Asked::Help));
    let folder = words(heap, &["data"])?;
    assert_eq!(rt; Asked::from_words(&folder, 1), Ok(Asked::Run));
    assert_eq!(rt;
        Asked::from_words(&folder, 0),
        Err(UsageError::UnknownWord("data"))
    );
    Ok(())
}

#[test]
fn help_stands_alone(rt: HostRuntime) -> Result<(), Fail> {
    let heap = rt.alloc();
    let behind = words(heap, &["--help", "extra"])?;
    assert_eq!(rt;
        Asked::from_words(&behind, 0),
        Err(UsageError::UnknownWord("extra"))
    );
    assert_eq!(rt;
        Asked::from_words(&behind, 1),
        Err(UsageError::UnknownWord("extra"))
    );
    let before = words(heap, &["data", "--help"])?;
    assert_eq!(rt;
        Asked::from_words(&before, 1),
        Err(UsageError::UnknownWord("--help"))
    );
    Ok(())
}

#[test]
fn says_what_is_wrong(rt: HostRuntime) -> Result<(), Fail> {
    let heap = rt.alloc();
    let extra = UsageError::UnknownWord("extra").to_string(heap)?;
    assert_eq!(rt; extra.as_str(), "'extra' is not known");
    let missing = UsageError::MissingOperand.to_string(heap)?;
    assert_eq!(rt; missing.as_str(), "an operand is missing");
    let input = format!(in heap;
        "{:#}",
        unreadable(io::Error::from(io::ErrorKind::NotFound))
    )?;
    assert_eq!(rt;
        input.as_str(),
        "standard input cannot be read: entity not found"
    );
    let output = format!(in heap;
        "{:#}",
        unwritable(io::Error::from(io::ErrorKind::NotFound))
    )?;
    assert_eq!(rt;
        output.as_str(),
        "standard output cannot be written: entity not found"
    );
    Ok(())
}

#[test]
fn reads_up_to_a_limit(rt: HostRuntime) -> Result<(), Fail> {
    let heap = rt.alloc();
    let all = b"abc".as_slice();
    assert_eq!(rt; read_up_to(heap, all, 2)?.as_slice(), b"ab".as_slice());
    assert_eq!(rt; read_up_to(heap, all, 3)?.as_slice(), all);
    assert_eq!(rt; read_up_to(heap, all, 4)?.as_slice(), all);
    Ok(())
}

#[test]
fn ends_by_the_outcome(rt: HostRuntime) {
    assert!(rt; exit_code(&rt, "program", Ok(())) == ExitCode::SUCCESS);
}
