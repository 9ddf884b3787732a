//! Words just inside and just outside.

use crate::{CommandWords, command_words};
use must_base::NameText;
use std::alloc::Global;
use std::process::Abort;
use std::test::Fail;

/// The words, parted by blanks; `''` is an empty word.
fn words_of(alloc: Global, text: &str) -> Result<Vec<NameText>, Fail> {
    let mut words = Vec::new(alloc);
    for word in text.split(' ') {
        if word == "''" {
            words.push(NameText::new(alloc, "")?)?;
        } else if !word.is_empty() {
            words.push(NameText::new(alloc, word)?)?;
        }
    }
    Ok(words)
}

fn refuses(rt: &impl Abort, alloc: Global, lines: &[&str]) -> Result<(), Fail> {
    for line in lines {
        let words = words_of(alloc, line)?;
        assert!(rt; command_words(alloc, &words)?.is_none(), "{line}");
    }
    Ok(())
}

fn accepts(rt: &impl Abort, alloc: Global, lines: &[&str]) -> Result<(), Fail> {
    for line in lines {
        let words = words_of(alloc, line)?;
        assert!(rt; command_words(alloc, &words)?.is_some(), "{line}");
    }
    Ok(())
}

#[test]
fn accepted_words(rt: HostRuntime) -> Result<(), Fail> {
    let lines = [
        "check a",
        "check check",
        "check a a",
        "check --csv a",
        "check --serial a",
        "check --fan-in 2 a",
        "check --fan-in 9 a",
        "check --fan-in 10 a",
        "check --fan-in 64 a",
        "check --sends strict a",
        "check --sends buffered a",
        "check --rules r.toml a",
        "check --csv --serial --fan-in 8 --sends strict --rules r a b c",
        "check --rules check --sends buffered --serial --fan-in 3 --csv dump",
        "dump a",
        "dump dump",
    ];
    accepts(&rt, rt.alloc(), &lines)
}

#[test]
fn refused_words(rt: HostRuntime) -> Result<(), Fail> {
    let lines = [
        // no command, or another
        "",
        "''",
        "chek a",
        "checks a",
        "Check a",
        "--csv check a",
        "--help",
        "help",
        "-V",
        "check --help",
        "check --help a",
        "check --version a",
        // files
        "check",
        "check --csv",
        "check -",
        "check ''",
        "check a ''",
        "check a -",
        "check -a",
        "check -- a",
        "check a --csv",
        "check a --serial",
        "check a --csv b",
        "check a -b",
        "dump",
        "dump -",
        "dump ''",
        "dump --csv a",
        "dump a b",
        "dump -- a",
        // options twice
        "check --csv --csv a",
        "check --serial --csv --serial a",
        "check --fan-in 8 --fan-in 8 a",
        "check --sends strict --sends buffered a",
        "check --rules r --rules r a",
        // values
        "check --fan-in a",
        "check --fan-in",
        "check --fan-in 0 a",
        "check --fan-in 1 a",
        "check --fan-in 65 a",
        "check --fan-in 264 a",
        "check --fan-in 08 a",
        "check --fan-in +8 a",
        "check --fan-in -8 a",
        "check --fan-in 8.0 a",
        "check --fan-in '' a",
        "check --fan-in=8 a",
        "check --fan-in 8a a",
        "check --sends a",
        "check --sends lazy a",
        "check --sends Strict a",
        "check --sends=strict a",
        "check --sends '' a",
        "check --rules '' a",
        "check --rules - a",
        "check --rules --- a",
        "check --rules --csv a",
        "check --rules=r a",
        "check --rules a",
        "check --csv=true a",
        "check --cs a",
        "check -csv a",
        "check --CSV a",
    ];
    refuses(&rt, rt.alloc(), &lines)
}

/// What the words of a check ask for.
#[test]
fn what_is_asked(rt: HostRuntime) -> Result<(), Fail> {
    let alloc = rt.alloc();
    let words = words_of(alloc, "check --csv --fan-in 12 --rules r a b")?;
    match command_words(alloc, &words)? {
        Some(CommandWords::Check(check)) => {
            assert!(rt; check.options.csv && !check.options.serial);
            assert_eq!(rt; check.options.fan_in, Some(12));
            assert_eq!(rt; check.options.sends, None);
            assert_eq!(rt; check.options.rules, Some("r"));
            assert_eq!(rt; check.files.len(), 2);
        }
        _ => assert!(rt; false),
    }
    let words = words_of(alloc, "dump a")?;
    match command_words(alloc, &words)? {
        Some(CommandWords::Dump(file)) => assert_eq!(rt; file, "a"),
        _ => assert!(rt; false),
    }
    Ok(())
}

#[test]
fn most_files(rt: HostRuntime) -> Result<(), Fail> {
    let alloc = rt.alloc();
    let mut words = words_of(alloc, "check --csv")?;
    for _ in 0..1024u32 {
        words.push(NameText::new(alloc, "a")?)?;
    }
    assert!(rt; command_words(alloc, &words)?.is_some());
    words.push(NameText::new(alloc, "a")?)?;
    assert!(rt; command_words(alloc, &words)?.is_none());
    Ok(())
}
