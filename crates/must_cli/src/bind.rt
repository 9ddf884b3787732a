//! Binding the files of a command.

ghost use Rattle.std.specs.Prelude.{◌≡◌, ◌++◌, ◌∷◌, [], length, map, OnOk, IfOk};
ghost use Rattle.std.specs.List.{AllByRecursion};
ghost use Rattle.must_words.specs.Asked.{check_asked};
ghost use Rattle.must_cli.specs.Settled.{names_of};

use must_base::{NameText, NoMemory, Source, Trace};
use must_words::CheckWords;
use std::alloc::Global;

/// What a source shows is what it has left and how often a read of it failed. The function does nothing.
pub fn source_law<S: Source>()
    ensures { (source : S) → S.shows source ≡ record { left = S.left source; faults = S.faults source } }
{}

/// Binds the files: each part has the bytes of its file, where they are told, and none was read.
pub fn bind_files<T: Trace>(
    alloc: Global,
    files: &[NameText],
    trace: &mut T,
) -> Result<(), NoMemory>
    ensures names { OnOk result (T.names trace.new ≡ files.now) }
    ensures left { OnOk result (map T.Src.left (T.bound trace.new) ≡ map (T.files trace.old) files.now) }
    ensures fresh { OnOk result (AllByRecursion (λ part. T.Src.faults part ≡ 0) (T.bound trace.new)) }
    ensures count { OnOk result (length (T.bound trace.new) ≡ length files.now) }
{
    source_law::<T::Src>();
    trace.bind(alloc, files)?;
    Ok(())
}

fn push_name(alloc: Global, names: &mut Vec<NameText>, name: &str) -> Result<(), NoMemory>
    ensures { OnOk result (names.new.items ≡ names.old.items ++ name.now ∷ []) }
{
    let copy = NameText::new(alloc, name)?;
    names.push(copy)?;
    Ok(())
}

/// The names of the files, and behind them that of the rules file.
fn with_rules(alloc: Global, files: &[NameText], rules: &str) -> Result<Vec<NameText>, NoMemory>
    ensures { IfOk result (λ names. names.items ≡ files.now ++ rules.now ∷ []) }
{
    let mut names = Vec::new(alloc);
    for file in files {
        push_name(alloc, &mut names, file.text())?;
    }
    push_name(alloc, &mut names, rules)?;
    Ok(names)
}

/// Binds the files of a check: its streams, and behind them its rules file.
pub fn bind_check<T: Trace>(
    alloc: Global,
    words: &CheckWords,
    trace: &mut T,
) -> Result<(), NoMemory>
    ensures names { OnOk result (T.names trace.new ≡ names_of (check_asked words.now)) }
    ensures left { OnOk result (map T.Src.left (T.bound trace.new) ≡ map (T.files trace.old) (names_of (check_asked words.now))) }
    ensures fresh { OnOk result (AllByRecursion (λ part. T.Src.faults part ≡ 0) (T.bound trace.new)) }
    ensures count { OnOk result (length (T.bound trace.new) ≡ length (names_of (check_asked words.now))) }
{
    match words.options.rules {
        None => bind_files(alloc, words.files, trace),
        Some(rules) => {
            let names = with_rules(alloc, words.files, rules)?;
            bind_files(alloc, &names, trace)
        }
    }
}
