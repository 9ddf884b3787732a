//! Rules files, good and bad.

use crate::{MOST_SETTINGS_BYTES, SettingsFault, read_settings};
use must_find::{Rule, Severity};
use must_plan::Sends;
use std::alloc::Global;
use std::process::Abort;
use std::test::Fail;

/// A rules file, and what it says of sends and of the rule A2.
#[derive(Drop)]
struct Case {
    text: &'static str,
    sends: Option<Sends>,
    severity: Severity,
}

/// Each of these files is accepted.
fn accepts(rt: &impl Abort, alloc: Global, cases: &[Case]) -> Result<(), Fail> {
    for case in cases {
        match read_settings(alloc, case.text.as_bytes()) {
            Ok(settings) => {
                assert_eq!(rt; settings.sends, case.sends, "{}", case.text);
                assert_eq!(rt;
                    settings.rules.get(Rule::A2),
                    case.severity,
                    "{}",
                    case.text
                );
            }
            Err(fault) => assert_eq!(rt; fault, SettingsFault::NoMemory, "{}", case.text),
        }
    }
    Ok(())
}

#[test]
fn accepted_files(rt: HostRuntime) -> Result<(), Fail> {
    let cases = [
        Case {
            text: "",
            sends: None,
            severity: Severity::Error,
        },
        Case {
            text: "# nothing\n",
            sends: None,
            severity: Severity::Error,
        },
        Case {
            text: "[rules]\n",
            sends: None,
            severity: Severity::Error,
        },
        Case {
            text: "[rules]\nA2 = \"off\"\n",
            sends: None,
            severity: Severity::Off,
        },
        Case {
            text: "sends = \"buffered\"\n[rules]\nA1 = \"off\"\nA2 = \"warning\"\nL5 = \"error\"\n",
            sends: Some(Sends::Buffered),
            severity: Severity::Warning,
        },
        Case {
            text: "rules = { H5 = \"off\", \"A2\" = 'error' }\nsends = 'strict'",
            sends: Some(Sends::Strict),
            severity: Severity::Error,
        },
        Case {
            text: "rules.A2 = \"off\"\nrules.A3 = \"off\"\n",
            sends: None,
            severity: Severity::Off,
        },
    ];
    accepts(&rt, rt.alloc(), &cases)
}

/// Each of these files is refused.
fn refuses(rt: &impl Abort, alloc: Global, texts: &[&[u8]]) -> Result<(), Fail> {
    for text in texts {
        let fault = read_settings(alloc, text).err();
        assert_eq!(rt; fault, Some(SettingsFault::Refused), "{:?}", text);
    }
    Ok(())
}

#[test]
fn refused_files(rt: HostRuntime) -> Result<(), Fail> {
    let texts: [&[u8]; 24] = [
        // keys
        b"send = \"strict\"\n",
        b"Sends = \"strict\"\n",
        b"\"\" = \"strict\"\n",
        b"fan_in = 8\n",
        b"[other]\n",
        b"[rules.A2]\n",
        // values
        b"sends = \"maybe\"\n",
        b"sends = \"Strict\"\n",
        b"sends = true\n",
        b"sends = [\"strict\"]\n",
        b"[sends]\n",
        b"rules = \"off\"\n",
        b"[[rules]]\n",
        b"[rules]\nA2 = \"none\"\n",
        b"[rules]\nA2 = \"Off\"\n",
        b"[rules]\nA2 = 0\n",
        b"[rules]\nA2 = false\n",
        // codes
        b"[rules]\nA8 = \"off\"\n",
        b"[rules]\na2 = \"off\"\n",
        b"[rules]\nX1 = \"off\"\n",
        // no TOML document
        b"[rules\n",
        b"sends = strict\n",
        b"sends = \"strict\"\nsends = \"strict\"\n",
        b"# \xff\n",
    ];
    refuses(&rt, rt.alloc(), &texts)
}

/// A rules file of so many bytes: a setting, and a comment of so many signs.
fn long_file(alloc: Global, bytes: usize) -> Result<Vec<u8>, Fail> {
    let mut text = Vec::from_slice(alloc, b"sends = \"buffered\"\n#")?;
    for _ in text.len()..bytes {
        text.push(b'-')?;
    }
    Ok(text)
}

#[test]
fn longest_file(rt: HostRuntime) -> Result<(), Fail> {
    let alloc = rt.alloc();
    let text = long_file(alloc, MOST_SETTINGS_BYTES)?;
    assert_eq!(rt; text.len(), 65_536);
    let sends = read_settings(alloc, &text)
        .ok()
        .and_then(|settings| settings.sends);
    assert_eq!(rt; sends, Some(Sends::Buffered));
    let text = long_file(alloc, MOST_SETTINGS_BYTES + 1)?;
    let fault = read_settings(alloc, &text).err();
    assert_eq!(rt; fault, Some(SettingsFault::Refused));
    Ok(())
}

#[test]
fn other_rules_keep_their_severity(rt: HostRuntime) -> Result<(), Fail> {
    let settings = match read_settings(rt.alloc(), b"[rules]\nA1 = \"off\"\nN1 = \"error\"\n") {
        Ok(settings) => settings,
        Err(_) => return Ok(assert!(rt; false)),
    };
    assert_eq!(rt; settings.rules.get(Rule::A1), Severity::Off);
    assert_eq!(rt; settings.rules.get(Rule::A2), Severity::Error);
    assert_eq!(rt; settings.rules.get(Rule::N1), Severity::Error);
    assert_eq!(rt; settings.rules.get(Rule::L1), Severity::Warning);
    assert_eq!(rt; settings.rules.get(Rule::X1), Severity::Off);
    Ok(())
}
