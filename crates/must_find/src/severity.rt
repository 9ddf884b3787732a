//! Severities.

/// How a report shows the findings of a rule: as errors, as warnings, or not at all.
#[derive(Clone, Copy, Debug, PartialEq, Eq)]
pub enum Severity {
    Error,
    Warning,
    Off,
}
