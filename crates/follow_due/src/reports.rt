//! What is told of windows, in their order.

ghost use Rattle.std.specs.Prelude.{◌≡◌};

use crate::WindowReport;
use std::marker::Model;

/// Reports of windows, in their order.
#[derive(Drop)]
pub struct Reports {
    reports: Vec<WindowReport>,
}

impl Model for Reports {
    ghost use Rattle.std.specs.Prelude.{List};
    ghost use Rattle.follow_due.specs.declared.window_report.WindowReport.{WindowReport};

    ghost Value = { List WindowReport };

    ghost view = { λ list. list.reports.items };
}

impl Reports {
    /// These reports.
    pub fn new(reports: Vec<WindowReport>) -> Reports
        ensures { result ≡ reports.items }
    {
        Reports { reports }
    }

    /// All of them.
    pub fn as_slice(&self) -> &[WindowReport]
        ensures { result.now ≡ self.now }
    {
        self.reports.as_slice()
    }
}
