//! The report of a run, which `turns` and `run` write alike.

ghost use Rattle.run_report.specs.Journal.{plain_journal};
ghost use Rattle.run_report.specs.Named.{NamesItsActors};
ghost use Rattle.run_report.specs.Text.{report_text};

use crate::writing::Text;
use byte_ports::{Failed, Sink};
use run_report::{Journal, write_report};

/// The report of a journal.
#[derive(Drop)]
pub(crate) struct Report {
    pub(crate) journal: Journal,
}

impl Text for Report {
    ghost text = { λ report. report_text (plain_journal report.journal) };

    ghost is_ready = { λ report. NamesItsActors (plain_journal report.journal) };

    fn write<K: Sink>(&self, out: &mut K) -> Result<(), Failed> {
        write_report(&self.journal, out)
    }
}
