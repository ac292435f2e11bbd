//! Prints a report of the desk in a file on standard output.
ghost use Rattle.std.specs.Prelude.{ℕ, List, Result, Err};
ghost use Rattle.registry_core.specs.declared.messages.Envelope.{Envelope};
ghost use Rattle.registry_core.specs.Settings.{Settings};
ghost use Rattle.desk_store.specs.Calls.{IsRead};
ghost use Rattle.desk_engine.specs.declared.report_faults.ReportFault.{ReportFault};
ghost use Rattle.desk_engine.specs.InOrder.{WasInOrder};
ghost use Rattle.desk_engine.specs.Reporting.{store_fault_in};
ghost use Rattle.desk_cli.specs.Doing.{PrintsOver};
ghost use Rattle.desk_cli.specs.steps.Jobs.{prints};
ghost use Rattle.desk_cli.specs.steps.Printing.{IsPrinted, shown, unasked};
ghost use Rattle.desk_tables.specs.AtRest.{IsAtRest};
ghost use Rattle.desk_cli.specs.Faults.{EndsGiving};

use crate::endings::Ending;
use crate::faults::{Fault, end};
use crate::jobs::{Job, run_job};
use desk_engine::{ReportFault, write_whole};
use desk_store::Keeper;
use sqlite::{Alter, Connection};
use std::alloc::Global;
use std::io::{self, Read, Write};

/// A report that a store can give.
pub(crate) trait Report {
    /// The report of a desk of this configuration that heard this log, or why there is none.
    ghost is_answer: { Self → Settings → List Envelope → Result (List ℕ) ReportFault → Type 0 };

    /// Returns the report's text, or why there is none.
    fn ask<K: Keeper>(&self, alloc: Global, keeper: &mut K) -> Result<Vec<u8>, ReportFault>
        ensures read { IsRead K.meaning keeper.old keeper.new (store_fault_in result) }
        ensures told { (c : Settings) (heard : List Envelope) → WasInOrder K.meaning c heard keeper.old keeper.new
            → is_answer self.now c heard (shown (λ text. text.items) result) };

    /// If there is no memory to open the desk, that is why there is no text.
    ghost unopened: { (report : Self) (c : Settings) (heard : List Envelope) → is_answer report c heard unasked };
}

/// Prints the report of the desk in the connection's database. Returns the connection. The database stays as it is.
///
/// # Errors
///
/// Writes one line to standard error: the error of the report, `File` if a write to standard output failed, and `NotADesk`, `Schema` or
/// `Unavailable` if the database isn't a desk of schema 2.
pub(crate) fn print_report<S: Alter, Q: Report, W: Write, F: Write>(
    alloc: Global,
    conn: Connection<S>,
    report: &Q,
    answers: &mut W,
    faults: &mut F,
) -> (Ending, Connection<S>)
    requires at_rest { IsAtRest conn }
    ensures { EndsGiving F.Write faults.old faults.new result
        (PrintsOver S.Store (Q.is_answer report.now) conn W.Write answers.old answers.new) }
{
    let (done, conn) = print_by_store(alloc, conn, report, answers);
    (end(faults, done), conn)
}

/// Prints the report, and returns the connection.
fn print_by_store<S: Alter, Q: Report, W: Write>(
    alloc: Global,
    conn: Connection<S>,
    report: &Q,
    answers: &mut W,
) -> (Result<(), Fault>, Connection<S>)
    requires at_rest { IsAtRest conn }
    ensures { PrintsOver S.Store (Q.is_answer report.now) conn W.Write answers.old answers.new result.1 result.0 }
{
    run_job(alloc, conn, &Printed(report), &mut io::empty(), answers)
}

/// The job that prints the report.
#[derive(Drop)]
struct Printed<'a, Q: Report>(&'a Q);

impl<Q: Report> Job for Printed<'_, Q> {
    ghost does = { λ job. prints (Q.is_answer job.0.now) };

    fn run<K: Keeper, R: Read, W: Write>(
        &self,
        alloc: Global,
        keeper: &mut K,
        _reader: &mut R,
        answers: &mut W,
    ) -> Result<(), Fault> {
        let report = self.0.ask(alloc, keeper);
        print(answers, &report)
    }
}

/// Writes the report and flushes it, or returns why there is none.
pub(crate) fn print<W: Write>(
    answers: &mut W,
    report: &Result<Vec<u8>, ReportFault>,
) -> Result<(), Fault>
    ensures { IsPrinted (λ text. text.items) report.now (W.contents answers.old) (W.contents answers.new) result }
{
    match report {
        Ok(text) => write_whole(answers, text.as_slice()).map_err(|_| Fault::File),
        Err(fault) => Err((*fault).into()),
    }
}
