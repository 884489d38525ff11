//! What an audit says of a log that was written of reports. The function has an empty body and is
//! called for its contract alone.
ghost use Rattle.std.specs.Prelude.{◌≡◌, List, map, Ok};
ghost use Rattle.dt_reports.specs.Entries.{Entry};
ghost use Rattle.dt_log.specs.Logs.{entry_words, log_text};
ghost use Rattle.dt_log.specs.Words.{spaced};
ghost use Rattle.dt_audit.specs.Audits.{ledger_of};
ghost use Rattle.dt_audit.specs.Books.{begun};
ghost use Rattle.dt_audit.specs.Facts.{fact_of};
ghost use Rattle.dt_audit.specs.LogRows.{by_rows};
ghost use Rattle.dt_audit.specs.Telling.{AreWritten, IsWritten, fact_told, follow_facts};

/// The line that the log writes of a report is read as the fact that the report states, whatever the
/// report; and the ledger of a log that was written of reports is what their facts lead to, one after
/// another.
pub fn logs_tell_the_facts_of_their_reports()
    ensures line { (entry : Entry) → IsWritten entry → fact_of (spaced (entry_words entry)) ≡ Ok (fact_told entry) }
    ensures log { (entries : List Entry) → AreWritten entries → ledger_of (log_text entries) ≡ follow_facts by_rows 1 (map fact_told entries) (begun by_rows) }
{}
