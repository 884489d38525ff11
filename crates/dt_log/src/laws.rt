//! What whoever reads a log rests on. Each function has an empty body and is called for its contract
//! alone.
ghost use Rattle.std.specs.Prelude.{◌≡◌, ◌==◌, List, [], ◌∷◌, ◌++◌, map};
ghost use Rattle.std.specs.List.{slice_split};
ghost use Rattle.dt_reports.specs.Entries.{Entry};
ghost use Rattle.dt_log.specs.Words.{spaced};
ghost use Rattle.dt_log.specs.Logs.{entry_words, log_text};

/// A log that is cut at its line feeds gives the lines back, with nothing after the last line feed,
/// and a line that is cut at its spaces gives its words back.
pub fn logs_are_cut_into_their_words()
    ensures lines { (entries : List Entry) → slice_split (λ octet. octet == 10) (log_text entries) ≡ map (λ entry. spaced (entry_words entry)) entries ++ [] ∷ [] }
    ensures words { (entry : Entry) → slice_split (λ octet. octet == 32) (spaced (entry_words entry)) ≡ entry_words entry }
{}
