//! Laws about limits, events and generations. A law is a function that does nothing: a call makes its contract known to a proof.
ghost use Rattle.std.specs.Prelude.{◌≡◌};
ghost use Rattle.gate_record.specs.Bytes.{EventsHaveBytes};
ghost use Rattle.gate_record.specs.Generations.{EntriesHaveGenerations, RecordsHaveGenerations};
ghost use Rattle.gate_record.specs.Limits.{longest_line, most_approvals, places};
ghost use Rattle.gate_record.specs.declared.approvals.TheConstants.{MAX_APPROVALS};
ghost use Rattle.gate_record.specs.declared.record.TheConstants.{MAX_LINE};
ghost use Rattle.gate_record.specs.declared.transit.TheConstants.{PLACES};

/// The constants of this crate are the numbers that the definitions name.
pub fn the_limits_are_as_defined()
    ensures line { MAX_LINE ≡ longest_line }
    ensures approvals { MAX_APPROVALS ≡ most_approvals }
    ensures places { PLACES ≡ places }
{}

/// The texts of each event that was read consist of bytes. The reason: a record is read as JSON only if it is UTF-8, and an
/// escape in a string stands for a character's UTF-8.
pub fn events_have_bytes()
    ensures { EventsHaveBytes }
{}

/// Entries that are put behind others have the generation that the others lead to. The generation in force after all entries of a
/// connection is the number of renewals among them. Each prefix of a connection's entries is again a list of entries of a
/// connection, with a prefix of its records.
pub fn entries_have_generations()
    ensures { EntriesHaveGenerations }
{}

/// A record that is put behind others has the last generation. A renewal that is put behind all records changes none of their
/// generations. Each record stands at its number.
pub fn records_have_generations()
    ensures { RecordsHaveGenerations }
{}
