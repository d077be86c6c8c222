//! The fields of a line, and the faults that name a field.
ghost use Rattle.std.specs.Prelude.{◌≡◌, length, option_copied};
ghost use Rattle.gate_line.specs.Fields.{is_number, wrong};

/// A field: what must stand at a place of a line.
#[derive(Clone, Copy, Debug, PartialEq, Eq)]
pub enum Field {
    /// The number of a connection: digits, below 2^32.
    Connection,
    /// The number of a tenant: digits, below 2^32.
    Tenant,
    /// The number of a pipeline of its tenant: digits, below 2^32.
    Pipeline,
    /// A count: digits, below 2^32.
    Count,
    /// The number of a build set: digits, below 2^64.
    BuildSet,
    /// `success` or `failure`.
    Ending,
    /// The name of a job: the rest of the line, in UTF-8.
    Job,
    /// A record: the rest of the line, of any bytes.
    Record,
    /// The word `change` or `ref`, followed by the fields of that kind of key.
    Key,
    /// The number of a change: an `i64`, with at most one sign.
    Change,
    /// A revision, in UTF-8.
    Revision,
    /// The name of a ref, in UTF-8.
    Ref,
    /// The name of a project: the rest of the line, in UTF-8.
    Project,
    /// The end of the line.
    End,
}

impl Field {
    /// Returns whether the field is a number.
    pub fn is_number(self) -> bool
        ensures { result ≡ is_number self }
    {
        match self {
            Field::Connection | Field::Tenant | Field::Pipeline => true,
            Field::Count | Field::BuildSet | Field::Change => true,
            _ => false,
        }
    }

    // Returns the fault where this field should stand and `rest` stands instead.
    pub(crate) fn wrong(self, rest: Option<&[u8]>) -> LineFault
        ensures { result ≡ wrong self (option_copied rest.entry) }
    {
        match rest {
            None => LineFault::Missing(self),
            Some(text) => LineFault::Wrong(self, text.len()),
        }
    }
}

/// Why a line stands for nothing. Faults of a line name its first field from the left that is missing or wrong.
#[derive(Clone, Copy, Debug, PartialEq, Eq)]
pub enum LineFault {
    /// The line's first word is none that a line may begin with.
    Unknown,
    /// The line ends before this field.
    Missing(Field),
    /// The field is empty: there is a space too many before it, or one at the end of the line.
    Empty(Field),
    /// Something else stands in the place of this field. The number is how many bytes there are from that place to the end of the
    /// line.
    Wrong(Field, usize),
    /// Memory was refused for the copy of a text.
    Memory,
}
