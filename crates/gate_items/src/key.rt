//! `Key`, which tells the items of a pipeline apart.
ghost use Rattle.std.specs.Prelude.{◌≡◌, IfOk};
ghost use Rattle.gate_items.specs.Keys.{is_same};

use gate_record::{ConnId, Memory, Text};
use std::alloc::Global;

/// What a queue item is for: a change, or an update of a ref. Keys are compared field by field.
#[derive(Debug, Drop)]
pub enum Key {
    /// A change in the Gerrit of a connection.
    Change {
        /// The connection of that Gerrit.
        conn: ConnId,
        /// The change's number.
        number: i64,
    },
    /// An update of a ref.
    Ref {
        /// The connection of the Gerrit whose ref it is.
        conn: ConnId,
        /// The project whose ref it is.
        project: Text,
        /// The ref's name.
        refname: Text,
        /// The revision that the ref has after the update.
        newrev: Text,
    },
}

impl Key {
    /// Returns whether both keys are of one kind and have the same fields.
    pub fn is_same(&self, other: &Key) -> bool
        ensures { result ≡ is_same self.now other.now }
    {
        match (self, other) {
            (
                Key::Change { conn, number },
                Key::Change {
                    conn: other_conn,
                    number: other_number,
                },
            ) => conn.0 == other_conn.0 && number == other_number,
            (
                Key::Ref {
                    conn,
                    project,
                    refname,
                    newrev,
                },
                Key::Ref {
                    conn: other_conn,
                    project: other_project,
                    refname: other_refname,
                    newrev: other_newrev,
                },
            ) => {
                conn.0 == other_conn.0
                    && project.as_str() == other_project.as_str()
                    && refname.as_str() == other_refname.as_str()
                    && newrev.as_str() == other_newrev.as_str()
            }
            _ => false,
        }
    }

    /// Returns a copy of the key. Only the texts of a ref's key take memory.
    pub fn copy(&self, alloc: Global) -> Result<Key, Memory>
        ensures { IfOk result (λ copy. copy ≡ self.now) }
    {
        match self {
            Key::Change { conn, number } => Ok(Key::Change {
                conn: *conn,
                number: *number,
            }),
            Key::Ref {
                conn,
                project,
                refname,
                newrev,
            } => Ok(Key::Ref {
                conn: *conn,
                project: Text::copy(alloc, project.as_str())?,
                refname: Text::copy(alloc, refname.as_str())?,
                newrev: Text::copy(alloc, newrev.as_str())?,
            }),
        }
    }
}
