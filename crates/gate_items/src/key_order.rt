//! The order of keys, by which a map finds them.
ghost use Rattle.std.specs.Prelude.{Some, refl};
ghost use Rattle.std.specs.Cmp.{eq_by_cmp_equiv, partial_equiv_from_equiv, partial_order_from_agreeing_total};
ghost use Rattle.std.specs.Ordering.{is_eq};
ghost use Rattle.gate_items.specs.KeyOrder.{key_cmp, key_cmp_total};

use crate::key::Key;
use std::cmp::Ordering;

// Changes come before refs. Keys of one kind are compared field by field.

impl PartialEq for Key {
    ghost eq = { λ x y. is_eq (key_cmp x y) };

    ghost laws = { partial_equiv_from_equiv (eq_by_cmp_equiv key_cmp_total) };

    fn eq(&self, other: &Key) -> bool {
        self.is_same(other)
    }
}

impl Eq for Key {
    ghost laws = { eq_by_cmp_equiv key_cmp_total };
}

impl PartialOrd for Key {
    ghost partial_cmp = { λ x y. Some (key_cmp x y) };

    ghost laws = { partial_order_from_agreeing_total key_cmp key_cmp_total (λ x y. refl) (λ x y. refl) };

    fn partial_cmp(&self, other: &Key) -> Option<Ordering> {
        Some(self.cmp(other))
    }
}

impl Ord for Key {
    ghost cmp = { key_cmp };

    ghost total = { key_cmp_total };

    ghost matches_partial_cmp = { λ x y. refl };

    ghost matches_eq = { λ x y. refl };

    fn cmp(&self, other: &Key) -> Ordering {
        match (self, other) {
            (
                Key::Change { conn, number },
                Key::Change {
                    conn: other_conn,
                    number: other_number,
                },
            ) => conn.0.cmp(&other_conn.0).then(number.cmp(other_number)),
            (
                Key::Ref {
                    conn,
                    project,
                    refname,
                    newrev,
                },
                Key::Ref {
                    conn: other_conn,
                    project: other_project,
                    refname: other_refname,
                    newrev: other_newrev,
                },
            ) => {
                let names = refname
                    .as_str()
                    .cmp(other_refname.as_str())
                    .then(newrev.as_str().cmp(other_newrev.as_str()));
                let projects = project.as_str().cmp(other_project.as_str()).then(names);
                conn.0.cmp(&other_conn.0).then(projects)
            }
            (Key::Change { .. }, Key::Ref { .. }) => Ordering::Less,
            (Key::Ref { .. }, Key::Change { .. }) => Ordering::Greater,
        }
    }
}
