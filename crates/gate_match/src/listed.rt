//! Finds the rows of a batch whose project a tenant lists.
ghost use Rattle.std.specs.Prelude.{◌≡◌, IfOk, map};
ghost use Rattle.gate_config.specs.Lookups.{belongs};
ghost use Rattle.gate_intern.specs.Marks.{numbers_where};
ghost use Rattle.gate_match.specs.Inner.Choosing.{listed_in};

use gate_config::Config;
use gate_intern::{Columns, Field, texts_mark_their_events};
use gate_match_rules::{Mask, number_text};
use gate_record::{ConnId, Memory, TenantId};
use std::alloc::Global;

// Returns the rows whose project the tenant lists under the connection. Each distinct project is looked up once.
pub(crate) fn listed_rows(
    alloc: Global,
    config: &Config,
    tenant: TenantId,
    conn: ConnId,
    columns: &Columns<'_>,
) -> Result<Mask, Memory>
    ensures { IfOk result (λ rows. rows ≡ listed_in config.now tenant.0 conn.0 columns.now) }
{
    texts_mark_their_events();
    let ids = listed_ids(alloc, config, tenant, conn, columns.texts(Field::Project))?;
    Mask::of_ids(alloc, columns.column(Field::Project), ids.as_slice())
}

fn listed_ids(
    alloc: Global,
    config: &Config,
    tenant: TenantId,
    conn: ConnId,
    projects: &[&str],
) -> Result<Vec<u32>, Memory>
    ensures { IfOk result (λ ids. ids.items ≡ numbers_where (belongs config.now tenant.0 conn.0) (map (λ text. text.now) projects.now)) }
{
    let mut ids = Vec::new(alloc);
    let mut id: u32 = 0;
    for project in projects {
        id = number_text(&mut ids, id, config.belongs(tenant, conn, project))?;
    }
    Ok(ids)
}
