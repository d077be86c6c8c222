//! What a run is to have processed, counted anew.
use crate::mixed::{CONNECTIONS, selects};
use gate_core::{PipelineReport, RunReport};
use gate_record::Stamp;

/// How many of the report's pipelines are finished and have processed, of what was accepted of each connection, just the
/// records that they select, each by the generation that was in force, in order.
pub fn complete(report: &RunReport) -> u32 {
    let mut complete = 0u32;
    for (tenant, pipelines) in (0u32..).zip(report.pipelines.as_slice()) {
        for (pipeline, said) in (0u32..).zip(pipelines.as_slice()) {
            if is_complete(report, tenant, pipeline, said) {
                complete = complete.saturating_add(1);
            }
        }
    }
    complete
}

/// How many records were accepted, of all connections.
pub fn accepted(report: &RunReport) -> u64 {
    let mut accepted = 0u64;
    for connection in report.connections.as_slice() {
        accepted = accepted.saturating_add(connection.accepted);
    }
    accepted
}

/// How many marks were put, over all connections.
pub fn renewals(report: &RunReport) -> usize {
    let mut renewals = 0usize;
    for connection in report.connections.as_slice() {
        renewals = renewals.saturating_add(connection.renewals.as_slice().len());
    }
    renewals
}

fn is_complete(report: &RunReport, tenant: u32, pipeline: u32, said: &PipelineReport) -> bool {
    let mut places = [0u32; CONNECTIONS as usize];
    for stamp in said.done.as_slice() {
        if !goes_on(report, tenant, pipeline, &mut places, *stamp) {
            return false;
        }
    }
    said.finished
        && (0..CONNECTIONS).all(|it| next(
            report,
            tenant,
            pipeline,
            it,
            places[it as usize],
        ).is_none())
}

// Whether a stamp is the next that is wanted of its connection, behind which the places then stand.
fn goes_on(
    report: &RunReport,
    tenant: u32,
    pipeline: u32,
    places: &mut [u32; CONNECTIONS as usize],
    stamp: Stamp,
) -> bool {
    let connection = stamp.conn.0;
    if connection >= CONNECTIONS {
        return false;
    }
    let place = &mut places[connection as usize];
    match next(report, tenant, pipeline, connection, *place) {
        Some(number) if u64::from(number) == stamp.number => {
            *place = number.saturating_add(1);
            true
        }
        _ => false,
    }
}

// The first record from a place on that was accepted and is selected.
fn next(
    report: &RunReport,
    tenant: u32,
    pipeline: u32,
    connection: u32,
    place: u32,
) -> Option<u32> {
    let told = report.connections.get(connection as usize)?;
    let accepted = u32::try_from(told.accepted).unwrap_or(u32::MAX);
    let renewals = told.renewals.as_slice();
    (place..accepted).find(|number| selects(
        in_force(renewals, *number),
        tenant,
        pipeline,
        connection,
        *number,
    ))
}

// The generation in force at a record, where each renewal stands behind so many records.
fn in_force(renewals: &[u64], number: u32) -> u32 {
    let mut generation = 0u32;
    for behind in renewals {
        if *behind <= u64::from(number) {
            generation = generation.saturating_add(1);
        }
    }
    generation
}
