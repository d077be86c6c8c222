//! Says in words what a configuration says: the projects that each tenant lists, and what each of its pipelines asks for and runs.
use crate::document::{Document, Listing, Tenant};
use crate::names::{Added, Quoted, QuotedList};
use crate::sentences::RuleSentence;
use gate_record::{ManagerKind, Text};
use gate_rule::Rule;

const INDEPENDENT: &str =
    "independent: each item stands alone, and is reported when its own jobs have ended.";

const DEPENDENT: &str =
    "dependent: items stand in order; when one fails, those behind it get new build sets; the first is reported when its jobs have ended.";

/// Adds what a document says of each tenant.
pub fn push_tenants(out: &mut String, document: &Document<'_>) -> Added {
    if document.tenants.is_empty() {
        out.push_str("There are no tenants.\n\n")?;
    }
    for tenant in document.tenants.as_slice() {
        push_tenant(out, tenant)?;
    }
    Ok(())
}

fn push_tenant(out: &mut String, tenant: &Tenant<'_>) -> Added {
    writeln!(out, "Tenant {}", Quoted(tenant.name))?;
    if tenant.listings.is_empty() {
        out.push_str("  It lists no connection, so no event reaches its pipelines.\n")?;
    }
    for listing in tenant.listings.as_slice() {
        push_listing(out, listing)?;
    }
    if tenant.pipelines().is_empty() {
        out.push_str("  It has no pipeline, so no event is selected.\n")?;
    }
    for place in 0..tenant.pipelines().len() {
        push_pipeline(out, tenant, place)?;
    }
    Ok(out.push_str("\n")?)
}

fn push_listing(out: &mut String, listing: &Listing<'_>) -> Added {
    write!(out, "  Under {} it lists ", Quoted(listing.name))?;
    if listing.projects.is_empty() {
        out.push_str("no projects")?;
    }
    let mut between = "";
    for project in listing.projects.iter() {
        write!(out, "{between}{}", Quoted(project.as_str()))?;
        between = ", ";
    }
    Ok(out.push_str(".\n")?)
}

fn push_pipeline(out: &mut String, tenant: &Tenant<'_>, place: usize) -> Added {
    if let Some(pipeline) = tenant.pipelines().get(place) {
        let name = Quoted(pipeline.name.as_str());
        let manager = match pipeline.manager {
            ManagerKind::Independent => INDEPENDENT,
            ManagerKind::Dependent => DEPENDENT,
        };
        writeln!(out, "\n  Pipeline {name}, {manager}")?;
    }
    for listing in tenant.listings.as_slice() {
        push_connection(out, tenant, place, listing)?;
    }
    Ok(())
}

// Adds the rules of a pipeline for a connection and, where there is a rule, the jobs of the connection's projects.
fn push_connection(
    out: &mut String,
    tenant: &Tenant<'_>,
    place: usize,
    listing: &Listing<'_>,
) -> Added {
    let rules = tenant.rules(place, listing);
    write!(out, "    From {} ", Quoted(listing.name))?;
    if listing.projects.is_empty() {
        return Ok(out.push_str("nothing enters: no project is listed there.\n")?);
    }
    if rules.is_empty() {
        return Ok(out.push_str("nothing enters: there is no rule for it.\n")?);
    }
    push_rules(out, rules)?;
    for project in listing.projects.iter() {
        push_jobs(out, project.as_str(), tenant.jobs(place, project.as_str()))?;
    }
    Ok(())
}

fn push_rules(out: &mut String, rules: &[Rule]) -> Added {
    match rules.len() {
        1 => out.push_str("an event enters where\n")?,
        count => writeln!(out, "an event enters where one of these {count} holds:")?,
    }
    for rule in rules {
        writeln!(out, "      - {}.", RuleSentence(rule))?;
    }
    Ok(())
}

fn push_jobs(out: &mut String, project: &str, jobs: &[Text]) -> Added {
    write!(out, "    {} ", Quoted(project))?;
    if jobs.is_empty() {
        Ok(out.push_str("has no jobs here: its events are discarded (no-jobs).\n")?)
    } else {
        Ok(writeln!(out, "runs {}.", QuotedList(jobs))?)
    }
}
