//! Draws a configuration as a graph in Graphviz's language DOT: connections, tenants as boxes around their pipelines, and the rules in
//! words on the edges between.
mod label;

use crate::document::{Document, Listing, Tenant, manager_word};
use crate::names::{Added, Named};
use crate::picture::label::{Line, push_line, push_lines};
use crate::sentences::RuleSentence;
use gate_record::ConnId;

// The settings of the graph: how all of it is drawn.
const HEAD: &str = "digraph gate {
    rankdir=LR;
    nodesep=0.4;
    labeljust=l;
    fontname=\"Helvetica\";
    node [shape=box, colorscheme=dark28, fontname=\"Helvetica\"];
    edge [headport=w, colorscheme=dark28, fontname=\"Helvetica\", fontsize=10];
";

/// Adds the graph of the last of these documents.
pub fn push_picture(out: &mut String, documents: &[Document<'_>]) -> Added {
    out.push_str(HEAD)?;
    if let Some(document) = documents.last() {
        let g = documents.len().saturating_sub(1);
        if g > 0 {
            writeln!(out, "    labelloc=t;\n    label=\"Generation {g}\";")?;
        }
        push_document(out, document)?;
    }
    Ok(out.push_str("}\n")?)
}

fn push_document(out: &mut String, document: &Document<'_>) -> Added {
    for (number, name) in document.config.connections().iter().enumerate() {
        write!(
            out,
            "    connection_{number} [shape=cylinder, color={}, ",
            color_of(number)
        )?;
        push_name(out, name.as_str())?;
        out.push_str("\"];\n")?;
    }
    if document.tenants.is_empty() {
        out.push_str("    no_tenants [shape=plaintext, label=\"There are no tenants.\"];\n")?;
    }
    for (number, tenant) in document.tenants.iter().enumerate() {
        push_cluster(out, number, tenant)?;
        push_edges(out, number, tenant)?;
    }
    Ok(())
}

// The color of the connection of this number and of its edges. The color scheme has eight colors.
fn color_of(number: usize) -> usize {
    number % 8 + 1
}

// Begins a label with a name, which is in quotes where it isn't plain.
fn push_name(out: &mut String, name: &str) -> Added {
    let alloc = *out.allocator();
    let name = format!(in alloc; "{}", Named(name))?;
    Ok(write!(out, "label=\"{}", Line(name.as_str()))?)
}

// Draws a tenant as a box around its pipelines. A tenant without pipelines gets a node that says so, because Graphviz draws no empty box.
fn push_cluster(out: &mut String, number: usize, tenant: &Tenant<'_>) -> Added {
    write!(out, "\n    subgraph cluster_{number} {{\n        label=\"")?;
    push_heading(out, tenant)?;
    out.push_str("\";\n")?;
    if tenant.pipelines().is_empty() {
        write!(out, "        no_pipelines_{number} ")?;
        out.push_str("[shape=plaintext, label=\"no pipelines\"];\n")?;
    }
    for (place, pipeline) in tenant.pipelines().iter().enumerate() {
        write!(out, "        pipeline_{number}_{place} [")?;
        push_name(out, pipeline.name.as_str())?;
        writeln!(out, "\\n{}\"];", manager_word(pipeline.manager))?;
    }
    Ok(out.push_str("    }\n")?)
}

// Adds the tenant's name, and how many projects it lists under each connection.
fn push_heading(out: &mut String, tenant: &Tenant<'_>) -> Added {
    let alloc = *out.allocator();
    let heading = format!(in alloc; "Tenant {}", Named(tenant.name))?;
    push_line(out, heading.as_str())?;
    if tenant.listings.is_empty() {
        push_line(out, "no connections")?;
    }
    for listing in tenant.listings.as_slice() {
        let name = Named(listing.name);
        let line = match listing.projects.len() {
            0 => format!(in alloc; "no projects under {name}")?,
            1 => format!(in alloc; "1 project under {name}")?,
            count => format!(in alloc; "{count} projects under {name}")?,
        };
        push_line(out, line.as_str())?;
    }
    Ok(())
}

fn push_edges(out: &mut String, number: usize, tenant: &Tenant<'_>) -> Added {
    for place in 0..tenant.pipelines().len() {
        for listing in tenant.listings.as_slice() {
            push_edges_between(out, number, tenant, place, listing)?;
        }
    }
    Ok(())
}

// Adds an edge for each rule. A connection under which the tenant lists no project gets none, because no event of it enters.
fn push_edges_between(
    out: &mut String,
    number: usize,
    tenant: &Tenant<'_>,
    place: usize,
    listing: &Listing<'_>,
) -> Added {
    if listing.projects.is_empty() {
        return Ok(());
    }
    let alloc = *out.allocator();
    let ConnId(connection) = listing.connection;
    let color = color_of(connection as usize);
    for rule in tenant.rules(place, listing) {
        write!(
            out,
            "    connection_{connection} -> pipeline_{number}_{place} "
        )?;
        write!(out, "[color={color}, fontcolor={color}, label=\"")?;
        let text = format!(in alloc; "{}", RuleSentence(rule))?;
        push_lines(out, text.as_str())?;
        out.push_str("\"];\n")?;
    }
    Ok(())
}
