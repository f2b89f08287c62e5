//! The lines that tell circles of files.
ghost use Rattle.std.specs.Prelude.{◌≡◌, ◌++◌, IfOk, OnOk, string_bytes};
ghost use Rattle.std.specs.List.{flat_map};
ghost use Rattle.justfile_problem_lines.specs.Modules.{TellImports, circular_text, edge_text, edges_in, edges_of, last_step, name_at, ring_lines};

use circles::{Edge, find_circles};
use justfile_problems::{Link, ModuleFile, Target};
use std::alloc::{AllocError, Global};

/// Appends the step between files that an import or a module is, if it leads to one.
fn push_edge(link: &Link<'_>, edges: &mut Vec<Edge>) -> Result<(), AllocError>
    ensures { OnOk result (edges.new.items ≡ edges.old.items ++ edges_of link.now) }
{
    if let Target::File(to) = link.target {
        edges.push(Edge {
            from: link.from,
            to,
        })?;
    }
    Ok(())
}

/// Returns the steps between files that imports and modules are.
#[tactic(auto, using(std::proofs::lemmas::List::flat_map_more, std::proofs::lemmas::List::take_more))]
fn edges_in(alloc: Global, links: &[Link<'_>]) -> Result<Vec<Edge>, AllocError>
    ensures { IfOk result (λ edges. edges.items ≡ edges_in links.now) }
{
    let mut edges = Vec::new(alloc);
    for link in links {
        push_edge(link, &mut edges)?;
    }
    Ok(edges)
}

/// Returns the lines that tell the circles of imports and modules.
pub(crate) fn import_circles(
    alloc: Global,
    files: &[ModuleFile<'_>],
    links: &[Link<'_>],
) -> Result<String, AllocError>
    ensures { IfOk result (λ lines. TellImports files.now links.now (string_bytes lines)) }
{
    let edges = edges_in(alloc, links)?;
    let rings = find_circles(alloc, files.len(), &edges)?;
    rings_lines(alloc, files, &edges, &rings)
}

/// Returns the lines that tell circles of steps between files.
#[tactic(auto, using(std::proofs::lemmas::List::flat_map_more, std::proofs::lemmas::List::take_more))]
fn rings_lines(
    alloc: Global,
    files: &[ModuleFile<'_>],
    edges: &[Edge],
    rings: &[circles::Circle],
) -> Result<String, AllocError>
    ensures { IfOk result (λ lines. string_bytes lines
        ≡ flat_map (ring_lines files.now edges.now) rings.now) }
{
    let mut lines = String::new(alloc);
    for ring in rings {
        push_ring(files, edges, ring, &mut lines)?;
    }
    Ok(lines)
}

/// Appends the line that tells a circle: the step that leads back to where it begins.
fn push_ring(
    files: &[ModuleFile<'_>],
    edges: &[Edge],
    ring: &circles::Circle,
    lines: &mut String,
) -> Result<(), AllocError>
    ensures { OnOk result (string_bytes lines.new
        ≡ string_bytes lines.old ++ ring_lines files.now edges.now ring.now) }
{
    match edges.get(last_step(ring)) {
        Some(edge) => push_edge_line(files, *edge, lines),
        None => Ok(()),
    }
}

/// Returns the index of the step that leads back to where a circle begins.
fn last_step(ring: &circles::Circle) -> usize
    ensures { result ≡ last_step ring.now }
{
    match ring.others.last() {
        Some(index) => *index,
        None => ring.first,
    }
}

/// Appends the line that tells that an import is part of a circle.
fn push_edge_line(
    files: &[ModuleFile<'_>],
    edge: Edge,
    lines: &mut String,
) -> Result<(), AllocError>
    ensures { OnOk result (string_bytes lines.new
        ≡ string_bytes lines.old ++ edge_text files.now edge) }
{
    let import = name_at(files, edge.to);
    let current = name_at(files, edge.from);
    push_circular(import, current, lines)
}

/// Appends the line that tells that the import of a file in another one is part of a circle.
fn push_circular(import: &str, current: &str, lines: &mut String) -> Result<(), AllocError>
    ensures { OnOk result (string_bytes lines.new
        ≡ string_bytes lines.old ++ circular_text import.now current.now) }
{
    lines.push_str("error: import `")?;
    lines.push_str(import)?;
    lines.push_str("` in `")?;
    lines.push_str(current)?;
    lines.push_str("` is circular\n")?;
    Ok(())
}

/// Returns the name of the file with an index.
fn name_at<'a>(files: &[ModuleFile<'a>], index: usize) -> &'a str
    ensures { result.now ≡ name_at files.now index }
{
    match files.get(index) {
        Some(file) => file.name,
        None => "",
    }
}
