//! Graphs.
//!
//! `new DEEDS` and `last DEEDS`: from an empty graph, or one whose next name is the greatest number, deeds are done one
//! after the other, and each tells something (`shared DEEDS`: a copy that shares the graph's lists is taken before each, and
//! behind what they tell stands the one from before the last): `add VALUE` the new node's name, `set NAME VALUE` and `delete NAME`
//! `done`, each of them its fault instead, `node NAME` the node's value or `none`, `raise NAME` the node's integer, to
//! which 1 was added by two exchanges at a path, or `none`, and `at NAME` the node's integer, read at a path, or
//! `none`.

ghost use Rattle.std.specs.Prelude.{IfOk};
ghost use Rattle.value_core.specs.View.{datum_of};
ghost use Rattle.graph_values.specs.Graphs.{IsGraph};

use crate::path_rows::{number_at, raised_at};
use crate::value_rows::value_of;
use graph_values::{graphs_law, new_graph, node};
use orca_base::NoMemory;
use row_files::{Row, RowError, add_part, flat, integer, malformed, said};
use std::alloc::Global;
use value_core::{BoxedParts, Parts, Value};
use value_paths::Step;
use value_writes::{GraphError, add_node, delete_node, set_node};

/// What a row's call answers.
pub fn answer(alloc: Global, row: &Row<'_>) -> Result<String, RowError> {
    match (row.verb(), row.given()) {
        ("new", [deeds]) => done_all(alloc, new_graph(alloc)?, deeds, false),
        ("shared", [deeds]) => done_all(alloc, new_graph(alloc)?, deeds, true),
        ("last", [deeds]) => done_all(alloc, last_graph(alloc)?, deeds, false),
        _ => malformed("no call"),
    }
}

// A graph without nodes, whose next name is the greatest number.
fn last_graph(alloc: Global) -> Result<Value, NoMemory>
    ensures { IfOk result (λ g. IsGraph (datum_of g)) }
{
    let nodes = BoxedParts::new(alloc, Parts::new(alloc))?;
    let mut fields = Parts::new(alloc);
    fields.push(Value::Int(i64::MAX))?;
    fields.push(Value::Set(nodes))?;
    graphs_law();
    let graph = BoxedParts::new(alloc, fields)?;
    Ok(Value::Fields(graph))
}

// The deeds one after the other.
fn done_all(alloc: Global, first: Value, deeds: &str, is_shared: bool) -> Result<String, RowError>
    requires { IsGraph (datum_of first) }
{
    let mut graph = first;
    let mut kept = None;
    let mut answer = String::new(alloc);
    for deed in deeds.split(", ") {
        if is_shared {
            kept = Some(graph.copy(alloc)?);
        }
        let told = done(alloc, &mut graph, deed)?;
        add_part(&mut answer, told.as_str())?;
    }
    if let Some(kept) = &kept {
        let kept = flat::value_text(alloc, kept)?;
        add_part(&mut answer, kept.as_str())?;
    }
    Ok(answer)
}

// One deed.
fn done(alloc: Global, graph: &mut Value, deed: &str) -> Result<String, RowError>
    requires { IsGraph (datum_of graph.old) }
    ensures { IsGraph (datum_of graph.new) }
{
    match deed.split_once(' ') {
        Some(("add", value)) => {
            let value = value_of(alloc, value)?;
            named(alloc, add_node(alloc, graph, value))
        }
        Some(("set", given)) => set(alloc, graph, given),
        Some(("delete", name)) => made(alloc, delete_node(alloc, graph, integer(name)?)),
        Some(("node", name)) => node_text(alloc, graph, integer(name)?),
        Some(("raise", name)) => {
            let step = Step::Node {
                name: integer(name)?,
            };
            number_text(alloc, raised_at(alloc, graph, step))
        }
        Some(("at", name)) => {
            let step = Step::Node {
                name: integer(name)?,
            };
            number_text(alloc, number_at(graph, step))
        }
        _ => malformed("no deed"),
    }
}

fn set(alloc: Global, graph: &mut Value, given: &str) -> Result<String, RowError>
    requires { IsGraph (datum_of graph.old) }
    ensures { IsGraph (datum_of graph.new) }
{
    match given.split_once(' ') {
        Some((name, value)) => {
            let name = integer(name)?;
            let value = value_of(alloc, value)?;
            made(alloc, set_node(alloc, graph, name, value))
        }
        None => malformed("no name and value"),
    }
}

// What is told of a fault.
fn fault_text(alloc: Global, error: GraphError) -> Result<String, RowError> {
    match error {
        GraphError::Fault { fault } => Ok(format!(in alloc; "fault {fault:?}")?),
        GraphError::NoMemory => Err(RowError::NoMemory),
    }
}

fn named(alloc: Global, answer: Result<i64, GraphError>) -> Result<String, RowError> {
    match answer {
        Ok(name) => Ok(format!(in alloc; "{name}")?),
        Err(error) => fault_text(alloc, error),
    }
}

fn made(alloc: Global, answer: Result<(), GraphError>) -> Result<String, RowError> {
    match answer {
        Ok(()) => said(alloc, "done"),
        Err(error) => fault_text(alloc, error),
    }
}

fn node_text(alloc: Global, graph: &Value, name: i64) -> Result<String, RowError>
    requires { IsGraph (datum_of graph.now) }
{
    match node(graph, name) {
        Some(value) => flat::value_text(alloc, value),
        None => said(alloc, "none"),
    }
}

fn number_text(alloc: Global, number: Option<i64>) -> Result<String, RowError> {
    match number {
        Some(number) => Ok(format!(in alloc; "{number}")?),
        None => said(alloc, "none"),
    }
}
