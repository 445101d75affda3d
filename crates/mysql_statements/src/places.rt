//! Statements by their numbers.

ghost use Rattle.std.specs.Prelude.{◌≡◌, ◌<◌, ◌+◌, length, vec_len, vec_capacity, true, IfSome, IfNone, OnOk, OnErr, Some, None};
ghost use Rattle.mysql_statements.specs.Bounds.{is_known};
ghost use Rattle.mysql_statements.specs.Binding as binding;
ghost use Rattle.mysql_statements.specs.Statement as statement;
ghost use Rattle.mysql_statements.specs.Table as spec;

use crate::layout::Layout;
use crate::row_column::RowColumn;
use crate::statement::Statement;
use std::alloc::{AllocError, Global};

/// The position of the statement with that number, by a linear search.
#[tactic(auto, using(crate::proofs::Numbers::steps))]
pub(crate) fn place_of(statements: &[Statement], id: u32) -> Option<usize>
    ensures value { result ≡ spec.place_of id statements.now }
    ensures within { IfSome result (λ place. place < length statements.now) }
{
    for place in 0..statements.len() {
        if statements[place].id() == id {
            return Some(place);
        }
    }
    None
}

/// Returns the statement of this number.
#[tactic(auto, using(crate::proofs::Numbers::places))]
pub(crate) fn find(statements: &[Statement], id: u32) -> Option<&Statement>
    ensures some { IfSome result (λ s. spec.find id statements.now ≡ Some s.now) }
    ensures none { IfNone result (spec.find id statements.now ≡ None) }
{
    let place = place_of(statements, id)?;
    Some(&statements[place])
}

/// Removes the statement with that number, by a linear search. If there was one, the list has capacity for another.
#[tactic(auto, using(crate::proofs::Numbers::gone))]
pub(crate) fn forget(statements: &mut Vec<Statement>, id: u32)
    ensures gone { statements.new.items ≡ spec.without id statements.old.items }
    ensures spare { is_known id statements.old.items ≡ true → vec_len statements.new < vec_capacity statements.new }
{
    while let Some(place) = place_of(statements, id) {
        statements.remove(place);
    }
}

/// Takes the definition of a parameter, of which `left` follow.
#[tactic(auto, using(crate::proofs::Numbers::places))]
pub(crate) fn define_param(statements: &mut [Statement], id: u32, left: usize, column: RowColumn)
    ensures { statements.new ≡ spec.change id (statement.with_param left column) statements.old }
{
    if let Some(place) = place_of(statements, id) {
        statements[place].define_param(left, column);
    }
}

/// Takes the definition of a column.
#[tactic(auto, using(crate::proofs::Numbers::places))]
pub(crate) fn define_column(
    statements: &mut [Statement],
    id: u32,
    column: RowColumn,
) -> Result<(), AllocError>
    ensures ok { OnOk result (statements.new ≡ spec.change id (statement.with_column column) statements.old) }
    ensures err { OnErr result (statements.new ≡ statements.old) }
    ensures known { OnErr result (is_known id statements.old ≡ true) }
{
    if let Some(place) = place_of(statements, id) {
        statements[place].define_column(column)?;
    }
    Ok(())
}

/// Begins a result of a given number of columns, whose definitions follow or not.
#[tactic(auto, using(crate::proofs::Numbers::places))]
pub(crate) fn begin_result(statements: &mut [Statement], id: u32, width: u64, follow: bool)
    ensures { statements.new ≡ spec.change id (statement.with_result width follow) statements.old }
{
    if let Some(place) = place_of(statements, id) {
        statements[place].begin_result(width, follow);
    }
}

/// Takes an execution.
#[tactic(auto, using(crate::proofs::Numbers::places))]
pub(crate) fn execute(
    statements: &mut [Statement],
    alloc: Global,
    id: u32,
    layout: Layout,
    payload: &[u8],
)
    ensures { statements.new ≡ spec.change id (binding.with_execution layout payload.now) statements.old }
{
    if let Some(place) = place_of(statements, id) {
        statements[place].execute(alloc, layout, payload);
    }
}

/// Records that data of a parameter is sent ahead.
#[tactic(auto, using(crate::proofs::Numbers::places))]
pub(crate) fn send_ahead(statements: &mut [Statement], id: u32, param: usize)
    ensures { statements.new ≡ spec.change id (statement.with_data param) statements.old }
{
    if let Some(place) = place_of(statements, id) {
        statements[place].send_ahead(param);
    }
}

/// Drops the data that was sent ahead.
#[tactic(auto, using(crate::proofs::Numbers::places))]
pub(crate) fn drop_data(statements: &mut [Statement], id: u32)
    ensures { statements.new ≡ spec.change id statement.with_no_data statements.old }
{
    if let Some(place) = place_of(statements, id) {
        statements[place].drop_data();
    }
}

/// Returns the number of types that may still be kept.
#[tactic(auto, using(crate::proofs::Numbers::counts))]
fn left_of(limit: usize, statements: &[Statement]) -> Option<usize>
    ensures some { IfSome result (λ left. left + spec.held statements.now ≡ limit) }
    ensures none { IfNone result (limit < spec.held statements.now) }
{
    let mut left = limit;
    for statement in statements {
        left = statement.left_of(left)?;
    }
    Some(left)
}

/// Whether this number of types may still be kept. It visits each statement.
pub(crate) fn has_capacity(limit: usize, statements: &[Statement], wanted: u64) -> bool
    ensures { result ≡ spec.has_capacity limit statements.now wanted }
{
    match left_of(limit, statements) {
        Some(left) => wanted <= left as u64,
        None => false,
    }
}
