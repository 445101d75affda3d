//! A prepared statement.

ghost use Rattle.std.specs.Prelude.{◌≡◌, ◌<◌, ◌+◌, ◌-◌, length, replicate, IfOk, IfSome, IfNone, IsOk, OnOk, OnErr, map};
ghost use Rattle.mysql_statements.specs.Binding as binding;
ghost use Rattle.mysql_statements.specs.Statement as spec;

use crate::binding::bind;
use crate::layout::Layout;
use crate::row_column::RowColumn;
use mysql_stmt::BoundParam;
use mysql_values::ParamType;
use mysql_wire::{ColumnType, Flags, ParseBuf, StmtExecuteParamFlags};
use std::alloc::{AllocError, Global};
use std::marker::Model;

/// A parameter whose type is unknown.
fn untyped() -> BoundParam
    ensures { result ≡ spec.untyped }
{
    BoundParam {
        param_type: ParamType::new(
            ColumnType::MYSQL_TYPE_NULL,
            StmtExecuteParamFlags::from_bits_retain(0),
        ),
        is_sent_ahead: false,
    }
}

/// `count` parameters, none with a known type. Without parameters no memory is allocated.
fn untyped_params(alloc: Global, count: u16) -> Result<Vec<BoundParam>, AllocError>
    ensures value { IfOk result (λ params. params.items ≡ replicate count spec.untyped) }
    ensures no_memory { count ≡ 0 → IsOk result }
{
    if count == 0 {
        return Ok(Vec::new(alloc));
    }
    vec![in alloc; untyped(); usize::from(count)]
}

/// Sets the type of the parameter that `left` others follow.
#[tactic(auto, using(crate::proofs::Params::params))]
fn set_type(params: &mut [BoundParam], left: usize, param_type: ParamType)
    ensures { params.new ≡ spec.at (length params.old - left) (spec.with_type param_type) params.old }
{
    let place = params.len().saturating_sub(left);
    if place < params.len() {
        params[place].param_type = param_type;
    }
}

/// Records that the data of a parameter is sent ahead.
#[tactic(auto, using(crate::proofs::Params::params))]
fn mark_sent(params: &mut [BoundParam], place: usize)
    ensures { params.new ≡ spec.at place spec.sent_ahead params.old }
{
    if place < params.len() {
        params[place].is_sent_ahead = true;
    }
}

/// Drops the data that was sent ahead.
#[tactic(auto, using(crate::proofs::Params::params))]
fn drop_data(params: &mut [BoundParam])
    ensures { params.new ≡ map spec.without_data params.old }
{
    for place in 0..params.len() {
        params[place].is_sent_ahead = false;
    }
}

/// A prepared statement: its parameters and the columns of its last result.
#[derive(Drop)]
pub struct Statement {
    id: u32,
    params: Vec<BoundParam>,
    is_bound: bool,
    width: u64,
    columns: Vec<RowColumn>,
}

impl Model for Statement {
    ghost use Rattle.mysql_statements.specs.Kept.{Kept};

    ghost Value = { Kept };

    ghost view = { λ s. record { id = s.id; params = s.params.items; is_bound = s.is_bound; width = s.width; columns = s.columns.items } };
}

impl Statement {
    /// Creates a statement with these counts of parameters and columns, without definitions.
    pub(crate) fn new(alloc: Global, id: u32, params: u16, columns: u16) -> Result<Self, AllocError>
        ensures value { IfOk result (λ s. s ≡ spec.undefined id params columns) }
        ensures no_memory { params ≡ 0 → IsOk result }
    {
        let params = untyped_params(alloc, params)?;
        Ok(Statement {
            id,
            params,
            is_bound: false,
            width: u64::from(columns),
            columns: Vec::new(alloc),
        })
    }

    /// The number that the server gave the statement.
    pub fn id(&self) -> u32
        ensures value { result ≡ spec.id self.now }
    {
        self.id
    }

    /// The parameters, for [`ExecuteParamsView`](mysql_stmt::ExecuteParamsView).
    ///
    /// Each has the type that the last execution with types sent, before the first such execution that of its
    /// definition, and whether its data was sent ahead.
    pub fn params(&self) -> &[BoundParam]
        ensures value { result.now ≡ spec.params self.now }
    {
        self.params.as_slice()
    }

    /// Whether an execution has sent the types of the parameters. Before that, an execution without types can't
    /// be read.
    pub fn is_bound(&self) -> bool
        ensures value { result ≡ spec.is_bound self.now }
    {
        self.is_bound
    }

    /// The number of columns of the last result, or before the first result, of the preparation.
    pub fn width(&self) -> u64
        ensures value { result ≡ spec.width self.now }
    {
        self.width
    }

    /// The columns of the last result, for [`BinaryRowView`](mysql_stmt::BinaryRowView), if all of their
    /// definitions have come and are kept.
    pub fn columns(&self) -> Option<&[RowColumn]>
        ensures some { IfSome result (λ columns. spec.columns self.now ≡ Some columns.now) }
        ensures none { IfNone result (spec.columns self.now ≡ None) }
    {
        if self.columns.len() as u64 == self.width {
            Some(self.columns.as_slice())
        } else {
            None
        }
    }

    /// The number of types that are left of `types` after those of the statement.
    pub(crate) fn left_of(&self, types: usize) -> Option<usize>
        ensures some { IfSome result (λ left. left + spec.types self.now ≡ types) }
        ensures none { IfNone result (types < spec.types self.now) }
    {
        types
            .checked_sub(self.params.len())?
            .checked_sub(self.columns.len())
    }

    /// Takes the definition of a parameter, of which `left` follow.
    pub(crate) fn define_param(&mut self, left: usize, column: RowColumn)
        ensures { self.new ≡ spec.with_param left column self.old }
    {
        set_type(&mut self.params, left, column.param_type());
    }

    /// Takes the definition of a column.
    pub(crate) fn define_column(&mut self, column: RowColumn) -> Result<(), AllocError>
        ensures ok { OnOk result (self.new ≡ spec.with_column column self.old) }
        ensures err { OnErr result (self.new ≡ self.old) }
    {
        self.columns.push(column)?;
        Ok(())
    }

    /// Begins a result of `width` columns, whose definitions follow or not.
    pub(crate) fn begin_result(&mut self, width: u64, follow: bool)
        ensures { self.new ≡ spec.with_result width follow self.old }
    {
        self.width = width;
        if follow {
            self.columns.clear();
        }
    }

    /// Records that data of a parameter was sent ahead.
    pub(crate) fn send_ahead(&mut self, place: usize)
        ensures { self.new ≡ spec.with_data place self.old }
    {
        mark_sent(&mut self.params, place);
    }

    /// Takes an execution, which sets the types of the parameters, or leaves them, and uses up the data that
    /// was sent ahead.
    pub(crate) fn execute(&mut self, alloc: Global, layout: Layout, payload: &[u8])
        ensures { self.new ≡ binding.with_execution layout payload.now self.old }
    {
        if bind(layout, &mut self.params, ParseBuf::new(alloc, payload)) {
            self.is_bound = true;
        }
        drop_data(&mut self.params);
    }

    /// Drops the data that was sent ahead.
    pub(crate) fn drop_data(&mut self)
        ensures { self.new ≡ spec.with_no_data self.old }
    {
        drop_data(&mut self.params);
    }
}
