//! Parameters and attributes of an execution.
#![tactic(auto, using(crate::proofs::SentBytes::plain), unfolding(mysql_wire::specs::Writing::saturated))]

ghost use Rattle.std.specs.Prelude.{◌≡◌, ◌+◌, ◌++◌, ◌≤◌, length, drop};
ghost use Rattle.mysql_wire.specs.Writing.{saturated};
ghost use Rattle.mysql_values.specs.ParamType.{type_of};
ghost use Rattle.mysql_stmt.specs.BinaryRow.{bin_in, takes_param};
ghost use Rattle.mysql_stmt.specs.ExecuteParam as spec;
ghost use Rattle.mysql_stmt.specs.NullMarks.{is_null};
ghost use Rattle.mysql_stmt.specs.SentParam.{bytes_under, is_spelled_under};

use crate::binary_row::{append_cell, cell_len, takes, takes_param};
use crate::sent_params::{append_plain, append_sent, is_spelled, plain_len, sent_len, typed_value};
use mysql_values::{DateTimeWithOffset, ParamType, ParamValue, Value, ValueRef};
use mysql_wire::{Buffer, ColumnType, MySerialize};

/// A parameter of an execution: a value, one whose data was sent ahead, or one in the bytes of the execution
/// that it was read from.
///
/// ```
/// let tiny = ParamType::new(ColumnType::MYSQL_TYPE_TINY, StmtExecuteParamFlags::UNSIGNED);
/// TypedExecuteParam {
/// param_type: tiny,
/// name: b"",
/// param: ExecuteParam::Value(ValueRef::UInt(value)),
/// }
/// ```
#[derive(Clone, Copy, Debug, PartialEq)]
pub enum ExecuteParam<'a> {
    /// A value that the request sends.
    Value(ValueRef<'a>),
    /// A date and a time with an offset from UTC that the request sends, under the type `DATETIME` or `TIMESTAMP`.
    DateTimeWithOffset(DateTimeWithOffset),
    /// The data was sent ahead by [`ComStmtSendLongData`](crate::ComStmtSendLongData): the request sends the type of a byte
    /// string, and no value.
    SentAhead,
    /// The bytes that an execution or a query sent, which are written back unchanged:
    /// [`ExecuteParamsView::next_as_sent`](crate::ExecuteParamsView::next_as_sent) reads it.
    AsSent {
        /// Whether its bit in the NULL bitmap is set.
        has_null_bit: bool,
        /// The bytes of its value, in the binary form of its type: empty if none were sent.
        bytes: &'a [u8],
    },
}

/// A type whose values can be parameters of an execution.
///
/// [`as_execute_param`](Self::as_execute_param), [`sent_type`](Self::sent_type) and [`name`](Self::name)
/// determine the other methods. A type that can compute one of the others more directly may implement it too.
pub trait AsExecuteParam {
    ghost use Rattle.mysql_stmt.specs.ExecuteParam.{Param};
    ghost use Rattle.mysql_stmt.specs.SentTypes.{NamedType};

    ghost param: { Self → Param };

    ghost named_type: { Self → NamedType };

    /// Returns the parameter.
    fn as_execute_param(&self) -> ExecuteParam<'_>
        ensures value { spec.param_of result ≡ param self.now };

    /// The default type that the parameter is sent as.
    ///
    /// It is the type of the value; that of a byte string if the parameter was sent ahead, or is kept as it was
    /// sent. A [`TypedExecuteParam`](crate::TypedExecuteParam) has a type of its own.
    fn sent_type(&self) -> ParamType
        ensures value { result ≡ (named_type self.now).param_type };

    /// The name, which is sent under CLIENT_QUERY_ATTRIBUTES: empty if there is none.
    fn name(&self) -> &[u8]
        ensures value { result.now ≡ (named_type self.now).name };

    /// Whether the parameter's bit in a NULL bitmap is set: it is NULL, or had the bit when it was sent. A
    /// parameter that was sent ahead isn't NULL.
    #[inline(always)]
    fn is_null(&self) -> bool
        ensures value { result ≡ is_null (spec.value_of (param self.now)) }
    {
        matches!(typed_value(self.as_execute_param()), ValueRef::NULL)
    }

    /// Whether the value fits the type, if the request sends one.
    #[inline(always)]
    fn is_spelled(&self) -> bool
        ensures value { result ≡ is_spelled_under (named_type self.now).param_type (param self.now) }
    {
        is_spelled(self.sent_type(), self.as_execute_param())
    }

    /// The length of the parameter's bytes in the request, with or without byte strings as long data, or
    /// `usize::MAX` if it is greater.
    #[inline(always)]
    fn sent_len(&self, as_long_data: bool) -> usize
        ensures value { result ≡ saturated (length (bytes_under as_long_data (named_type self.now).param_type (param self.now))) }
    {
        sent_len(self.sent_type(), self.as_execute_param(), as_long_data)
    }

    /// Writes the bytes that the request has of the parameter, for which there is capacity.
    #[inline(always)]
    fn append_sent<O: Buffer>(&self, as_long_data: bool, out: &mut O)
        requires { length (O.held out.old) + length (bytes_under as_long_data (named_type self.now).param_type (param self.now)) ≤ O.capacity out.old }
        ensures items { O.held out.new ≡ O.held out.old ++ bytes_under as_long_data (named_type self.now).param_type (param self.now) }
        ensures after { O.after out.new ≡ drop (length (bytes_under as_long_data (named_type self.now).param_type (param self.now))) (O.after out.old) }
        ensures capacity { O.capacity out.old ≤ O.capacity out.new }
        ensures kept { O.kept out.new ≡ O.kept out.old }
    {
        append_sent(self.sent_type(), self.as_execute_param(), as_long_data, out);
    }

    /// Whether the parameter fits a column of the type in a binary row. A date with an offset, or a parameter
    /// as it was sent, fits no column.
    #[inline(always)]
    fn is_taken_by(&self, column_type: ColumnType, is_unsigned: bool) -> bool
        ensures value { result ≡ takes_param column_type is_unsigned (param self.now) }
    {
        takes_param(column_type, is_unsigned, self.as_execute_param())
    }

    /// The length in bytes in a column of this type, or `usize::MAX` if it is greater.
    #[inline(always)]
    fn cell_len(&self, column_type: ColumnType) -> usize
        ensures value { result ≡ saturated (length (bin_in column_type (spec.value_of (param self.now)))) }
    {
        cell_len(column_type, &typed_value(self.as_execute_param()))
    }

    /// Writes the parameter in the encoding of a column of this type, for which there is capacity.
    #[inline(always)]
    fn append_cell<O: Buffer>(&self, column_type: ColumnType, out: &mut O)
        requires { length (O.held out.old) + length (bin_in column_type (spec.value_of (param self.now))) ≤ O.capacity out.old }
        ensures items { O.held out.new ≡ O.held out.old ++ bin_in column_type (spec.value_of (param self.now)) }
        ensures after { O.after out.new ≡ drop (length (bin_in column_type (spec.value_of (param self.now)))) (O.after out.old) }
        ensures capacity { O.capacity out.old ≤ O.capacity out.new }
        ensures kept { O.kept out.new ≡ O.kept out.old }
    {
        append_cell(column_type, &typed_value(self.as_execute_param()), out);
    }
}

impl AsExecuteParam for ExecuteParam<'_> {
    ghost use Rattle.mysql_stmt.specs.ExecuteParam.{param_of};
    ghost use Rattle.mysql_stmt.specs.SentParam.{type_of_param};

    ghost param = { param_of };

    ghost named_type = { λ p. type_of_param (param_of p) };

    #[inline(always)]
    fn as_execute_param(&self) -> ExecuteParam<'_> {
        *self
    }

    #[inline(always)]
    fn sent_type(&self) -> ParamType {
        ParamType::from_value_ref(&typed_value(*self))
    }

    #[inline(always)]
    fn name(&self) -> &[u8] {
        &[]
    }

    #[inline(always)]
    fn is_spelled(&self) -> bool {
        true
    }

    #[inline(always)]
    fn sent_len(&self, as_long_data: bool) -> usize {
        plain_len(*self, as_long_data)
    }

    #[inline(always)]
    fn append_sent<O: Buffer>(&self, as_long_data: bool, out: &mut O) {
        append_plain(*self, as_long_data, out);
    }
}

impl AsExecuteParam for ValueRef<'_> {
    ghost use Rattle.mysql_values.specs.ValueRef.{ref_content};
    ghost use Rattle.mysql_values.specs.ParamValue.{Plain};
    ghost use Rattle.mysql_stmt.specs.ExecuteParam.{Sent};
    ghost use Rattle.mysql_stmt.specs.SentParam.{type_of_param};

    ghost param = { λ value. Sent (Plain (ref_content value)) };

    ghost named_type = { λ value. type_of_param (Sent (Plain (ref_content value))) };

    #[inline(always)]
    fn as_execute_param(&self) -> ExecuteParam<'_> {
        ExecuteParam::Value(*self)
    }

    #[inline(always)]
    fn sent_type(&self) -> ParamType {
        ParamType::from_value_ref(self)
    }

    #[inline(always)]
    fn name(&self) -> &[u8] {
        &[]
    }

    #[inline(always)]
    fn is_null(&self) -> bool {
        matches!(self, ValueRef::NULL)
    }

    #[inline(always)]
    fn is_spelled(&self) -> bool {
        true
    }

    #[inline(always)]
    fn sent_len(&self, as_long_data: bool) -> usize {
        match self {
            ValueRef::Bytes(_) if as_long_data => 0,
            value => value.defined_len(),
        }
    }

    #[inline(always)]
    fn append_sent<O: Buffer>(&self, as_long_data: bool, out: &mut O) {
        // (a guard of the arm would be tested for each value)
        match self {
            ValueRef::Bytes(_) => {
                if !as_long_data {
                    self.append(out);
                }
            }
            value => value.append(out),
        }
    }

    #[inline(always)]
    fn is_taken_by(&self, column_type: ColumnType, is_unsigned: bool) -> bool {
        takes(column_type, is_unsigned, self)
    }

    #[inline(always)]
    fn cell_len(&self, column_type: ColumnType) -> usize {
        cell_len(column_type, self)
    }

    #[inline(always)]
    fn append_cell<O: Buffer>(&self, column_type: ColumnType, out: &mut O) {
        append_cell(column_type, self, out);
    }
}

impl AsExecuteParam for Value {
    ghost use Rattle.mysql_values.specs.Value.{content_of};
    ghost use Rattle.mysql_values.specs.ParamValue.{Plain};
    ghost use Rattle.mysql_stmt.specs.ExecuteParam.{Sent};
    ghost use Rattle.mysql_stmt.specs.SentParam.{type_of_param};

    ghost param = { λ value. Sent (Plain (content_of value)) };

    ghost named_type = { λ value. type_of_param (Sent (Plain (content_of value))) };

    #[inline(always)]
    fn as_execute_param(&self) -> ExecuteParam<'_> {
        ExecuteParam::Value(self.as_ref())
    }

    #[inline(always)]
    fn sent_type(&self) -> ParamType {
        ParamType::from_value(self)
    }

    #[inline(always)]
    fn name(&self) -> &[u8] {
        &[]
    }

    #[inline(always)]
    fn is_null(&self) -> bool {
        matches!(self, Value::NULL)
    }

    #[inline(always)]
    fn is_spelled(&self) -> bool {
        true
    }

    #[inline(always)]
    fn sent_len(&self, as_long_data: bool) -> usize {
        self.as_ref().sent_len(as_long_data)
    }

    #[inline(always)]
    fn append_sent<O: Buffer>(&self, as_long_data: bool, out: &mut O) {
        self.as_ref().append_sent(as_long_data, out);
    }
}

/// An attribute of a query or an execution: a name and a value that a client sends in addition to the parameters, under
/// CLIENT_QUERY_ATTRIBUTES.
///
/// ```
/// let attributes = [QueryAttribute::new(b"traceparent", ValueRef::Bytes(id))];
/// let query = ComQuery::new(text).with_attributes(&attributes)?;
/// Ok(query.serialize(out)?)
/// ```
#[derive(Clone, Copy, Debug, PartialEq)]
pub struct QueryAttribute<'a> {
    /// The type of the value.
    pub param_type: ParamType,
    /// The name.
    pub name: &'a [u8],
    /// The value of the attribute.
    pub value: ParamValue<'a>,
}

impl<'a> QueryAttribute<'a> {
    ghost use Rattle.mysql_values.specs.ValueRef.{ref_content};
    ghost use Rattle.mysql_values.specs.ParamValue.{Plain, param_content};

    /// Creates an attribute of this name and value, under the type that the value is sent as.
    pub fn new(name: &'a [u8], value: ValueRef<'a>) -> Self
        ensures param_type { result.param_type ≡ type_of (ref_content value.entry) }
        ensures name { result.name.now ≡ name.now }
        ensures value { param_content result.value ≡ Plain (ref_content value.entry) }
    {
        QueryAttribute {
            param_type: ParamType::from_value_ref(&value),
            name,
            value: ParamValue::Value(value),
        }
    }
}

impl<'a> ExecuteParam<'a> {
    ghost use Rattle.mysql_values.specs.ParamValue.{param_content};

    /// Returns a parameter whose value the request sends.
    #[inline(always)]
    pub fn sent(value: ParamValue<'a>) -> Self
        ensures value { spec.param_of result ≡ spec.Sent (param_content value.entry) }
    {
        match value {
            ParamValue::Value(value) => ExecuteParam::Value(value),
            ParamValue::DateTimeWithOffset(date) => ExecuteParam::DateTimeWithOffset(date),
        }
    }
}

/// An attribute is sent as its value, with its own type and name.
impl AsExecuteParam for QueryAttribute<'_> {
    ghost use Rattle.mysql_stmt.specs.ExecuteParam.{attribute_param};
    ghost use Rattle.mysql_stmt.specs.SentParam.{attribute_type};

    ghost param = { attribute_param };

    ghost named_type = { attribute_type };

    #[inline(always)]
    fn as_execute_param(&self) -> ExecuteParam<'_> {
        ExecuteParam::sent(self.value)
    }

    #[inline(always)]
    fn sent_type(&self) -> ParamType {
        self.param_type
    }

    #[inline(always)]
    fn name(&self) -> &[u8] {
        self.name
    }
}
