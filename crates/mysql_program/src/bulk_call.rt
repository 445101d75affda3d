//! The arguments of `bulk`.

ghost use Rattle.std.specs.Prelude.{◌≡◌, ◌-◌, ◌≤◌, IfOk, IfSome, Some, None, map, option_map, string_bytes};
ghost use Rattle.mysql_program.specs.Bulk.{builder_of};
ghost use Rattle.mysql_program.specs.BulkCall as spec;

use crate::decimal::{u32_of, u64_of};
use crate::type_words::TypeWords;
use mysql_bulk::ComStmtBulkExecuteRequestBuilder;
use mysql_cuts::BulkRule;
use mysql_values::ParamType;
use std::alloc::{AllocError, Global};
use std::marker::Model;

/// The arguments of `bulk`: the statement's number, the maximum packet length in bytes, the rule for the
/// requests, and the declared types of the columns, if any.
#[derive(Drop)]
pub struct BulkCall<'a> {
    stmt_id: u32,
    max_allowed_packet: usize,
    rule: BulkRule,
    columns: Option<TypeWords<'a>>,
}

impl<'a> Model for BulkCall<'a> {
    ghost use Rattle.std.specs.Prelude.{◌≤◌, IfSome};
    ghost use Rattle.mysql_program.specs.BulkCall as spec;

    ghost Value = { spec.BulkCall };

    ghost view = { λ a. record {
      stmt_id = a.stmt_id;
      max_allowed_packet = a.max_allowed_packet;
      rule = a.rule;
      columns = a.columns;
    } };

    ghost invariant = { λ a. (4 ≤ a.max_allowed_packet) × IfSome a.rule.max_rows (λ most. 1 ≤ most) };
}

impl<'a> BulkCall<'a> {
    /// Parses `STMT MAX [types] [rows=K] [columns=TYPE,TYPE,..]`. It takes no memory.
    pub fn of(arguments: &'a [String]) -> Option<BulkCall<'a>>
        ensures value { result ≡ spec.bulk_call (map string_bytes arguments.now) }
    {
        let [stmt, most, words @ ..] = arguments else {
            return None;
        };
        let stmt_id = u32_of(stmt.as_bytes())?;
        let max_allowed_packet = at_least(4, u64_of(most.as_bytes())?)?;
        let (rule, columns) = options_of(words)?;
        Some(BulkCall {
            stmt_id,
            max_allowed_packet,
            rule,
            columns,
        })
    }

    /// The rule for the requests.
    pub fn rule(&self) -> BulkRule
        ensures value { result ≡ self.now.rule }
    {
        self.rule
    }

    /// The maximum length of a request in bytes.
    pub fn limit(&self) -> u64
        ensures value { result ≡ self.now.max_allowed_packet - 4 }
    {
        (self.max_allowed_packet - 4) as u64
    }

    /// The types of the columns, if they are declared.
    pub fn types(&self, alloc: Global) -> Result<Option<Vec<ParamType>>, AllocError>
        ensures value { IfOk result (λ types. option_map (λ types. types.items) types ≡ self.now.columns) }
    {
        match &self.columns {
            Some(columns) => Ok(Some(columns.types(alloc)?)),
            None => Ok(None),
        }
    }

    /// Creates the requested builder, before types are declared.
    pub fn builder(&self, alloc: Global) -> ComStmtBulkExecuteRequestBuilder<'static>
        ensures value { result.state ≡ builder_of self.now }
    {
        let mut builder = ComStmtBulkExecuteRequestBuilder::new(
            alloc,
            self.stmt_id,
            self.max_allowed_packet,
        );
        if self.rule.types_always {
            builder = builder.with_types_always();
        }
        if let Some(most) = self.rule.max_rows {
            builder = builder.with_max_rows(most);
        }
        builder
    }
}

/// Parses `[types] [rows=K] [columns=TYPE,TYPE,..]`.
fn options_of(words: &[String]) -> Option<(BulkRule, Option<TypeWords<'_>>)>
    ensures value { result ≡ spec.options_of (map string_bytes words.now) }
    ensures some_rows { IfSome result (λ options. IfSome options.0.max_rows (λ rows. 1 ≤ rows)) }
{
    match words {
        [word, words @ ..] if word.as_str() == "types" => after_types(true, words),
        _ => after_types(false, words),
    }
}

/// Parses `[rows=K] [columns=TYPE,TYPE,..]`.
fn after_types(types_always: bool, words: &[String]) -> Option<(BulkRule, Option<TypeWords<'_>>)>
    ensures value { result ≡ spec.after_types types_always (map string_bytes words.now) }
    ensures some_rows { IfSome result (λ options. IfSome options.0.max_rows (λ rows. 1 ≤ rows)) }
{
    if let [word, words @ ..] = words {
        if let Some(digits) = word.as_bytes().strip_prefix(b"rows=") {
            let max_rows = Some(at_least(1, u64_of(digits)?)?);
            return after_rows(
                BulkRule {
                    types_always,
                    max_rows,
                },
                words,
            );
        }
    }
    let max_rows = None;
    after_rows(
        BulkRule {
            types_always,
            max_rows,
        },
        words,
    )
}

/// Parses `[columns=TYPE,TYPE,..]`.
fn after_rows(rule: BulkRule, words: &[String]) -> Option<(BulkRule, Option<TypeWords<'_>>)>
    ensures value { result ≡ spec.after_rows rule (map string_bytes words.now) }
    ensures rule { IfSome result (λ options. options.0 ≡ rule) }
{
    match words {
        [] => Some((rule, None)),
        [word] => Some((rule, Some(columns_in(word.as_str())?))),
        _ => None,
    }
}

/// Parses the types in `columns=TYPE,TYPE,..`.
fn columns_in(word: &str) -> Option<TypeWords<'_>>
    ensures value { result ≡ spec.columns_in word.now }
{
    TypeWords::new(word.as_bytes().strip_prefix(b"columns=")?)
}

fn at_least(bound: u64, number: u64) -> Option<usize>
    ensures value { result ≡ spec.at_least bound (Some number) }
{
    if bound <= number {
        Some(number as usize)
    } else {
        None
    }
}
