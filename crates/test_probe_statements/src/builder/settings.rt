//! The settings of a builder, with commas between them.

ghost use Rattle.std.specs.Prelude.{◌≡◌, []};

use crate::prelude::*;
use mysql_bulk::ComStmtBulkExecuteRequestBuilder as Builder;
use mysql_wire::StmtExecuteParamFlags;

/// What follows a mark among some settings, if it stands there.
pub fn setting<'s>(settings: &'s str, mark: &str) -> Option<&'s str> {
    settings.split(',').find_map(|word| word.strip_prefix(mark))
}

/// The number after a mark among some settings, or 0.
pub fn number(settings: &str, mark: &str) -> usize {
    let digits = setting(settings, mark).unwrap_or("");
    digits.parse::<usize>().unwrap_or(0)
}

/// What is listed after a mark among some settings, or none.
pub fn list_in<T: FromWord + Drop>(out: &mut Out, settings: &str, mark: &str) -> Vec<T> {
    let items = setting(settings, mark).unwrap_or("()");
    list(out, items, "()", '/')
}

/// A type's code, with `u` after it where it is unsigned.
impl FromWord for StmtBulkExecuteParamType {
    fn from_word(_out: &mut Out, word: &str) -> Self {
        let mut flags = StmtExecuteParamFlags::empty();
        if word.ends_with('u') {
            flags = StmtExecuteParamFlags::UNSIGNED;
        }
        let code = word.trim_end_matches('u').parse::<u8>().unwrap_or(0);
        let column_type = ColumnType::from_code(code).unwrap_or(ColumnType::MYSQL_TYPE_NULL);
        StmtBulkExecuteParamType::new(column_type, flags)
    }
}

/// What is made with some settings, unless a type may not be declared.
type Made<T> = Result<T, BulkColumnTypeError>;

/// A builder or a writer of requests with the results and the rule of some settings. A bound of 0 rows is none.
macro_rules! with_settings {
    ($alloc:expr, $settings:expr, $made:expr) => {{
        let made = if setting($settings, "results").is_some() {
            counted!($alloc; value $made.with_results())
        } else {
            $made
        };
        let made = if setting($settings, "types").is_some() {
            counted!($alloc; value made.with_types_always())
        } else {
            made
        };
        match number($settings, "rows=") {
            0 => made,
            most => counted!($alloc; value made.with_max_rows(most)),
        }
    }};
}

/// What a builder borrows: the names of parameters, and the types of columns.
#[derive(Clone, Copy)]
pub struct Given<'a> {
    pub names: &'a [Vec<u8>],
    pub types: &'a [StmtBulkExecuteParamType],
}

impl<'a> Given<'a> {
    /// The builder with these settings, except for its declared types. A limit below 4 is 4.
    fn without_types(self, alloc: Global, settings: &str) -> Builder<'a>
        ensures { result.state.waiting ≡ [] }
    {
        let limit = number(settings, "").max(4);
        let names = setting(settings, "names=").map(|_| self.names);
        let builder = counted!(alloc; value Builder::new(alloc, 1, limit));
        let builder = counted!(alloc; value builder.with_named_params(names));
        with_settings!(alloc, settings, builder)
    }

    /// The builder with these settings.
    pub fn builder(self, alloc: Global, settings: &str) -> Made<Builder<'a>> {
        let builder = self.without_types(alloc, settings);
        if setting(settings, "columns=").is_some() {
            counted!(alloc; builder.with_column_types(self.types))
        } else {
            Ok(builder)
        }
    }
}

/// The writer with these settings, whose types are declared. A limit below 4 is 4.
pub fn writer_of<'a>(
    alloc: Global,
    settings: &str,
    types: &'a [StmtBulkExecuteParamType],
) -> Made<BulkRequestWriter<'a>> {
    let (buffer, limit) = (Vec::new(alloc), number(settings, "").max(4));
    let writer = counted!(alloc; BulkRequestWriter::new(buffer, 1, limit, types))?;
    Ok(with_settings!(alloc, settings, writer))
}

/// The writer with these settings for columns of any types: of the statement that `id=` names, or 1. With `built` it is made of a
/// builder, whose names are of no use then.
pub fn typed_writer_of<'a>(
    alloc: Global,
    settings: &str,
    types: &'a [StmtBulkExecuteParamType],
) -> BulkRequestWriter<'a> {
    let (buffer, limit) = (Vec::new(alloc), number(settings, "").max(4));
    let id = u32::try_from(number(settings, "id=").max(1)).unwrap_or(1);
    if setting(settings, "built").is_some() {
        let builder = counted!(alloc; value Builder::new(alloc, id, limit));
        let builder = with_settings!(alloc, settings, builder);
        return counted!(alloc; value builder.with_types(types));
    }
    let writer = counted!(alloc; value BulkRequestWriter::with_types(buffer, id, limit, types));
    with_settings!(alloc, settings, writer)
}
