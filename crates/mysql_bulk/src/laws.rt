//! Laws over requests and runs of the builder, each a function that does nothing.

ghost use Rattle.std.specs.Prelude.{◌≡◌, ◌≢◌, ◌++◌, ◌∷◌, ℕ, true, List, [], Ok, Err, Some, None, length, map};
ghost use Rattle.std.specs.Global.{Vec};
ghost use Rattle.std.specs.List.{All, AllZip};
ghost use Rattle.mysql_cuts.specs.declared.rule.BulkRule.{BulkRule};
ghost use Rattle.mysql_cuts.specs.Cut.{IsFewest, ends_after, request_size};
ghost use Rattle.mysql_cuts.specs.Fewest.{weights, NamesFewest};
ghost use Rattle.mysql_wire.specs.FlagMasks.{UNSIGNED_FLAG};
ghost use Rattle.mysql_wire.specs.Flags.{has};
ghost use Rattle.mysql_values.specs.declared.params.ParamsError.{ParamsError};
ghost use Rattle.mysql_values.specs.declared.param_type.ParamType.{ParamType};
ghost use Rattle.mysql_values.specs.ReadingBack.{Agrees};
ghost use Rattle.mysql_values.specs.declared.value.Value.{Value};
ghost use Rattle.mysql_values.specs.Value.{Content};
ghost use Rattle.mysql_bulk.specs.declared.error.BulkExecuteRequestBuilderError.TheVariants as refused;
ghost use Rattle.mysql_bulk.specs.declared.error.BulkExecuteRequestError.{BulkExecuteRequestError};
ghost use Rattle.mysql_bulk.specs.declared.error.BulkRowError.{BulkRowError};
ghost use Rattle.mysql_bulk.specs.Builder.{BuilderState, Adds, AddsCopy, BuildsRequest, IsConsistent, IsRequest, packing};
ghost use Rattle.mysql_bulk.specs.CollectedRows.{Collects, EndsRefused};
ghost use Rattle.mysql_bulk.specs.RunLoop.{WholeLoop, SentAllRows, RefusedRow, RefusedParams};
ghost use Rattle.mysql_bulk.specs.ParamValue.{ParamValue, with_indicator, param_value, param_value_bytes, values_bytes};
ghost use Rattle.mysql_bulk.specs.ParamValues.{BulkColumn, values_of_columns};
ghost use Rattle.mysql_bulk.specs.ParamsRun.{Names, GivesRowOfParams, NextRequestOfParams};
ghost use Rattle.mysql_bulk.specs.ReadRows.{bulk_rows};
ghost use Rattle.mysql_bulk.specs.Head.{column_of_type};
ghost use Rattle.mysql_bulk.specs.ReadingBack.{ParamValueAgrees, RequestFits, RowsFit, PartAgrees, row_under, IsDeclaredPart};
ghost use Rattle.mysql_bulk.specs.Request.{BulkRequest, request_bytes, written_size};
ghost use Rattle.mysql_bulk.specs.RequestForm.{bulk_request};
ghost use Rattle.mysql_bulk.specs.RequestWriter.{WriterState, AddsAsBuilder, Holds};
ghost use Rattle.mysql_bulk.specs.StreamedRows.{Streams, AreFewest, StreamEndsRefused};
ghost use Rattle.mysql_bulk.specs.Row.{contents_of_row, first_length, row_size, rows_packing};
ghost use Rattle.mysql_bulk.specs.Run.{RunState, NextRequest};
ghost use Rattle.mysql_values.specs.TypedValue.{is_unsigned_type};
ghost use Rattle.mysql_bulk.specs.BulkValue.{Cell, cell_spelled, cells_bytes, spells_cells};
ghost use Rattle.mysql_bulk.specs.ReadValues.{CellFits, cell_read, row_read};
ghost use Rattle.mysql_bulk.specs.ValueRows.{AddsCells, HoldsCells, LetsGo, StreamsCells};
ghost use Rattle.mysql_bulk.specs.ValuesRun.{CellsRunGives, LacksRoom};
ghost use Rattle.mysql_bulk.specs.WholeRun.{IsNew, RunGives};

use mysql_values::{Params, Value};

// ---- sizes

pub use crate::param_value::param_value_has_no_constant_size;
pub use crate::param_values::param_values_have_no_constant_size;
pub use crate::request::request_has_no_constant_size;

/// The encoded length of a request is its size.
pub fn request_has_its_size()
    ensures { (request : BulkRequest) → length (request_bytes request) ≡ written_size request }
{}

/// The request that a builder builds of rows has the length of its head, of the types if these are due, and of
/// rows of their sizes.
pub fn request_has_the_size_of_its_rows()
    ensures { (s : BuilderState) (rows : List (List Content)) (request : BulkRequest) → IsRequest s rows request →
        length (request_bytes request) ≡ request_size (packing s (first_length rows)) s.types_due rows }
{}

/// A cut into the fewest requests is also one by the sizes of the rows, so `cut_is_fewest` returns true for the
/// ends that `build_all` returns, without an error, on a new builder.
pub fn fewest_cut_is_named_by_its_ends()
    ensures { (rule : BulkRule) (limit : ℕ) (rows : List (List Content)) (cut : List (List (List Content))) →
        IsFewest (rows_packing rule limit (first_length rows)) rows cut → NamesFewest (weights rule limit (first_length rows)) (map row_size rows) (ends_after 0 cut) }
{}

// ---- a caller's own loop over `next`

/// A new builder satisfies the invariant of every builder.
pub fn new_builder_is_consistent()
    ensures { (s : BuilderState) → IsNew s → IsConsistent s }
{}

/// A loop of `next` that ends with `None` has the same result as `build_all` for the rows of the input,
/// whatever the input.
pub fn loop_that_ends_sent_all_rows<I: Iterator<Item = Vec<Value>>>()
    ensures { (s u : RunState I) (requests : List BulkRequest) → WholeLoop (NextRequest I.next_gives) s requests None u → SentAllRows I.next_gives s requests u }
{}

/// A loop of `next` that ends with an `Err` has the same result as `build_all` for the rows of the input and
/// any others after them.
pub fn loop_that_refuses_a_row<I: Iterator<Item = Vec<Value>>>()
    ensures { (s u : RunState I) (requests : List BulkRequest) (e : BulkExecuteRequestError) →
        WholeLoop (NextRequest I.next_gives) s requests (Some (refused.Request e)) u → RefusedRow I.next_gives s requests e u }
{}

/// A loop over parameters that ends with `None` has sent all rows, each with its values by name.
pub fn params_loop_that_ends_sent_all_rows<I: Iterator<Item = Params>>()
    ensures { (names : Names) (s u : RunState I) (requests : List BulkRequest) →
        WholeLoop (NextRequestOfParams I.next_gives names) s requests None u → SentAllRows (GivesRowOfParams I.next_gives names) s requests u }
{}

/// A loop over parameters that ends with the error of a row has the same result as `build_all` for the rows of
/// the input and any others after them.
pub fn params_loop_that_refuses_a_row<I: Iterator<Item = Params>>()
    ensures { (names : Names) (s u : RunState I) (requests : List BulkRequest) (e : BulkExecuteRequestError) →
        WholeLoop (NextRequestOfParams I.next_gives names) s requests (Some (refused.Request e)) u → RefusedRow (GivesRowOfParams I.next_gives names) s requests e u }
{}

/// A loop over parameters that ends with `Params` returns the error of the first parameters in the input that
/// can't be converted to a row, and no row before them has an error.
pub fn params_loop_that_refuses_params<I: Iterator<Item = Params>>()
    ensures { (names : Names) (s u : RunState I) (requests : List BulkRequest) (e : ParamsError) →
        WholeLoop (NextRequestOfParams I.next_gives names) s requests (Some (refused.Params e)) u → RefusedParams I.next_gives names s requests e u }
{}

/// A loop that adds rows to a builder, and builds a request if one doesn't fit, has the same result as
/// `build_all` for these rows: with the request that is built after the last one, no row is lost, and from a
/// new builder the requests are the fewest. This also holds if a row is an error.
pub fn collected_rows_are_sent_in_the_fewest_requests()
    ensures all { (s t u : BuilderState) (rows : List (List Content)) (requests : List BulkRequest) (last : BulkRequest) →
        IsConsistent s → Collects s rows requests t → BuildsRequest t last u → (ends : List ℕ) × RunGives s (s.waiting ++ rows) (requests ++ last ∷ []) ends None u }
    ensures refused { (s t : BuilderState) (rows later : List (List Content)) (requests : List BulkRequest) (row : Vec Value) (e : BulkExecuteRequestError) →
        IsConsistent s → Collects s rows requests t → Adds t row (Err e) t → (ends : List ℕ) × RunGives s (s.waiting ++ (rows ++ contents_of_row row ∷ later)) requests ends (Some (refused.Request e)) t }
    ensures copy_refused { (s t : BuilderState) (rows later : List (List Content)) (requests : List BulkRequest) (row : List Content) (e : BulkRowError) →
        IsConsistent s → Collects s rows requests t → AddsCopy t row (Err e) t → EndsRefused s rows requests row later e t }
{}

/// A row of values, DEFAULT and IGNORE that fit its types is read back under these types, whatever bytes
/// follow: each value after its indicator, a number of a narrow type as a signed one; DEFAULT and IGNORE as
/// their indicators.
pub fn value_rows_round_trip()
    ensures cell { (t : ParamType) (cell : Cell) (bytes rest : List ℕ) → CellFits cell → cell_spelled t cell ≡ Some bytes
        → (param_value t.column_type (is_unsigned_type t)).Spells (cell_read t cell) (bytes ++ rest) rest }
    ensures spelled { (types : List ParamType) (row : List Cell) (rest : List ℕ) → spells_cells types row ≡ true → All CellFits row
        → (values_of_columns (map column_of_type types)).Spells (row_read types row) (cells_bytes types row ++ rest) rest }
    ensures read { (types : List ParamType) (row : List Cell) (rest : List ℕ) → spells_cells types row ≡ true → All CellFits row
        → (values_of_columns (map column_of_type types)).reads (cells_bytes types row ++ rest) ≡ Ok (row_read types row, rest) }
{}

/// Streaming rows of values, DEFAULT and IGNORE through a writer under declared types of any width has the same
/// result as `build_all_values` for these rows: with the request that is finished after the last one, no row is
/// lost, and if types were due the requests are the fewest, by their sizes under these types. This also holds
/// if a row is an error, whatever follows it.
pub fn streamed_values_are_sent_in_the_fewest_requests()
    ensures all { (w u v : WriterState) (before rows : List (List Cell)) (requests : List (List ℕ)) → HoldsCells w before → StreamsCells w rows requests u → u.count ≢ 0 → LetsGo u v
        → CellsRunGives w before rows (requests ++ u.bytes ∷ []) None v }
    ensures refused { (w u v : WriterState) (before rows later : List (List Cell)) (requests : List (List ℕ)) (row : List Cell) (e : BulkRowError) → HoldsCells w before → StreamsCells w rows requests u
        → AddsCells u row (Err e) v → LacksRoom u row e → CellsRunGives w before (rows ++ row ∷ later) requests (Some e) v }
    ensures new { (w : WriterState) → w.count ≡ 0 → w.size ≡ 0 → w.bytes ≡ [] → HoldsCells w [] }
{}

/// Rows that are streamed through a new writer are sent in the fewest requests, if each request is finished
/// once a row doesn't fit with the waiting rows; the last request is that of the rows that wait at the end. If
/// a row is an error, it is the right one, and the requests before it are full from the front.
pub fn streamed_rows_are_sent_in_the_fewest_requests()
    ensures all { (w u : WriterState) (rows : List (List Content)) (requests : List (List ℕ)) →
        Holds w [] → w.types_due ≡ true → Streams w rows requests u → rows ≢ [] → AreFewest w rows (requests ++ u.bytes ∷ []) }
    ensures refused { (w u v : WriterState) (rows later : List (List Content)) (requests : List (List ℕ)) (row : List Content) (e : BulkRowError) →
        Holds w [] → Streams w rows requests u → AddsAsBuilder u row (Err e) v → StreamEndsRefused w rows requests row later e u }
{}

// ---- what is written is read back

/// A value is read back, whatever bytes follow, if it agrees with its column's type.
pub fn param_value_round_trips()
    ensures agrees { (column : BulkColumn) (value : Content) → Agrees column.0 (has column.1.0 UNSIGNED_FLAG) value → ParamValueAgrees column (with_indicator value) }
    ensures spelled { (column : BulkColumn) (value : ParamValue) (rest : List ℕ) → ParamValueAgrees column value →
        (param_value column.0 (has column.1.0 UNSIGNED_FLAG)).Spells value (param_value_bytes value ++ rest) rest }
    ensures read { (column : BulkColumn) (value : ParamValue) (rest : List ℕ) → ParamValueAgrees column value →
        (param_value column.0 (has column.1.0 UNSIGNED_FLAG)).reads (param_value_bytes value ++ rest) ≡ Ok (value, rest) }
{}

/// The values of a row are read back, whatever bytes follow, if there is one for each column and each agrees with its column's
/// type.
pub fn param_values_round_trips()
    ensures spelled { (columns : List BulkColumn) (values : List ParamValue) (rest : List ℕ) → AllZip ParamValueAgrees columns values →
        (values_of_columns columns).Spells values (values_bytes values ++ rest) rest }
    ensures read { (columns : List BulkColumn) (values : List ParamValue) (rest : List ℕ) → AllZip ParamValueAgrees columns values →
        (values_of_columns columns).reads (values_bytes values ++ rest) ≡ Ok (values, rest) }
{}

/// A request of one row is read back, whatever bytes follow.
pub fn request_of_one_row_round_trips()
    ensures spelled { (columns : List BulkColumn) (request : BulkRequest) (rest : List ℕ) → RequestFits columns request →
        (bulk_request columns).Spells request (request_bytes request ++ rest) rest }
    ensures read { (columns : List BulkColumn) (request : BulkRequest) (rest : List ℕ) → RequestFits columns request →
        (bulk_request columns).reads (request_bytes request ++ rest) ≡ Ok (request, rest) }
{}

/// A request of rows is read back as these rows if each has as many values as there are columns, at least one,
/// and they agree with the types that the request sends, or otherwise with the given ones.
pub fn request_rows_round_trips()
    ensures spelled { (columns : List BulkColumn) (request : BulkRequest) (rows : List (List Content)) → RowsFit columns request rows → (bulk_rows columns).Spells rows (request_bytes request) [] }
    ensures read { (columns : List BulkColumn) (request : BulkRequest) (rows : List (List Content)) → RowsFit columns request rows → (bulk_rows columns).reads (request_bytes request) ≡ Ok (rows, []) }
{}

/// The request that a builder builds of its rows is read back as these rows.
pub fn built_rows_round_trips()
    ensures { (s : BuilderState) (columns : List BulkColumn) (rows : List (List Content)) (request : BulkRequest) →
        IsRequest s rows request → PartAgrees s columns rows → (bulk_rows columns).reads (request_bytes request) ≡ Ok (rows, []) }
{}

/// If types were declared, a request is read back as the rows that it was built from, with integers signed or
/// unsigned as the types say: under the types that it sends, or under the same types if it sends none.
pub fn rows_under_declared_types_round_trips()
    ensures { (s : BuilderState) (types : List ParamType) (rows : List (List Content)) (request : BulkRequest) →
        IsRequest s rows request → IsDeclaredPart s types rows →
        (bulk_rows (map column_of_type types)).reads (request_bytes request) ≡ Ok (map (row_under types) rows, []) }
{}
