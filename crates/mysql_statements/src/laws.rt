//! Laws that hold for every table.

ghost use Rattle.std.specs.Prelude.{◌≡◌, ◌≤◌, ◌+◌, ◌++◌, List, ℕ, Bool, true, false, Some, Ok, length, map, ◌||◌};
ghost use Rattle.mysql_conversation.specs.Agreements as agreement;
ghost use Rattle.mysql_conversation.specs.declared.packet_kind.PacketKind as declared;
ghost use Rattle.mysql_stmt.specs.Attributes.{Attribute};
ghost use Rattle.mysql_stmt.specs.BindFront.{BindFront};
ghost use Rattle.mysql_stmt.specs.ExecuteHead.{cursor_flags, execute_head};
ghost use Rattle.mysql_stmt.specs.ExecuteRead.{TypedParam, execution, execution_front, given_types};
ghost use Rattle.mysql_wire.specs.Flags.{CapabilityFlags};
ghost use Rattle.mysql_stmt.specs.declared.execute_head.ComStmtExecuteHead as head;
ghost use Rattle.mysql_statements.specs.After.{after};
ghost use Rattle.mysql_statements.specs.Binding.{with_execution};
ghost use Rattle.mysql_statements.specs.Bounds.{IsWithin};
ghost use Rattle.mysql_conversation.specs.declared.packet_kind.PacketKind.TheVariants as kind;
ghost use Rattle.mysql_statements.specs.Kept as kept;
ghost use Rattle.mysql_statements.specs.Packets.{prepared_at};
ghost use Rattle.mysql_statements.specs.ResultColumns as results;
ghost use Rattle.mysql_statements.specs.Run as runs;
ghost use Rattle.mysql_statements.specs.Statement.{with_result, without_data};
ghost use Rattle.mysql_statements.specs.Table as tables;
ghost use Rattle.mysql_statements.specs.declared.layout.Layout.TheVariants as layout;
ghost use Rattle.mysql_statements.specs.declared.row_column.RowColumn as column;
ghost use Rattle.mysql_statements.specs.declared.task.Task.TheVariants as task;

/// A table within its limits is within them after any packet.
pub fn a_table_stays_within_its_bounds()
    ensures { (memory : Bool) (a : agreement.Agreed) (k : declared.PacketKind) (p : List ℕ) (t : tables.Table) → IsWithin t → IsWithin (after memory a k p t) }
{}

/// A prepared statement that fits the limits is known, once all its definitions have come, with the types in these.
pub fn a_prepared_statement_is_as_its_definitions_say()
    ensures { (a : agreement.Agreed) (t : tables.Table) (p : List ℕ) (id : ℕ) (items : List runs.Item) (params columns : List column.RowColumn) → prepared_at p ≡ Some id
        → tables.has_place t.limits (tables.without id t.statements) (length params + length columns) ≡ true → runs.AreDefinitions a items (params ++ columns)
        → tables.statement_of id (runs.after_all a items (after true a (kind.PrepareOk (length columns) (length params) true) p t)) ≡ Some (runs.defined_as id params columns) }
{}

/// The rows of a result have the columns of its definitions, if these fit the limits.
pub fn rows_have_the_columns_of_their_result()
    ensures { (a : agreement.Agreed) (t : tables.Table) (p : List ℕ) (id left : ℕ) (s : kept.Kept) (items : List runs.Item) (columns : List column.RowColumn) → t.task ≡ task.Execution id left
        → tables.find id t.statements ≡ Some s → tables.has_capacity t.limits.types (tables.change id (with_result (length columns) true) t.statements) (length columns) ≡ true
        → runs.AreDefinitions a items columns
        → tables.columns_of_rows (runs.after_all a items (after true a (kind.ColumnCount (length columns) true) p t)) ≡ Some columns }
{}

/// If the definitions of a result are omitted, its rows have the columns of the statement's last result.
pub fn rows_without_definitions_have_the_columns_of_their_statement()
    ensures { (a : agreement.Agreed) (t : tables.Table) (p : List ℕ) (id left : ℕ) (s : kept.Kept) → t.task ≡ task.Execution id left → tables.find id t.statements ≡ Some s
        → tables.columns_of_rows (after true a (kind.ColumnCount (length s.columns) false) p t) ≡ Some s.columns }
{}

/// An execution sets the types under which its parameters are read, and never those of its attributes, and uses
/// up the data that was sent ahead.
pub fn an_execution_binds_what_its_parameters_are_read_under()
    ensures binds { (capabilities : CapabilityFlags) (s : kept.Kept) (p body rest : List ℕ) (h : head.ComStmtExecuteHead) (f : BindFront) → (execute_head.form tt).reads p ≡ Ok (h, body)
        → (execution_front capabilities (cursor_flags h) (length s.params)).reads body ≡ Ok (f, rest)
        → with_execution (layout.Single capabilities) p s ≡ record s { params = map without_data (given_types f.sends_types s.params f.types); is_bound = f.sends_types || s.is_bound } }
    ensures read { (capabilities : CapabilityFlags) (s : kept.Kept) (p body rest : List ℕ) (h : head.ComStmtExecuteHead) (params : List TypedParam) (attributes : List Attribute) → (execute_head.form tt).reads p ≡ Ok (h, body)
        → (execution capabilities (cursor_flags h) s.params).reads body ≡ Ok ((params, attributes), rest)
        → map (λ q. q.param_type) (with_execution (layout.Single capabilities) p s).params ≡ map (λ x. x.named_type.param_type) params }
{}

/// The columns of a result are those of its definitions, in order, if they fit the limit.
pub fn a_result_has_the_columns_of_its_definitions()
    ensures { (a : agreement.Agreed) (r : results.ResultColumns) (p : List ℕ) (items : List runs.Item) (columns : List column.RowColumn) → length columns ≤ r.limit → runs.AreDefinitions a items columns
        → results.known (results.after_all a items (results.after true a (kind.ColumnCount (length columns) true) p r)) ≡ Some columns }
{}
