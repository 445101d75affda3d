//! Laws: functions with nothing in them, whose contracts hold for all values.
#![tactic(auto)]

ghost use Rattle.std.specs.Prelude.{◌≡◌, ◌++◌, ◌↔◌, IsTrue, List, [], ℕ, Ok};
ghost use Rattle.mysql_wire.specs.Flags.{CapabilityFlags};
ghost use Rattle.mysql_commands.specs.AsRead.{AreBytes};
ghost use Rattle.mysql_commands.specs.Command.{command, command_bytes, CommandFits};
ghost use Rattle.mysql_commands.specs.Query.{query};
ghost use Rattle.mysql_commands.specs.SentQuery.{SentQueryFits, query_read, sent_bytes};
ghost use Rattle.mysql_commands.specs.declared.with_raw_bytes.WithRawBytes.{WithRawBytes};
ghost use Rattle.mysql_commands.specs.declared.command.Command.{Command};
ghost use Rattle.mysql_commands.specs.declared.command.Command.TheVariants.{Query};
ghost use Rattle.mysql_stmt.specs.declared.com_query.ComQuery.{ComQuery};
ghost use Rattle.mysql_stmt.specs.declared.execute_param.QueryAttribute.{QueryAttribute};

/// A command is read back under the same capabilities.
#[tactic(auto, using(crate::proofs::CommandAgain::commands_again))]
pub fn command_round_trips()
    ensures spelled { (c : CapabilityFlags) (v : Command) (rest : List ℕ) → CommandFits c v rest → (command c).Spells v (command_bytes v ++ rest) rest }
{}

/// A command that was read is written back byte for byte.
#[tactic(auto, using(crate::proofs::CommandsAsRead::as_read))]
pub fn read_commands_are_written_as_they_were()
    ensures written { (c : CapabilityFlags) (v : Command) (before rest : List ℕ) → AreBytes before → (command c).Spells v before rest → command_bytes v ++ rest ≡ before }
{}

/// A query that a client writes is read back, by its own reader and by that of commands: the text, and under
/// CLIENT_QUERY_ATTRIBUTES the attributes, each with its name, its value and the type that the value is sent
/// as.
#[tactic(auto, using(crate::proofs::QueryAgain::queries_again))]
pub fn sent_queries_are_read()
    ensures spelled { (c : CapabilityFlags) (q : ComQuery QueryAttribute) → SentQueryFits c q → (query.form c).Spells (query_read q) (sent_bytes q) [] }
    ensures read { (c : CapabilityFlags) (q : ComQuery QueryAttribute) → SentQueryFits c q → (query.form c).reads (sent_bytes q) ≡ Ok (query_read q, []) }
    ensures command { (c : CapabilityFlags) (q : ComQuery QueryAttribute) → SentQueryFits c q → (command c).reads (sent_bytes q) ≡ Ok (Query (query_read q), []) }
{}

/// Values with their raw bytes compare equal exactly if their bytes do, whatever the contexts they were read in.
#[tactic(auto, using(crate::proofs::SentAlike::sent_alike))]
pub fn equal_sent_values_have_the_same_bytes<T>()
    ensures same { (x y : WithRawBytes T) → IsTrue (⟦<crate::with_raw_bytes::WithRawBytes<'static, T> as PartialEq>⟧.eq x y) ↔ (x.bytes ≡ y.bytes) }
{}
