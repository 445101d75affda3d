//! Laws: packets that are classified by their content are read without a fault, and an observer's knowledge is
//! in the order of the conversation.

ghost use Rattle.std.specs.Prelude.{◌≡◌, ◌∷◌, ◌++◌, [], ℕ, List, Bool, Some};
ghost use Rattle.mysql_wire.specs.Flags as flags;
ghost use Rattle.mysql_auth.specs.declared.ssl_request.SslRequest as head;
ghost use Rattle.mysql_conversation.specs.Agreements as agreement;
ghost use Rattle.mysql_conversation.specs.Agreements.{deprecates_eof};
ghost use Rattle.mysql_conversation.specs.Conversation.{ending};
ghost use Rattle.mysql_conversation.specs.Payloads as payloads;
ghost use Rattle.mysql_conversation.specs.SessionSteps.{greeting_at, login_at};
ghost use Rattle.mysql_conversation.specs.declared.packet_kind.PacketKind.TheVariants as kind;
ghost use Rattle.mysql_observer.specs.Read.{IsRead};
ghost use Rattle.mysql_observer.specs.declared.read_context.ReadContext as context;
ghost use Rattle.mysql_conversation.specs.Pipelined.{Numbered};
ghost use Rattle.mysql_conversation.specs.Session.{IsLoggedIn, IsSessionBeginning};
ghost use Rattle.mysql_statements.specs.Table as tables;
ghost use Rattle.mysql_statements.specs.declared.limits.StatementLimits as statement_limits;
ghost use Rattle.mysql_statements.specs.declared.limits.PipelinedLimits as early_limits;
ghost use Rattle.mysql_observer.specs.Tracked as tracked;
ghost use Rattle.mysql_observer.specs.Observed as observed;
ghost use Rattle.mysql_observer.specs.Order as order;

use mysql_stmt::TypedColumn;

/// OK packets, ends, column counts, prepared statements and greetings are classified by their content, so
/// reading one never fails.
pub fn what_is_found_by_its_bytes_is_read<C: TypedColumn>()
    ensures ok { (c : context.ReadContext C) (a : agreement.Agreed) (more : Bool) (p : List ℕ) → c.agreed ≡ Some a → payloads.IsOk a more p → IsRead C.type_of C.unsigned c kind.Ok p }
    ensures end { (c : context.ReadContext C) (a : agreement.Agreed) (more : Bool) (p : List ℕ) → c.agreed ≡ Some a → payloads.IsEnd a more p → IsRead C.type_of C.unsigned c (ending (deprecates_eof a)) p }
    ensures definitions_end { (c : context.ReadContext C) (a : agreement.Agreed) (status : flags.StatusFlags) (p : List ℕ) → c.agreed ≡ Some a → payloads.IsOldEnd a status p → IsRead C.type_of C.unsigned c kind.Eof p }
    ensures count { (c : context.ReadContext C) (a : agreement.Agreed) (n : ℕ) (follow : Bool) (p : List ℕ) → c.agreed ≡ Some a → payloads.IsCount a n follow p → IsRead C.type_of C.unsigned c (kind.ColumnCount n follow) p }
    ensures prepared { (c : context.ReadContext C) (a : agreement.Agreed) (columns params : ℕ) (follow : Bool) (p : List ℕ) → c.agreed ≡ Some a → payloads.IsPrepared a columns params follow p → IsRead C.type_of C.unsigned c (kind.PrepareOk columns params follow) p }
    ensures greeting { (c : context.ReadContext C) (server : agreement.Agreed) (p : List ℕ) → greeting_at p ≡ Some server → IsRead C.type_of C.unsigned c kind.Handshake p }
{}

/// If no pipelined command is lost, the table is that of the packets after the login in the order of the
/// conversation, of the exchanges up to the one that the server has reached.
pub fn what_is_known_is_in_the_order_of_the_conversation()
    ensures { (a : agreement.Agreed) (front : List Numbered) (x : Numbered) (limits : statement_limits.StatementLimits) (waiting : early_limits.PipelinedLimits) (steps : List order.Step)
        → IsLoggedIn a front x → IsSessionBeginning (front ++ x ∷ order.items_of steps)
        → order.AreEarlyAfter (front ++ x ∷ []) steps
        → order.HavePlaces a steps (tracked.nothing limits waiting)
        → (order.after_steps a steps (tracked.nothing limits waiting)).table ≡ order.tables_after a (order.up_to (order.at_last 0 steps) (order.items_of steps)) (tables.empty limits) }
{}

/// The state that an observer tracks after a list of packets, by its calls of
/// [`Observer::next`](crate::Observer::next), is that after the steps of the conversation after the login, in
/// which each packet says whether it is a pipelined command.
pub fn tracked_packets_are_the_steps_of_a_conversation()
    ensures { (a : agreement.Agreed) (front : List Numbered) (x : Numbered) (rest : List Numbered) (limits : statement_limits.StatementLimits) (waiting : early_limits.PipelinedLimits) (f : tracked.Tracked)
        → IsLoggedIn a front x → observed.AreTracked [] (front ++ x ∷ rest) (tracked.nothing limits waiting) f
        → (steps : List order.Step) × (order.items_of steps ≡ rest) × order.AreEarlyAfter (front ++ x ∷ []) steps × (f ≡ order.after_steps a steps (tracked.nothing limits waiting)) }
{}
