//! An observer of a connection.

ghost use Rattle.std.specs.Prelude.{◌&&◌, ◌-◌, Option, option_copied, IfSome, IfNone, ◌≡◌, ◌↔◌, ◌⊎◌, ◌≤◌, ◌<◌, ◌∷◌, ◌++◌, [], IfOk, IfErr, OnErr, IsTrue, List, ℕ, true, false, None, Some, Err};
ghost use Rattle.mysql_conversation.specs.Session as sessions;
ghost use Rattle.mysql_statements.specs.PipelinedCommands as early;
ghost use Rattle.mysql_statements.specs.ResultColumns as results;
ghost use Rattle.mysql_statements.specs.Table as tables;
ghost use Rattle.mysql_observer.specs.Tracked as spec;

use crate::event::has_header;
use crate::execution::{Known, read_client};
use crate::latest::Latest;
use crate::limits::ObserverLimits;
use crate::observed_packet::ObservedPacket;
use crate::packets::{are_both, has_params, is_early, is_event};
use crate::read_context::ReadContext;
use crate::record::ClientRecord;
use crate::server::ServerPacket;
use crate::server_reader::server_packet;
use crate::tracked::Tracked;
use mysql_conversation::{PacketKind, PacketKindTag, RowFormat, Session, SessionError, Side};
use mysql_replies::SessionCapabilities;
use mysql_statements::{PipelinedCommand, ResultColumns, RowColumn};
use mysql_wire::FaultOf;
use mysql_wire::command_code::COM_STMT_EXECUTE;
use std::alloc::Global;

/// Observes a connection from its greeting on, or from a command on ([`resume`](Self::resume)): takes each
/// payload of both sides, and returns its kind and its record.
#[derive(Drop)]
pub struct Observer {
    alloc: Global,
    session: Session,
    tracked: Tracked,
    latest: Latest,
    columns: ResultColumns,
    /// The number of the last exchange before the connection was resumed.
    before: u64,
    /// The highest number of an exchange so far.
    last: u64,
}

impl Observer {
    ghost use Rattle.mysql_conversation.specs.Pipelined.{Numbered};
    ghost use Rattle.mysql_conversation.specs.Piped as piped;
    ghost use Rattle.mysql_conversation.specs.Piped.{place};
    ghost use Rattle.mysql_conversation.specs.Session.{GoesOn, IsResumedBeginning, IsResumedSession, IsSession, IsSessionBeginning, SessionResumed};
    ghost use Rattle.mysql_conversation.specs.declared.packet_kind.PacketKind as declared;
    ghost use Rattle.mysql_conversation.specs.declared.packet_kind.PacketKind.TheVariants as kinds;
    ghost use Rattle.mysql_wire.specs.CommandCodes as first_bytes;
    ghost use Rattle.mysql_conversation.specs.Agreements as agreement;
    ghost use Rattle.mysql_conversation.specs.declared.packet_kind.Side.TheVariants as side;
    ghost use Rattle.mysql_conversation.specs.declared.pipeline.Pipeline as pipe;
    ghost use Rattle.mysql_conversation.specs.declared.pipeline.SessionError.TheVariants as refusal;
    ghost use Rattle.mysql_observer.specs.PacketContext as context;
    ghost use Rattle.mysql_observer.specs.Event as events;
    ghost use Rattle.mysql_observer.specs.Records as records;
    ghost use Rattle.mysql_observer.specs.Observed as observed;
    ghost use Rattle.mysql_observer.specs.Observed.{Knows, KnowsResumed, Observed, Resumed, ResumedAfter};

    /// Creates an observer before the first packet, with these limits.
    pub fn new(alloc: Global, limits: ObserverLimits) -> Self
        ensures observed { Observed result [] }
        ensures tracked { observed.tracked result ≡ record { table = tables.empty limits.statements; early = early.none_waits limits.early; lost = None; params = None; reached = None } }
        ensures columns { observed.result_columns result ≡ results.unknown limits.columns }
        ensures limit { observed.limit result ≡ limits.waiting }
    {
        Observer {
            alloc,
            session: Session::new(alloc, limits.waiting),
            tracked: Tracked::none(alloc, limits),
            latest: Latest::none(),
            columns: ResultColumns::new(alloc, limits.columns),
            before: 0,
            last: 0,
        }
    }

    /// Continues at the next command under the agreed capabilities, in the middle of a connection or after a
    /// loss. Exchange numbers continue, and no statement is known.
    ///
    /// ```
    /// observer.resume(agreed);
    /// Ok(observer.next(Side::Client, command)?.kind)
    /// ```
    pub fn resume(&mut self, agreed: SessionCapabilities)
        ensures resumed { Resumed self.new agreed (observed.last_exchange self.old) [] }
        ensures last { observed.last_exchange self.new ≡ observed.last_exchange self.old }
        ensures tracked { observed.tracked self.new ≡ spec.forgotten (observed.tracked self.old) }
        ensures columns { observed.result_columns self.new ≡ results.unknown (observed.result_columns self.old).limit }
        ensures limit { observed.limit self.new ≡ observed.limit self.old }
    {
        self.session.resume(agreed);
        self.tracked.forget();
        self.columns.forget();
        self.latest = Latest::none();
        self.before = self.last;
    }

    /// Continues after this command, the last one so far; the answer to the command before it is lost. Its
    /// first six bytes are enough.
    pub fn resume_after(&mut self, agreed: SessionCapabilities, command: &[u8])
        ensures resumed { ResumedAfter self.new agreed (observed.last_exchange self.old - 1) command.now }
        ensures limit { observed.limit self.new ≡ observed.limit self.old }
    {
        self.resume(agreed);
        self.before = self.last.saturating_sub(1);
        // (a command comes between two exchanges)
        let _observed = self.next(Side::Client, command);
    }

    /// Returns the highest number of an exchange so far.
    pub fn last_exchange(&self) -> u64
        ensures { result ≡ observed.last_exchange self.now }
    {
        self.last
    }

    /// Whether every command is answered.
    pub fn is_idle(&self) -> bool
        ensures session { (items : List Numbered) → Observed self.now items → IsTrue result ↔ IsSession items }
        ensures resumed { (a : agreement.Agreed) (before : ℕ) (items : List Numbered) → Resumed self.now a before items → IsTrue result ↔ IsResumedSession a items }
    {
        self.session.is_idle()
    }

    /// Returns the capabilities that both sides agreed on, once the client has sent its login.
    pub fn agreed(&self) -> Option<SessionCapabilities>
        ensures session { (items : List Numbered) → Observed self.now items → context.IsAgreed items result }
        ensures resumed { (a : agreement.Agreed) (before : ℕ) (items : List Numbered) → Resumed self.now a before items → result ≡ Some a }
    {
        self.agreed_in_session()
    }

    /// Whether a packet of this kind may come next from this side.
    pub fn may_receive(&self, from: Side, name: PacketKindTag) -> bool
        ensures { (items : List Numbered) → Observed self.now items → IsTrue result ↔ GoesOn from name items }
    {
        self.session.may_receive(from, name)
    }

    /// Continues after a request for TLS: the payloads that follow are decrypted.
    pub fn tls_established(&mut self)
        ensures stays { (items : List Numbered) → Observed self.old items → Observed self.new items }
        ensures resumed { (a : agreement.Agreed) (before : ℕ) (items : List Numbered) → Resumed self.old a before items → Resumed self.new a before items }
        ensures last { observed.last_exchange self.new ≡ observed.last_exchange self.old }
        ensures limit { observed.limit self.new ≡ observed.limit self.old }
        ensures in_tls { observed.IsEncrypted self.new → ⊥ }
        ensures tracked { observed.tracked self.new ≡ observed.tracked self.old }
        ensures columns { observed.result_columns self.new ≡ observed.result_columns self.old }
    {
        self.session.tls_established();
    }

    /// Classifies the next payload, and returns its kind and its exchange. An error changes nothing.
    #[inline(always)]
    pub fn next(&mut self, from: Side, payload: &[u8]) -> Result<ObservedPacket, SessionError>
        // The packet, with this kind and exchange, is appended to what was taken.
        ensures taken { IfOk result (λ x. (items : List Numbered) → Observed self.old items → Observed self.new (items ++ place from payload.now x.kind x.exchange ∷ [])) }
        // What it says about later packets is known, if there was memory for it.
        ensures knows { IfOk result (λ x. (items : List Numbered) → Observed self.old items → Knows x.has_memory items (place from payload.now x.kind x.exchange) self.old self.new) }
        // With no kind and exchange does the packet continue what was taken.
        ensures refused { IfErr result (λ why. (items : List Numbered) (kind : declared.PacketKind) (number : ℕ) → why ≡ refusal.UnexpectedPacket → Observed self.old items
            → IsSessionBeginning (items ++ place from payload.now kind number ∷ []) → ⊥) }
        // The same for a connection that was resumed.
        ensures resumed { IfOk result (λ x. (a : agreement.Agreed) (before : ℕ) (items : List Numbered) → Resumed self.old a before items
            → (number : ℕ) × (x.exchange ≡ observed.exchange_from before number) × Resumed self.new a before (items ++ place from payload.now x.kind number ∷ [])) }
        ensures more { IfOk result (λ x. (a : agreement.Agreed) (before : ℕ) (items : List Numbered) → Resumed self.old a before items
            → (number : ℕ) × KnowsResumed a x.has_memory items x.exchange (place from payload.now x.kind number) self.old self.new) }
        ensures not_next { IfErr result (λ why. (a : agreement.Agreed) (before : ℕ) (items : List Numbered) (kind : declared.PacketKind) (number : ℕ) → why ≡ refusal.UnexpectedPacket → Resumed self.old a before items
            → IsResumedBeginning a (items ++ place from payload.now kind number ∷ []) → ⊥) }
        ensures kept { OnErr result ((a : agreement.Agreed) (before : ℕ) (items : List Numbered) → Resumed self.old a before items → Resumed self.new a before items) }
        // Exactly after a request for TLS, until `tls_established` is called: except for an error that the server sends in clear.
        ensures encrypted { (result ≡ Err refusal.Encrypted) ↔ observed.IsHidden self.old from payload.now }
        ensures tls { IfOk result (λ _. observed.IsEncrypted self.new ↔ observed.AsksForTls self.old from payload.now) }
        // Exactly for a login by which both sides agree on compression.
        ensures compressed { (result ≡ Err refusal.Compressed) ↔ observed.AgreesOnCompression self.old from payload.now }
        // Exactly for a command, if the limit of waiting commands is reached, or 2^64 - 1 commands were counted.
        ensures full { (result ≡ Err refusal.Full) ↔ ((p : pipe.Pipeline) × observed.Continues self.old p × piped.IsFull p from payload.now) }
        // The command would have to wait, and may, but there is no capacity for it.
        ensures asked { IfErr result (λ why. why ≡ refusal.Memory → piped.IsCommand from payload.now) }
        ensures memory { IfErr result (λ why. why ≡ refusal.Memory → (p : pipe.Pipeline) × observed.Continues self.old p × (from ≡ side.Client) × piped.MustWait p × (piped.waiting p < piped.limit p) × piped.HasNoCapacity p) }
        // A packet refused as full, or for memory, may come next.
        ensures comes { IfErr result (λ why. (why ≡ refusal.Full) ⊎ (why ≡ refusal.Memory) → observed.Comes self.old from payload.now) }
        // An error changes nothing.
        ensures err { OnErr result ((items : List Numbered) → Observed self.old items → Observed self.new items) }
        ensures same { OnErr result (observed.tracked self.new ≡ observed.tracked self.old) }
        ensures unchanged { OnErr result (observed.IsSame self.old self.new) }
        ensures limit { observed.limit self.new ≡ observed.limit self.old }
    {
        let is_between = self.session.is_idle();
        match self.session.next(from, payload) {
            Ok((kind, number)) => {
                let is_early = is_early(is_between, from, kind, payload);
                let exchange = self.exchange_of(number);
                self.last = self.last.max(exchange);
                self.latest = self.latest.after(kind, number);
                let agreed = self.session.agreed();
                let is_kept = self.keep(agreed, is_early, kind, exchange, payload);
                let is_defined = self.define(agreed, kind, payload);
                let has_memory = are_both(is_kept, is_defined);
                Ok(ObservedPacket {
                    kind,
                    exchange,
                    has_memory,
                })
            }
            Err(why) => Err(why),
        }
    }

    /// Returns the number of an exchange of this session, continued from those before the connection was resumed.
    #[inline(always)]
    fn exchange_of(&self, number: u64) -> u64
        ensures value { result ≡ observed.exchange_from self.now.before number }
        ensures whole { self.now.before ≡ 0 → result ≡ number }
    {
        self.before.saturating_add(number)
    }

    /// Keeps what a packet says about later ones. Returns whether there was memory for it.
    #[inline(always)]
    fn keep(
        &mut self,
        agreed: Option<SessionCapabilities>,
        is_early: bool,
        kind: PacketKind,
        exchange: u64,
        payload: &[u8],
    ) -> bool
        ensures same { observed.IsPlaced self.old self.new }
        ensures columns { self.new.columns ≡ self.old.columns }
        ensures tracked { spec.KeptIn agreed is_early kind exchange payload.now result self.old.tracked self.new.tracked }
    {
        let Some(agreed) = agreed else {
            self.tracked.forget_executions();
            return true;
        };
        if is_early {
            self.tracked.hold(exchange, payload)
        } else {
            self.tracked.take(agreed, kind, exchange, payload)
        }
    }

    /// Keeps what a packet says about the columns of a result. Returns whether there was memory for it.
    #[inline(always)]
    fn define(
        &mut self,
        agreed: Option<SessionCapabilities>,
        kind: PacketKind,
        payload: &[u8],
    ) -> bool
        ensures same { observed.IsPlaced self.old self.new }
        ensures tracked { self.new.tracked ≡ self.old.tracked }
        ensures columns { context.DefinedIn agreed kind payload.now result self.old.columns self.new.columns }
    {
        match agreed {
            Some(agreed) => self.columns.take(agreed, kind, payload).is_ok(),
            None => true,
        }
    }

    /// Returns the columns of the last result, in order, if all of their definitions have come and are kept.
    ///
    /// A value of a text row is converted by the type and the sign of its column. The result is `None` if the
    /// definitions were omitted, one of them can't be read, there are more than
    /// [`ObserverLimits::columns`](crate::ObserverLimits::columns), or there was no memory for them; also after
    /// an error, and after a statement is prepared.
    ///
    /// ```
    /// observer.result_columns().unwrap_or(&[])
    /// ```
    pub fn result_columns(&self) -> Option<&[RowColumn]>
        ensures some { IfSome result (λ columns. results.known (observed.result_columns self.now) ≡ Some columns.now) }
        ensures none { IfNone result (results.known (observed.result_columns self.now) ≡ None) }
    {
        self.columns.columns()
    }

    /// Returns the record of the server's packet that was passed last, of the kind that [`next`](Self::next) returned.
    ///
    /// If the kind's reader refuses the payload, its fault is returned; the connection continues as the kind says.
    #[inline(always)]
    pub fn server_packet<'s, 'a, 'o>(
        &'o self,
        kind: PacketKind,
        payload: &'a [u8],
    ) -> Result<ServerPacket<'a, 'o, RowColumn>, FaultOf<'s>>
        ensures packet { IfOk result (λ p. (items : List Numbered) → Observed self.now items → records.IsServerPacket (context.IsAgreed items) items (observed.tracked self.now) (observed.result_columns self.now) kind payload.now p) }
        ensures fault { IfErr result (λ e. (items : List Numbered) → Observed self.now items → records.IsServerFault (context.IsAgreed items) items (observed.tracked self.now) (observed.result_columns self.now) kind payload.now e) }
        ensures resumed { IfOk result (λ p. (a : agreement.Agreed) (before : ℕ) (items : List Numbered) → Resumed self.now a before items
            → records.IsServerPacket (records.Are a) items (observed.tracked self.now) (observed.result_columns self.now) kind payload.now p) }
        ensures resumed_fault { IfErr result (λ e. (a : agreement.Agreed) (before : ℕ) (items : List Numbered) → Resumed self.now a before items
            → records.IsServerFault (records.Are a) items (observed.tracked self.now) (observed.result_columns self.now) kind payload.now e) }
    {
        let context = self.context(kind, payload);
        server_packet(self.alloc, &context, kind, payload)
    }

    /// The context that results from the packets so far.
    #[inline(always)]
    fn context(&self, kind: PacketKind, payload: &[u8]) -> ReadContext<'_, RowColumn>
        ensures session { (items : List Numbered) → sessions.SessionTaken self.now.session items → context.IsAgreed items result.agreed }
        ensures resumed { (a : agreement.Agreed) (items : List Numbered) → SessionResumed self.now.session a items → result.agreed ≡ Some a }
        ensures count { result.column_count ≡ self.now.latest.column_count }
        ensures columns { option_copied result.columns ≡ context.columns_for kind (context.columns_of_binary self.now.latest (observed.tracked self.now) (observed.result_columns self.now)) }
        ensures semi_sync { result.semi_sync ≡ (context.is_event kind && events.has_header payload.now) }
    {
        ReadContext {
            agreed: self.agreed_in_session(),
            column_count: self.latest.column_count as usize,
            columns: self.columns(kind),
            semi_sync: is_event(kind) && has_header(self.alloc, payload),
        }
    }

    /// The agreed capabilities of the session.
    #[inline(always)]
    fn agreed_in_session(&self) -> Option<SessionCapabilities>
        ensures session { (items : List Numbered) → sessions.SessionTaken self.now.session items → context.IsAgreed items result }
        ensures resumed { (a : agreement.Agreed) (items : List Numbered) → SessionResumed self.now.session a items → result ≡ Some a }
    {
        self.session.agreed()
    }

    /// The columns of a packet of this kind, a binary row, if they are known.
    #[inline(always)]
    fn columns(&self, kind: PacketKind) -> Option<&[RowColumn]>
        ensures { option_copied result ≡ context.columns_for kind (context.columns_of_binary self.now.latest (observed.tracked self.now) (observed.result_columns self.now)) }
    {
        match kind {
            PacketKind::Row(RowFormat::Binary) => self.columns_of_binary(),
            _ => None,
        }
    }

    /// The columns of the binary rows of this exchange, if they are known.
    #[inline(always)]
    fn columns_of_binary(&self) -> Option<&[RowColumn]>
        ensures { option_copied result ≡ context.columns_of_binary self.now.latest (observed.tracked self.now) (observed.result_columns self.now) }
    {
        if self.latest.is_of_result() {
            if let Some(columns) = self.columns.columns() {
                return Some(columns);
            }
        }
        self.tracked.columns()
    }

    /// Returns the record of the client's packet that was passed last, of the kind that [`next`](Self::next) returned.
    ///
    /// If the kind's reader refuses the payload, its fault is returned; the connection continues as the kind says.
    #[inline(always)]
    pub fn client_packet<'s, 'a, 'o>(
        &'o self,
        kind: PacketKind,
        payload: &'a [u8],
    ) -> Result<ClientRecord<'a, 'o>, FaultOf<'s>>
        ensures packet { IfOk result (λ r. (items : List Numbered) → Observed self.now items → (agreed : Option agreement.Agreed) × context.IsAgreed items agreed
            × records.IsClientRecord agreed (records.known_params agreed (observed.tracked self.now).params kind) kind payload.now r) }
        ensures fault { IfErr result (λ e. (items : List Numbered) → Observed self.now items → (agreed : Option agreement.Agreed) × context.IsAgreed items agreed
            × records.IsClientFault agreed (records.known_params agreed (observed.tracked self.now).params kind) kind payload.now e) }
        ensures resumed { IfOk result (λ r. (a : agreement.Agreed) (before : ℕ) (items : List Numbered) → Resumed self.now a before items
            → records.IsClientRecord (Some a) (records.known_params (Some a) (observed.tracked self.now).params kind) kind payload.now r) }
        ensures resumed_fault { IfErr result (λ e. (a : agreement.Agreed) (before : ℕ) (items : List Numbered) → Resumed self.now a before items
            → records.IsClientFault (Some a) (records.known_params (Some a) (observed.tracked self.now).params kind) kind payload.now e) }
    {
        let agreed = self.agreed_in_session();
        read_client(
            self.alloc,
            agreed,
            kind,
            self.known_params(agreed, kind),
            payload,
        )
    }

    /// Returns the pipelined execution whose answer began with the packet that was passed last, if its statement is known. When the
    /// execution came, its statement was not known yet, or an earlier command could still change its types.
    ///
    /// ```
    /// let Some(execution) = observer.reached_execution() else {
    /// return Ok(false);
    /// };
    /// let record = observer.reached_packet(execution.payload())?;
    /// ```
    pub fn reached_execution(&self) -> Option<&PipelinedCommand>
        ensures some { IfSome result (λ c. (r : spec.Reached) × ((observed.tracked self.now).reached ≡ Some r) × (c.now ≡ r.command)) }
        ensures none { IfNone result ((observed.tracked self.now).reached ≡ None) }
    {
        self.tracked.reached()
    }

    /// Returns the record of the pipelined execution that the server has reached, which has this payload.
    ///
    /// The errors are those of [`client_packet`](Self::client_packet).
    pub fn reached_packet<'s, 'a, 'o>(
        &'o self,
        payload: &'a [u8],
    ) -> Result<ClientRecord<'a, 'o>, FaultOf<'s>>
        ensures packet { IfOk result (λ r. (items : List Numbered) → Observed self.now items → (agreed : Option agreement.Agreed) × context.IsAgreed items agreed
            × records.IsClientRecord agreed (records.reached_params (observed.tracked self.now).reached) (kinds.Command first_bytes.COM_STMT_EXECUTE) payload.now r) }
        ensures fault { IfErr result (λ e. (items : List Numbered) → Observed self.now items → (agreed : Option agreement.Agreed) × context.IsAgreed items agreed
            × records.IsClientFault agreed (records.reached_params (observed.tracked self.now).reached) (kinds.Command first_bytes.COM_STMT_EXECUTE) payload.now e) }
        ensures resumed { IfOk result (λ r. (a : agreement.Agreed) (before : ℕ) (items : List Numbered) → Resumed self.now a before items
            → records.IsClientRecord (Some a) (records.reached_params (observed.tracked self.now).reached) (kinds.Command first_bytes.COM_STMT_EXECUTE) payload.now r) }
        ensures resumed_fault { IfErr result (λ e. (a : agreement.Agreed) (before : ℕ) (items : List Numbered) → Resumed self.now a before items
            → records.IsClientFault (Some a) (records.reached_params (observed.tracked self.now).reached) (kinds.Command first_bytes.COM_STMT_EXECUTE) payload.now e) }
    {
        let agreed = self.agreed_in_session();
        read_client(
            self.alloc,
            agreed,
            PacketKind::Command(COM_STMT_EXECUTE),
            self.tracked.reached_params(),
            payload,
        )
    }

    /// The parameters of an execution, if its statement is known.
    #[inline(always)]
    fn known_params(&self, agreed: Option<SessionCapabilities>, kind: PacketKind) -> Known<'_>
        ensures { records.params_in result ≡ records.known_params agreed (observed.tracked self.now).params kind }
    {
        let known = self.tracked.params();
        Known {
            params: known.params,
            is_bound: known.is_bound,
            is_known: known.is_known && has_params(agreed, kind),
        }
    }
}
