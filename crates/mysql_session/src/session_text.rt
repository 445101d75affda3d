//! The parts of session changes that are one byte string each.

ghost use Rattle.std.specs.Prelude.{◌≡◌, [], None, IfOk, IsOk, refl};
ghost use Rattle.std.specs.Cow.{cow_slice_items};
ghost use Rattle.mysql_wire.specs.Text.{GivesText};
ghost use Rattle.mysql_session.specs.SessionText.{session_text, text_bytes, text_of};

use mysql_wire::{
    AnyWidth, BytesRepr, EofBytes, FaultOf, LenEnc, MyDeserialize, ParseBuf, Parts, RawBytes, Sink,
};
use std::alloc::{AllocError, Global};
use std::borrow::{CowSlice, CowStr};
use std::marker::PhantomData;

/// A byte string of a session change: the marker `N` names its meaning, and `R` is its form.
///
/// [`Schema`], [`Gtids`], [`TransactionCharacteristics`], [`TransactionState`] and [`Unsupported`] are types of
/// this form.
#[derive(Drop)]
#[derive_where(Clone, PartialEq, Eq, Hash, Debug)]
pub struct SessionText<'a, N, R>(RawBytes<'a, R>, PhantomData<N>);

/// The marker of [`Schema`].
pub struct SchemaName;

/// The name of the default schema that was set (`SESSION_TRACK_SCHEMA`): a length-encoded string.
pub type Schema<'a> = SessionText<'a, SchemaName, LenEnc>;

/// The marker of [`Gtids`].
pub struct GtidsText;

/// The GTIDs of the transaction (`SESSION_TRACK_GTIDS`), in the server's text form: the rest of the data.
pub type Gtids<'a> = SessionText<'a, GtidsText, EofBytes>;

/// The marker of [`TransactionCharacteristics`].
pub struct TransactionCharacteristicsText;

/// The statements that would restart the transaction (`SESSION_TRACK_TRANSACTION_CHARACTERISTICS`): a
/// length-encoded string.
pub type TransactionCharacteristics<'a> = SessionText<'a, TransactionCharacteristicsText, LenEnc>;

/// The marker of [`TransactionState`].
pub struct TransactionStateText;

/// The state of the transaction (`SESSION_TRACK_TRANSACTION_STATE`), one character for each property: a
/// length-encoded string.
pub type TransactionState<'a> = SessionText<'a, TransactionStateText, LenEnc>;

/// The marker of [`Unsupported`].
pub struct UnsupportedText;

/// A change of a kind without a type of its own: a length-encoded string.
///
/// No reader of [`SessionStateChange`](crate::SessionStateChange) returns it.
pub type Unsupported<'a> = SessionText<'a, UnsupportedText, LenEnc>;

impl<'a, N, R> SessionText<'a, N, R> {
    /// Creates a text of these bytes.
    #[inline]
    pub fn new(bytes: CowSlice<'a, u8>) -> Self
        ensures value { result ≡ text_of (cow_slice_items bytes.entry) }
    {
        SessionText(RawBytes::new(bytes), PhantomData)
    }

    /// Returns the bytes of the text.
    #[inline]
    pub fn as_bytes(&self) -> &[u8]
        ensures value { result.now ≡ text_bytes self.now }
    {
        self.0.as_bytes()
    }

    /// The text, with U+FFFD for invalid UTF-8. Valid UTF-8 is borrowed, and takes no memory.
    pub fn as_str(&self, alloc: Global) -> Result<CowStr<'_>, AllocError>
        ensures text { GivesText (text_bytes self.now) result }
    {
        self.0.as_str(alloc)
    }

    /// Copies the text, so that it borrows nothing. An empty text needs no allocation.
    pub fn into_owned(self, alloc: Global) -> Result<SessionText<'static, N, R>, AllocError>
        ensures value { IfOk result (λ owned. owned ≡ self.entry) }
        ensures no_memory { text_bytes self.entry ≡ [] → IsOk result }
    {
        Ok(SessionText(self.0.into_owned(alloc)?, PhantomData))
    }
}

impl<'de, N, R: BytesRepr<Ctx = ()>> MyDeserialize<'de> for SessionText<'de, N, R> {
    const SIZE: Option<usize> = None;

    type Size = AnyWidth;

    type Ctx = ();

    ghost form = { λ _. session_text (R.form tt) };

    fn deserialize<'s>(_ctx: (), buf: &mut ParseBuf<'de>) -> Result<Self, FaultOf<'s>> {
        let mut bytes = R::deserialize((), buf)?;
        Ok(SessionText::new(CowSlice::Borrowed(bytes.eat_all())))
    }

    ghost size_is = { λ _. refl };
}

impl<N, R: BytesRepr> Parts for SessionText<'_, N, R> {
    ghost bytes = { λ text. R.written (text_bytes text) };

    #[inline(always)]
    fn put<S: Sink>(&self, sink: &mut S) {
        sink.part(&self.0);
    }
}
