//! One of two values.

use crate::buffer::Buffer;
use crate::proto::MySerialize;

/// One of two values, written without a tag. It can't be read, since the bytes don't say which of the two they hold.
///
/// ```
/// let request = BinlogRequest::new(server_id).with_use_gtid(use_gtid);
/// Ok(match request.as_cmd() {
///     Either::Left(by_file) => by_file.serialize(out)?,
///     Either::Right(by_gtids) => by_gtids.serialize(out)?,
/// })
/// ```
#[derive(Clone, Copy, Debug, PartialEq, Eq, PartialOrd, Ord, Hash)]
pub enum Either<L, R> {
    Left(L),
    Right(R),
}

impl<L: MySerialize, R: MySerialize> MySerialize for Either<L, R> {
    ghost use Rattle.mysql_wire.specs.Either.{either_bytes};

    ghost bytes = { either_bytes L.bytes R.bytes };

    #[inline]
    fn defined_len(&self) -> usize {
        match self {
            Either::Left(value) => value.defined_len(),
            Either::Right(value) => value.defined_len(),
        }
    }

    #[inline]
    #[tactic(auto, using(crate::proofs::After::after))]
    fn append<O: Buffer>(&self, out: &mut O) {
        match self {
            Either::Left(value) => value.append(out),
            Either::Right(value) => value.append(out),
        }
    }
}
