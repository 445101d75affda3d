//! Column types as text: their codes, separated by commas.

ghost use Rattle.std.specs.Prelude.{◌≡◌, IfOk, is_some, option_map};
ghost use Rattle.mysql_values.specs.ParamType.{type_with_flags};
ghost use Rattle.mysql_program.specs.TypeWords as spec;

use crate::decimal::u8_of;
use crate::parts::parts_of;
use bitflags::Flags;
use mysql_values::ParamType;
use mysql_wire::{ColumnType, ConstValue, StmtExecuteParamFlags};
use std::alloc::{AllocError, Global};
use std::marker::Model;

/// Column types as text: the code of each in decimal, as the command `column` shows it, followed by `u` if the
/// type is unsigned.
#[derive(Drop)]
pub struct TypeWords<'a> {
    words: &'a [u8],
}

impl<'a> Model for TypeWords<'a> {
    ghost use Rattle.std.specs.Prelude.{List};
    ghost use Rattle.mysql_values.specs.declared.param_type.ParamType.{ParamType};
    ghost use Rattle.mysql_program.specs.TypeWords.{words_types};

    ghost Value = { List ParamType };

    ghost view = { λ t. words_types t.words.now };
}

impl<'a> TypeWords<'a> {
    /// Checks the words, each of which must be a type. It takes no memory.
    pub fn new(words: &'a [u8]) -> Option<TypeWords<'a>>
        ensures value { result ≡ spec.types_of words.now }
    {
        if are_types(words) {
            Some(TypeWords { words })
        } else {
            None
        }
    }

    /// Returns the types, in order.
    pub fn types(&self, alloc: Global) -> Result<Vec<ParamType>, AllocError>
        ensures value { IfOk result (λ types. types.items ≡ self.now) }
    {
        match read_types(alloc, self.words)? {
            Some(types) => Ok(types),
            // Unreachable: each word was found to be a type.
            None => Ok(Vec::new(alloc)),
        }
    }
}

/// Whether each word is a type.
fn are_types(words: &[u8]) -> bool
    ensures value { result ≡ is_some (spec.types_of words.now) }
{
    words
        .split(|byte| *byte == b',')
        .all(|word| type_of(word).is_some())
}

/// Parses the words as types, or returns `None` if one of them isn't a type.
#[tactic(auto, unfolding(crate::specs::TypeWords::types_of))]
fn read_types(alloc: Global, words: &[u8]) -> Result<Option<Vec<ParamType>>, AllocError>
    ensures value { IfOk result (λ types. option_map (λ types. types.items) types ≡ spec.types_of words.now) }
{
    let mut types = Vec::new(alloc);
    for word in parts_of(alloc, words, b',')?.as_slice() {
        match type_of(word) {
            Some(kind) => types.push(kind)?,
            None => return Ok(None),
        }
    }
    Ok(Some(types))
}

/// Parses a word as a type.
#[tactic(auto, using(crate::proofs::Rows::feeds))]
fn type_of(word: &[u8]) -> Option<ParamType>
    ensures value { result ≡ spec.type_of word.now }
{
    match word.strip_suffix(b"u") {
        Some(code) => type_with_flags(code, StmtExecuteParamFlags::UNSIGNED),
        None => type_with_flags(word, StmtExecuteParamFlags::from_bits_retain(0)),
    }
}

/// Returns the type of this code, with its flags.
fn type_with_flags(code: &[u8], flags: StmtExecuteParamFlags) -> Option<ParamType>
    ensures value { result ≡ option_map (λ column_type. type_with_flags column_type flags) (spec.column_type_in code.now) }
{
    let column_type = ColumnType::from_code(u8_of(code)?)?;
    Some(ParamType::new(column_type, flags))
}
