//! Tokens of JSON, one after another.

ghost use Rattle.std.specs.Prelude.{◌≡◌, ◌++◌, [], ◌∷◌, IfOk, OnOk};
ghost use Rattle.std.specs.Str.{IsUtf8};
ghost use Rattle.json.specs.Lex.{tokens};
ghost use Rattle.json.specs.Print.{print};
ghost use Rattle.json.specs.Token as token;
ghost use Rattle.jsonld_expanded.specs.Written.{Adds};

use json::Writer;
use pod_base::{Bytes, Mem, NoMemory};
use std::alloc::Global;

/// Writes the token `{` of JSON.
pub(crate) fn begin_object(writer: &mut Writer) -> Mem<()>
    ensures { OnOk result (Adds writer.old writer.new (token.begin_object ∷ [])) }
{
    Ok(writer.begin_object()?)
}

/// Writes the token `}` of JSON.
pub(crate) fn end_object(writer: &mut Writer) -> Mem<()>
    ensures { OnOk result (Adds writer.old writer.new (token.end_object ∷ [])) }
{
    Ok(writer.end_object()?)
}

/// Writes the token `[` of JSON.
pub(crate) fn begin_array(writer: &mut Writer) -> Mem<()>
    ensures { OnOk result (Adds writer.old writer.new (token.begin_array ∷ [])) }
{
    Ok(writer.begin_array()?)
}

/// Writes the token `]` of JSON.
pub(crate) fn end_array(writer: &mut Writer) -> Mem<()>
    ensures { OnOk result (Adds writer.old writer.new (token.end_array ∷ [])) }
{
    Ok(writer.end_array()?)
}

/// Writes a JSON string as the key of a member.
pub(crate) fn put_key(writer: &mut Writer, key: &str) -> Mem<()>
    ensures { OnOk result (Adds writer.old writer.new (token.key key.now ∷ [])) }
{
    Ok(writer.key(key)?)
}

/// Writes a JSON string as a value.
pub(crate) fn put_string(writer: &mut Writer, text: &str) -> Mem<()>
    ensures { OnOk result (Adds writer.old writer.new (token.string text.now ∷ [])) }
{
    Ok(writer.string(text)?)
}

/// Writes the tokens of a JSON object's member, a key with a string.
pub(crate) fn put_member(writer: &mut Writer, key: &str, text: &str) -> Mem<()>
    ensures { OnOk result
        (Adds writer.old writer.new (token.key key.now ∷ token.string text.now ∷ [])) }
{
    put_key(writer, key)?;
    put_string(writer, text)
}

/// The bytes of the JSON tokens that a writer wrote which began with none.
pub(crate) fn into_bytes(alloc: Global, writer: Writer) -> Mem<Bytes>
    requires { writer.before ≡ [] }
    ensures text { IfOk result (λ bytes. bytes ≡ print writer.tokens) }
    ensures tokens { IfOk result (λ bytes. tokens bytes ≡ writer.tokens) }
    ensures utf8 { IfOk result (λ bytes. IsUtf8 bytes) }
{
    let text = writer.into_inner();
    match Bytes::from_vec(alloc, text) {
        Ok(bytes) => Ok(bytes),
        Err(_text) => Err(NoMemory),
    }
}
