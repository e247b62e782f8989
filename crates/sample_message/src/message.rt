//! The text of the message, and the word of a path in it.
ghost use Rattle.std.specs.Prelude.{◌≡◌, ◌++◌, IfOk, string_bytes};
ghost use Rattle.sample_message.specs.Message.{after_entries, entries, entry_text as text_of_entry, before_entries, key_text as text_of_key, message_text as text_of_message, more_entries, path_word as word_of_path};

use crate::keys::{drawn_next, ordered_keys};
use std::alloc::Global;
use tlb_memory::NoMemory;

// What stands before the entries.
const BEFORE_ENTRIES: &[u8] =
    b"message{info:int_msg_info{ihr_disabled:bool_true{},bounce:bool_true{},bounced:bool_false{},\
    src:addr_std{anycast:nothing{},workchain_id:0,address:x{1111111111111111111111111111111111111111111111111111111111111111}},\
    dest:addr_std{anycast:nothing{},workchain_id:0,address:x{2222222222222222222222222222222222222222222222222222222222222222}},\
    value:currencies{grams:nanograms{amount:var_uint{len:4,value:1000000000}},other:extra_currencies{dict:<";

// What stands after them.
const AFTER_ENTRIES: &[u8] =
    b">}},ihr_fee:nanograms{amount:var_uint{len:0,value:0}},fwd_fee:nanograms{amount:var_uint{len:0,value:0}},\
    created_lt:0,created_at:0},\
    init:just{value:left{value:_1{split_depth:nothing{},special:nothing{},code:just{value:^(x{FF00})},data:just{value:^(x{})},library:nothing{}}}},\
    body:right{value:^(x{00000000})}}";

// The bits of a key.
fn key_text(alloc: Global, key: u32) -> Result<String, NoMemory>
    ensures { IfOk result (λ text. string_bytes text ≡ text_of_key key) }
{
    let digits = hex::encode_upper(alloc, key.to_be_bytes())?;
    let text = format!(in alloc; "x{{{digits}}}")?;
    Ok(text)
}

// A key, and itself as a number.
fn entry_text(alloc: Global, key: u32) -> Result<String, NoMemory>
    ensures { IfOk result (λ text. string_bytes text ≡ text_of_entry key) }
{
    let bits = key_text(alloc, key)?;
    let text = format!(in alloc; "{bits}:var_uint{{len:4,value:{key}}}")?;
    Ok(text)
}

// Entries after others.
fn push_more(alloc: Global, text: &mut Vec<u8>, keys: &[u32]) -> Result<(), NoMemory>
    ensures { IfOk result (λ u. text.new.items ≡ text.old.items ++ more_entries keys.now) }
{
    'keys: for (_place, key) in keys.iter().enumerate() {
        text.extend_from_slice(b",")?;
        text.extend_from_slice(entry_text(alloc, *key)?.as_bytes())?;
    }
    Ok(())
}

// All entries.
fn push_entries(alloc: Global, text: &mut Vec<u8>, keys: &[u32]) -> Result<(), NoMemory>
    ensures { IfOk result (λ u. text.new.items ≡ text.old.items ++ entries keys.now) }
{
    match keys.split_first() {
        None => Ok(()),
        Some((first, others)) => {
            text.extend_from_slice(entry_text(alloc, *first)?.as_bytes())?;
            push_more(alloc, text, others)
        }
    }
}

/// The text of the message with so many entries.
pub fn message_text(alloc: Global, count: u32) -> Result<Vec<u8>, NoMemory>
    ensures { IfOk result (λ text. text.items ≡ text_of_message count) }
{
    let keys = ordered_keys(alloc, count)?;
    let mut text = Vec::from_slice(alloc, BEFORE_ENTRIES)?;
    push_entries(alloc, &mut text, keys.as_slice())?;
    text.extend_from_slice(AFTER_ENTRIES)?;
    Ok(text)
}

/// The word of the path to the entry of the key that is drawn first.
pub fn path_word(alloc: Global, count: u32) -> Result<String, NoMemory>
    ensures { IfOk result (λ word. string_bytes word ≡ word_of_path count) }
{
    if count == 0 {
        return Ok(String::from_str(alloc, "/info/value")?);
    }
    let key = key_text(alloc, drawn_next(count))?;
    let word = format!(in alloc; "/info/value/other/dict/{key}")?;
    Ok(word)
}
