// What calls answer, as the lines that are printed.
ghost use Rattle.std.specs.Prelude.{◌≡◌, ◌<◌, ◌-◌, ◌^◌, List, IfOk, Ok, length};
ghost use Rattle.psa_status.specs.declared.Status.TheVariants.{Success};
ghost use Rattle.store_model.specs.Prelude.{attribute_bytes};
ghost use Rattle.script_lang.specs.Prelude.{AreKept, ReplyLine};
ghost use Rattle.session_host.specs.Replying.{IsNoted, NotesLine, reply_of};

use key_attributes::Attributes;
use psa_status::{Memory, Status};
use script_lang::Replies;
use service_calls::Output;
use std::alloc::{AllocError, Global};

// Notes an answer of these bytes, and hands the identifier on.
fn note_bytes(
    replies: &mut Replies,
    rank: u64,
    status: Status,
    bytes: &[u8],
    id: u32,
) -> Result<u32, Memory>
    requires kept { (lines : List ReplyLine) × AreKept replies.old lines × (length lines < 2 ^ 32 - 1) }
    ensures noted { IfOk result (λ given. NotesLine replies.old replies.new rank status bytes.now) }
    ensures id { IfOk result (λ given. given ≡ id) }
    ensures session { replies.new.session ≡ replies.old.session }
    ensures form { replies.new.form ≡ replies.old.form }
{
    replies.push(rank, status, bytes)?;
    Ok(id)
}

fn attribute_bytes(alloc: Global, attributes: &Attributes) -> Result<Vec<u8>, AllocError>
    ensures { IfOk result (λ v. v.items ≡ attribute_bytes attributes.now) }
{
    let mut bytes = attributes.lifetime.0.to_be_bytes().to_vec(alloc)?;
    bytes.extend_from_slice(&attributes.id.0.to_be_bytes())?;
    bytes.extend_from_slice(&attributes.key_type.0.to_be_bytes())?;
    bytes.extend_from_slice(&attributes.bits.to_be_bytes())?;
    bytes.extend_from_slice(&attributes.policy.usage.0.to_be_bytes())?;
    bytes.extend_from_slice(&attributes.policy.alg.0.to_be_bytes())?;
    if attributes.policy.alg2.0 == 0 {
        return Ok(bytes);
    }
    bytes.extend_from_slice(&attributes.policy.alg2.0.to_be_bytes())?;
    Ok(bytes)
}

// Notes the answer to a call that asks for attributes.
fn note_attributes(
    alloc: Global,
    replies: &mut Replies,
    rank: u64,
    attributes: &Attributes,
) -> Result<u32, Memory>
    requires kept { (lines : List ReplyLine) × AreKept replies.old lines × (length lines < 2 ^ 32 - 1) }
    ensures noted { IfOk result (λ given. NotesLine replies.old replies.new rank Success (attribute_bytes attributes.now)) }
    ensures id { IfOk result (λ given. given ≡ 0) }
    ensures session { replies.new.session ≡ replies.old.session }
    ensures form { replies.new.form ≡ replies.old.form }
{
    match attribute_bytes(alloc, attributes) {
        Ok(bytes) => note_bytes(replies, rank, Status::Success, &bytes, 0),
        Err(_) => Err(Memory),
    }
}

// Notes what a call gave whose output buffer then holds `out`.
fn note_output(
    alloc: Global,
    replies: &mut Replies,
    rank: u64,
    output: Output,
    out: &[u8],
) -> Result<u32, Memory>
    requires kept { (lines : List ReplyLine) × AreKept replies.old lines × (length lines < 2 ^ 32 - 1) }
    ensures noted { IfOk result (IsNoted replies.old replies.new rank (reply_of (Ok output) out.now)) }
    ensures session { replies.new.session ≡ replies.old.session }
    ensures form { replies.new.form ≡ replies.old.form }
{
    let done = Status::Success;
    match output {
        Output::Done => note_bytes(replies, rank, done, &[], 0),
        Output::Identifier(id) => note_bytes(replies, rank, done, &id.0.to_be_bytes(), id.0),
        Output::Description(attributes) => note_attributes(alloc, replies, rank, &attributes),
        Output::Bytes(length) => {
            let bytes = &out[..length.min(out.len())];
            note_bytes(replies, rank, done, bytes, 0)
        }
        Output::Number(number) => note_bytes(replies, rank, done, &number.to_be_bytes(), 0),
    }
}

/// Notes the answer to a call whose output buffer then holds `out`, and hands on the identifier that it gave, or 0. No more
/// than `out` has is noted. Fails where memory runs out.
pub fn note(
    alloc: Global,
    replies: &mut Replies,
    rank: u64,
    answer: Result<Output, Status>,
    out: &[u8],
) -> Result<u32, Memory>
    requires kept { (lines : List ReplyLine) × AreKept replies.old lines × (length lines < 2 ^ 32 - 1) }
    ensures noted { IfOk result (IsNoted replies.old replies.new rank (reply_of answer out.now)) }
    ensures session { replies.new.session ≡ replies.old.session }
    ensures form { replies.new.form ≡ replies.old.form }
{
    match answer {
        Ok(output) => note_output(alloc, replies, rank, output, out),
        Err(status) => note_bytes(replies, rank, status, &[], 0),
    }
}
