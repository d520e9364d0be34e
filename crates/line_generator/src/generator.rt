// The lines that a run makes for itself.
ghost use Rattle.std.specs.Prelude.{◌≡◌, ◌≤◌, ◌<◌, ◌+◌, ◌*◌, ◌/◌, ◌%◌, ◌^◌, IfOk, All, length};
ghost use Rattle.script_lang.specs.Prelude.{IsOfSession};
ghost use Rattle.line_generator.specs.Generator.{rising_bytes, call, fields, import_fields, generator_call, generator_line, generator_lines};

use alg_encoding::Alg;
use key_attributes::KeyId;
use psa_status::Memory;
use script_lang::{
    ByteList, Field, FieldValue, Fields, KeyCommand, KeyWord, ScriptCall, ScriptCommand,
    ScriptLine, SinglePartCommand,
};
use service_calls::Op;
use std::alloc::Global;

const CBC_NO_PADDING: Alg = Alg(0x0440_4000);

const CMAC: Alg = Alg(0x03c0_0200);

/// So many bytes, one up from the other, from a number on.
fn counted(alloc: Global, first: u32, count: u32) -> Result<ByteList, Memory>
    requires { first + count < 2 ^ 32 }
    ensures { IfOk result (λ bytes. bytes ≡ rising_bytes first count) }
{
    let mut bytes = Vec::new(alloc);
    for t in 0..count {
        if bytes.push(((first + t) % 256) as u8).is_err() {
            return Err(Memory);
        }
    }
    Ok(ByteList::of(bytes))
}

/// The fields of a call with an algorithm and data.
fn fields(alloc: Global, alg: Alg, bytes: ByteList) -> Result<Fields, Memory>
    ensures { IfOk result (λ read. read ≡ fields alg.0 bytes) }
{
    match vec![in alloc;
        (Field::Alg, FieldValue::Word(alg.0)),
        (Field::Data, FieldValue::Bytes(bytes)),
    ] {
        Ok(items) => Ok(Fields::of(items)),
        Err(_) => Err(Memory),
    }
}

/// The fields of an AES key for CBC without padding, which may be exported.
fn import_fields(alloc: Global, bytes: ByteList) -> Result<Fields, Memory>
    ensures { IfOk result (λ fields. fields ≡ import_fields bytes) }
{
    let items = vec![in alloc;
        (Field::Type, FieldValue::Short(0x2400)),
        (Field::Usage, FieldValue::Word(0x101)),
        (Field::Alg, FieldValue::Word(CBC_NO_PADDING.0)),
        (Field::Data, FieldValue::Bytes(bytes)),
    ];
    match items {
        Ok(items) => Ok(Fields::of(items)),
        Err(_) => Err(Memory),
    }
}

fn call(command: ScriptCommand, key: KeyWord, fields: Fields) -> ScriptCall
    ensures { result ≡ call command key fields }
{
    ScriptCall {
        command,
        key,
        handle: Op::first(),
        fields,
    }
}

/// What the line of a number asks, which stands at this place among its session's.
fn generated_call(alloc: Global, number: u32, place: u32) -> Result<ScriptCall, Memory>
    requires { number ≤ 20000 }
    ensures { IfOk result (λ asked. asked ≡ generator_call number place (place % 5)) }
{
    let kind = place % 5;
    let key = KeyWord::Line(place - kind);
    match kind {
        0 => {
            let fields = import_fields(alloc, counted(alloc, number, 16)?)?;
            let none = KeyWord::Given(KeyId(0));
            Ok(call(ScriptCommand::Key(KeyCommand::Import), none, fields))
        }
        1 => {
            let fields = fields(alloc, CBC_NO_PADDING, counted(alloc, 3 * number, 64)?)?;
            Ok(call(
                ScriptCommand::SinglePart(SinglePartCommand::CipherEncrypt),
                key,
                fields,
            ))
        }
        2 => Ok(call(
            ScriptCommand::Key(KeyCommand::Export),
            key,
            Fields::of(Vec::new(alloc)),
        )),
        3 => {
            let fields = fields(alloc, CMAC, ByteList::from_slice(alloc, &[0])?)?;
            Ok(call(
                ScriptCommand::SinglePart(SinglePartCommand::MacCompute),
                key,
                fields,
            ))
        }
        _ => Ok(call(
            ScriptCommand::Key(KeyCommand::Destroy),
            key,
            Fields::of(Vec::new(alloc)),
        )),
    }
}

/// The line of a number, from 0.
fn generated_line(alloc: Global, number: u32) -> Result<ScriptLine, Memory>
    requires { number ≤ 20000 }
    ensures { IfOk result (λ line. line ≡ generator_line number) }
{
    Ok(ScriptLine {
        session: (number % 4 + 1) as u8,
        call: generated_call(alloc, number, number / 4)?,
    })
}

/// So many lines, of sessions 1 to 4 in turn.
pub fn generated_lines(alloc: Global, count: u32) -> Result<Vec<ScriptLine>, Memory>
    requires { count ≤ 20000 }
    ensures lines { IfOk result (λ lines. lines.items ≡ generator_lines count) }
    ensures length { IfOk result (λ lines. length lines.items ≡ count) }
    ensures sessions { IfOk result (λ lines. All IsOfSession lines.items) }
{
    let mut lines = Vec::new(alloc);
    for number in 0..count {
        let line = generated_line(alloc, number)?;
        if lines.push(line).is_err() {
            return Err(Memory);
        }
    }
    Ok(lines)
}
