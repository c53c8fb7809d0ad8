//! The words of `pfh-make`.

ghost use Rattle.std.specs.Prelude.{◌≡◌, ◌∷◌, [], ℕ, List, IfNone, IfOk, IfSome, codes, drop, map, option_copied, string_bytes, unwrap_or};
ghost use Rattle.header_tool.specs.Made.{MakeValue, make_value};
ghost use Rattle.command_words.specs.Asked.{AsksFor};
ghost use Rattle.command_words.specs.Lines.{options_read};
ghost use Rattle.command_words.specs.Making.{MakeSays};
ghost use Rattle.command_words.specs.Refusals.{IsRefusedFor};
ghost use Rattle.command_words.specs.Words.{IsMake};

use crate::air::read_air;
use crate::body::BodyRequest;
use crate::line::{self, MakeTexts};
use crate::number::{LAST_MOMENT, number_or};
use crate::request::{Refusal, Request};
use header_tool::MakeSpec;
use std::alloc::Global;

/// The last file_type.
const LAST_TYPE: u64 = 255;

/// The file that the words ask to make: of which body, under which name it is to be kept, and what its header is to say.
#[derive(Clone, Copy, Debug, PartialEq, Eq)]
pub struct MakeRequest<'a> {
    /// BODY: the name of the body on the shelf.
    pub body: &'a str,
    /// NAME: the name on the shelf under which the file is to be kept.
    pub kept: &'a str,
    /// What its header is to say, which isn't refused ([`MakeSpec::refusal`]). Where the words don't say, the extension
    /// and the source are empty, the type and the time 0, and there is no destination and no title.
    pub header: MakeSpec<'a>,
}

/// The file that the words ask to keep, which is made of another one.
#[derive(Clone, Copy, Debug, PartialEq, Eq)]
pub enum MakingRequest<'a> {
    /// `pfh-make`: a file of a body and a header.
    Make(MakeRequest<'a>),
    /// `pfh-body`: the body of a file.
    Body(BodyRequest<'a>),
}

/// Reads the words of `pfh-make`: AIR and the line from `pfh-make` on. Takes memory.
pub(crate) fn make_request<'a>(
    alloc: Global,
    air: &str,
    line: &'a [String],
) -> Result<Request<'a>, Refusal>
    ensures asks { IfOk result (λ request. (disk : List ℕ) →
        AsksFor (disk ∷ air.now ∷ codes "pfh-make" ∷ drop 1 (map string_bytes line.now)) request) }
    ensures refused { IsRefusedFor result ((disk body kept : List ℕ) (spec : MakeValue) →
        IsMake (disk ∷ air.now ∷ codes "pfh-make" ∷ drop 1 (map string_bytes line.now)) body kept spec → ⊥) }
{
    if read_air(air).is_none() {
        return Err(Refusal::Usage);
    }
    let texts = line::read_make(alloc, line)?;
    let Some(header) = header_from(texts) else {
        return Err(Refusal::Usage);
    };
    match header.refusal() {
        Some(_) => Err(Refusal::Usage),
        None => Ok(Request::Making(MakingRequest::Make(MakeRequest {
            body: texts.body,
            kept: texts.kept,
            header,
        }))),
    }
}

/// What these texts say of a header, where a name is given and the numbers are in their ranges.
fn header_from<'a>(texts: MakeTexts<'a>) -> Option<MakeSpec<'a>>
    ensures says { IfSome result (λ header. MakeSays (options_read texts.entry) (make_value header)) }
    ensures none { IfNone result ((spec : MakeValue) → MakeSays (options_read texts.entry) spec → ⊥) }
{
    let name = texts.name?;
    let file_type = number_or(0, 0, LAST_TYPE, texts.file_type)?;
    let time = number_or(0, 0, LAST_MOMENT, texts.time)?;
    Some(MakeSpec {
        name,
        ext: text_or_none(texts.ext),
        file_type: file_type as u8,
        time: time as u32,
        source: text_or_none(texts.source),
        destination: texts.destination,
        title: texts.title,
    })
}

/// The value of an option, or the empty text where none is given.
fn text_or_none<'a>(value: Option<&'a str>) -> &'a str
    ensures { result.now ≡ unwrap_or (option_copied value.entry) [] }
{
    match value {
        Some(text) => text,
        None => "",
    }
}
