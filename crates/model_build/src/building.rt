ghost use Rattle.std.specs.Prelude.{◌<◌, ◌^◌, ℕ, List, Err, IfErr, IfOk, length};
ghost use Rattle.element_store.specs.Model.{data_of};
ghost use Rattle.element_store.specs.declared.outcome.Language.{Language};
ghost use Rattle.token_core.specs.Lex.{Lexes};
ghost use Rattle.text_model.specs.Profile.{InProfile, IsFaultOf};
ghost use Rattle.model_build.specs.Found.{IsFound};

use draft_limits::{deepest, least, lesser, place_over};
use draft_numbers::{Heading, number};
use draft_walk::{Drafts, Source, draft};
use element_store::{FileModel, FileNo, Language, ModelParts};
use linker_base::NoMemory;
use std::alloc::Global;
use text_model::FileFault;
use token_core::{LexFault, lex};

/// The fault of a text that has no tokens.
fn fault_of(fault: LexFault) -> FileFault
    ensures { (language : Language) (text : List ℕ) → Lexes language text (Err fault)
        → IsFaultOf language text result }
{
    match fault {
        LexFault::Encoding(place) => FileFault::Encoding(place),
        LexFault::Token(place) => FileFault::Token(place),
        LexFault::TooDeep(place) => FileFault::TooDeep(place),
        LexFault::NoMemory => FileFault::NoMemory,
    }
}

/// The lists of a model, and the least place at which a limit is passed.
#[derive(Drop)]
struct Found {
    parts: ModelParts,
    over: Option<u32>,
}

/// Numbers drafts, and looks for limits that are passed.
fn find(alloc: Global, heading: Heading, drafts: Drafts) -> Result<Found, NoMemory>
    ensures { IfOk result (λ found. IsFound heading.file heading.language drafts
        (data_of found.parts) found.over) }
{
    let large = least(&drafts.large);
    let deep = deepest(alloc, &drafts.elements)?;
    let parts = number(
        alloc,
        heading,
        drafts.elements,
        drafts.members,
        drafts.imports,
    )?;
    let many = place_over(alloc, &parts.reference_places)?;
    Ok(Found {
        parts,
        over: lesser(large, lesser(deep, many)),
    })
}

/// The model of a file with this text: what the linking of files and all queries begin with. The text has fewer than
/// 2^32 bytes. It has a model or one fault, and each fault comes with its place in bytes from 0. The refusals, the first
/// that there is: `Encoding`, where the text stops being UTF-8; `Token`, where no piece of the notation begins; `TooDeep`,
/// the bracket that raises the nesting to 65; `Syntax`, the first token through which no text of the language begins
/// alike, or the end of the text; `Limit`, the least place of an integer above the greatest, of an expression deeper than
/// 1000, or of the first reference above the number that a file may have. `NoMemory` says nothing of the text.
pub fn build(
    alloc: Global,
    file: FileNo,
    text: &[u8],
    language: Language,
) -> Result<FileModel, FileFault>
    requires { length text.now < 2 ^ 32 }
    ensures model { IfOk result (λ model. InProfile file language text.now model) }
    ensures fault { IfErr result (λ fault. IsFaultOf language text.now fault) }
{
    let tokens = match lex(alloc, text, language) {
        Ok(tokens) => tokens,
        Err(fault) => return Err(fault_of(fault)),
    };
    let source = Source {
        text,
        tokens: tokens.as_slice(),
        language,
    };
    let drafts = draft(alloc, &source)?;
    drop(tokens);
    let Ok(found) = find(alloc, Heading { file, language }, drafts) else {
        return Err(FileFault::NoMemory);
    };
    if let Some(place) = found.over {
        return Err(FileFault::Limit(place));
    }
    match FileModel::of(alloc, found.parts) {
        Ok(model) => Ok(model),
        Err(_) => Err(FileFault::NoMemory),
    }
}
