//! The reserved words of both languages. A word is told by its place in its list, from 0 on.

ghost use Rattle.std.specs.Prelude.{◌≡◌, ◌<◌, length, map, true, IfSome};
ghost use Rattle.token_core.specs.Words.{place_in, words};
ghost use Rattle.token_core.specs.Scan.{are_starts, IsPartFor};

use element_store::Language;

/// The reserved words of SysML, in the standard's order, which is that of their bytes.
#[rattlefmt::skip]
static SYSML_WORDS: [&[u8]; 129] = [
    b"about", b"abstract", b"accept", b"action", b"actor", b"after", b"alias", b"all", b"allocate",
    b"allocation", b"analysis", b"and", b"as", b"assert", b"assign", b"assume", b"at",
    b"attribute", b"bind", b"binding", b"by", b"calc", b"case", b"comment", b"concern", b"connect",
    b"connection", b"constant", b"constraint", b"crosses", b"decide", b"def", b"default",
    b"defined", b"dependency", b"derived", b"do", b"doc", b"else", b"end", b"entry", b"enum",
    b"event", b"exhibit", b"exit", b"expose", b"false", b"filter", b"first", b"flow", b"for",
    b"fork", b"frame", b"from", b"hastype", b"if", b"implies", b"import", b"in", b"include",
    b"individual", b"inout", b"interface", b"istype", b"item", b"join", b"language", b"library",
    b"locale", b"loop", b"merge", b"message", b"meta", b"metadata", b"new", b"nonunique", b"not",
    b"null", b"objective", b"occurrence", b"of", b"or", b"ordered", b"out", b"package",
    b"parallel", b"part", b"perform", b"port", b"private", b"protected", b"public", b"redefines",
    b"ref", b"references", b"render", b"rendering", b"rep", b"require", b"requirement", b"return",
    b"satisfy", b"send", b"snapshot", b"specializes", b"stakeholder", b"standard", b"state",
    b"subject", b"subsets", b"succession", b"terminate", b"then", b"timeslice", b"to",
    b"transition", b"true", b"until", b"use", b"variant", b"variation", b"verification", b"verify",
    b"via", b"view", b"viewpoint", b"when", b"while", b"xor",
];

/// Where the words of SysML with each letter begin, and at last how many words there are.
#[rattlefmt::skip]
static SYSML_STARTS: [u8; 27] = [
    0, 18, 21, 30, 38, 46, 54, 54, 55, 65, 66, 66, 70, 74, 78, 84, 92, 92, 101, 111, 117, 119, 126,
    128, 129, 129, 129,
];

/// The reserved words of KerML, likewise.
#[rattlefmt::skip]
static KERML_WORDS: [&[u8]; 102] = [
    b"about", b"abstract", b"alias", b"all", b"and", b"as", b"assoc", b"behavior", b"binding",
    b"bool", b"by", b"chains", b"class", b"classifier", b"comment", b"composite", b"conjugate",
    b"conjugates", b"conjugation", b"connector", b"const", b"crosses", b"datatype", b"default",
    b"dependency", b"derived", b"differences", b"disjoining", b"disjoint", b"doc", b"else", b"end",
    b"expr", b"false", b"feature", b"featured", b"featuring", b"filter", b"first", b"flow", b"for",
    b"from", b"function", b"hastype", b"if", b"implies", b"import", b"in", b"inout",
    b"interaction", b"intersects", b"inv", b"inverse", b"inverting", b"istype", b"language",
    b"library", b"locale", b"member", b"meta", b"metaclass", b"metadata", b"multiplicity",
    b"namespace", b"new", b"nonunique", b"not", b"null", b"of", b"or", b"ordered", b"out",
    b"package", b"portion", b"predicate", b"private", b"protected", b"public", b"redefines",
    b"redefinition", b"references", b"rep", b"return", b"specialization", b"specializes",
    b"standard", b"step", b"struct", b"subclassifier", b"subset", b"subsets", b"subtype",
    b"succession", b"then", b"to", b"true", b"type", b"typed", b"typing", b"unions", b"var",
    b"xor",
];

/// Where the words of KerML with each letter begin, likewise.
#[rattlefmt::skip]
static KERML_STARTS: [u8; 27] = [
    0, 7, 11, 22, 30, 33, 43, 43, 44, 55, 55, 55, 58, 63, 68, 72, 78, 78, 83, 93, 99, 100, 101,
    101, 102, 102, 102,
];

/// Some of the words of a list, one after the other, and the place of the first.
#[derive(Clone, Copy)]
struct Part {
    from: usize,
    words: &'static [&'static [u8]],
}

/// The place of the first of these words that is the bytes.
pub fn place_among(words: &[&[u8]], bytes: &[u8]) -> Option<usize>
    ensures value { result ≡ place_in (map (λ word. word.now) words.now) bytes.now }
    ensures within { IfSome result (λ place. place < length words.now) }
{
    words.iter().position(|word| *word == bytes)
}

/// The words of the language.
fn words_of(language: Language) -> &'static [&'static [u8]]
    ensures { map (λ word. word.now) result.now ≡ words language }
{
    match language {
        Language::Kerml => &KERML_WORDS,
        Language::Sysml => &SYSML_WORDS,
    }
}

/// Where the words with each letter begin.
fn starts_of(language: Language) -> &'static [u8]
    ensures { are_starts (words language) result.now ≡ true }
{
    match language {
        Language::Kerml => &KERML_STARTS,
        Language::Sysml => &SYSML_STARTS,
    }
}

/// The words of the language that begin with this byte.
fn part_of(language: Language, first: u8) -> Part
    ensures { IsPartFor (words language) first result.from (map (λ w. w.now) result.words.now) }
{
    if !first.is_ascii_lowercase() {
        return Part {
            from: 0,
            words: &[],
        };
    }
    let letter = (first - b'a') as usize;
    let starts = starts_of(language);
    let from = starts[letter] as usize;
    let upto = starts[letter + 1] as usize;
    let words = words_of(language);
    Part {
        from,
        words: &words[from..upto],
    }
}

/// The number of the language's reserved word that is spelt so.
pub fn word_number(language: Language, bytes: &[u8]) -> Option<u8>
    ensures { result ≡ place_in (words language) bytes.now }
{
    let [first, ..] = bytes else {
        return None;
    };
    let part = part_of(language, *first);
    let place = place_among(part.words, bytes)?;
    Some((part.from + place) as u8)
}
