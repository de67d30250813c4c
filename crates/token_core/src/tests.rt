//! Texts and their tokens, by hand from the notation's rules.

ghost use Rattle.std.specs.Prelude.{IfSome};
ghost use Rattle.token_core.specs.Lex.{Lexes};
ghost use Rattle.token_core.specs.Reading.{IsTokenOf};
ghost use Rattle.token_core.specs.Terminals.{HasNumber};

use crate::{
    LexFault, Token, TokenKind, Tokens, comment_of, integer_of, lex, name_of, spell_name,
    spell_string, string_of, terminal_of,
};
use element_store::{Language, Text};
use std::alloc::Global;

/// The lexing of a test's text, which is short.
fn lexed(alloc: Global, text: &[u8], language: Language) -> Result<Tokens, LexFault>
    ensures { Lexes language text.now result }
{
    if text.len() < 10_000 {
        lex(alloc, text, language)
    } else {
        Err(LexFault::NoMemory)
    }
}

/// Whether the text is exactly these tokens.
fn has_tokens(alloc: Global, text: &[u8], tokens: &[Token]) -> bool {
    match lexed(alloc, text, Language::Sysml) {
        Ok(list) => list.as_slice() == tokens,
        Err(_) => false,
    }
}

/// Whether the text is one token of this kind, in SysML.
fn is_one(alloc: Global, text: &[u8], kind: TokenKind) -> bool {
    match lexed(alloc, text, Language::Sysml) {
        Ok(list) => match list.as_slice() {
            [token] => token.kind == kind && token.from == 0 && token.upto as usize == text.len(),
            _ => false,
        },
        Err(_) => false,
    }
}

/// Whether the text has this fault.
fn has_fault(alloc: Global, text: &[u8], fault: LexFault) -> bool {
    match lexed(alloc, text, Language::Sysml) {
        Ok(_) => false,
        Err(found) => found == fault,
    }
}

/// The first token of the text, if it is of this kind.
fn first_token(alloc: Global, text: &[u8], language: Language, kind: TokenKind) -> Option<Token>
    requires { HasNumber kind }
    ensures { IfSome result (λ token. IsTokenOf kind text.now token) }
{
    match lexed(alloc, text, language) {
        Ok(tokens) => match tokens.as_slice() {
            [first, ..] if terminal_of(first.kind) == terminal_of(kind) => Some(*first),
            _ => None,
        },
        Err(_) => None,
    }
}

/// The spelling of the name that the text begins with.
fn respelt_name(alloc: Global, text: &[u8], language: Language) -> Option<Text> {
    let token = first_token(alloc, text, language, TokenKind::Name)?;
    let name = name_of(alloc, text, token).ok()?;
    spell_name(alloc, &name, language).ok()
}

/// The spelling of the string that the text begins with.
fn respelt_string(alloc: Global, text: &[u8], language: Language) -> Option<Text> {
    let token = first_token(alloc, text, language, TokenKind::Quote)?;
    let string = string_of(alloc, text, token).ok()?;
    spell_string(alloc, &string).ok()
}

/// What the comment says that the text begins with.
fn comment(alloc: Global, text: &[u8]) -> Option<Text> {
    let token = first_token(alloc, text, Language::Sysml, TokenKind::Comment)?;
    comment_of(alloc, text, token).ok()
}

/// The integer that the text begins with, None where it is too great.
fn integer(alloc: Global, text: &[u8]) -> Option<i64> {
    let token = first_token(alloc, text, Language::Sysml, TokenKind::Integer)?;
    integer_of(text, token)
}

fn is_text(text: Option<Text>, bytes: &[u8]) -> bool {
    match text {
        Some(text) => text.bytes() == bytes,
        None => false,
    }
}

fn token(kind: TokenKind, from: u32, upto: u32) -> Token {
    Token { kind, from, upto }
}

fn sign(number: u8, from: u32, upto: u32) -> Token {
    token(TokenKind::Sign(number), from, upto)
}

#[test]
fn signs_are_taken_longest(rt: HostRuntime) {
    let signs: [&[u8]; 43] = [
        b"{", b"}", b"[", b"]", b"(", b")", b"<", b">", b";", b",", b".", b"..", b":", b"::",
        b":>", b":>>", b"::>", b"=", b"==", b"!=", b"===", b"!==", b"<=", b">=", b"+", b"-", b"*",
        b"**", b"/", b"%", b"&", b"|", b"~", b"^", b"@", b"@@", b"#", b"$", b"?", b"??", b"->",
        b"=>", b":=",
    ];
    for (number, sign) in signs.iter().enumerate() {
        assert!(rt; is_one(rt.alloc(), sign, TokenKind::Sign(number as u8)));
    }
    assert!(rt; has_fault(rt.alloc(), b"!", LexFault::Token(0)));
    assert!(rt; has_tokens(rt.alloc(), b":::>", &[sign(13, 0, 2), sign(14, 2, 4)]));
    assert!(rt; has_tokens(rt.alloc(), b"::>>", &[sign(16, 0, 3), sign(7, 3, 4)]));
    assert!(rt; has_tokens(rt.alloc(), b"....", &[sign(11, 0, 2), sign(11, 2, 4)]));
    assert!(rt; has_tokens(rt.alloc(), b"====", &[sign(20, 0, 3), sign(17, 3, 4)]));
    assert!(rt;
        has_tokens(
            rt.alloc(),
            b"a/b",
            &[
                token(TokenKind::Name, 0, 1),
                token(TokenKind::Sign(28), 1, 2),
                token(TokenKind::Name, 2, 3),
            ]
        )
    );
}

#[test]
fn notes_and_comments_end_where_they_close(rt: HostRuntime) {
    assert!(rt; has_tokens(rt.alloc(), b"", &[]));
    assert!(rt; has_tokens(rt.alloc(), b" \t\x0C\r\n", &[]));
    assert!(rt; has_tokens(rt.alloc(), b"//", &[]));
    assert!(rt; has_tokens(rt.alloc(), b"// a\rb", &[token(TokenKind::Name, 5, 6)]));
    assert!(rt; has_tokens(rt.alloc(), b"// /* a\nb", &[token(TokenKind::Name, 8, 9)]));
    assert!(rt; has_tokens(rt.alloc(), b"//**/b", &[token(TokenKind::Name, 5, 6)]));
    assert!(rt; has_tokens(rt.alloc(), b"//* a\n*/b", &[token(TokenKind::Name, 8, 9)]));
    assert!(rt; is_one(rt.alloc(), b"/**/", TokenKind::Comment));
    assert!(rt; is_one(rt.alloc(), b"/* a **/", TokenKind::Comment));
    assert!(rt; has_fault(rt.alloc(), b"a /*/", LexFault::Token(2)));
    assert!(rt; has_fault(rt.alloc(), b"a //*/ *", LexFault::Token(2)));
    assert!(rt; has_fault(rt.alloc(), b"a /* b", LexFault::Token(2)));
}

#[test]
fn quotes_hold_plain_bytes_and_escapes(rt: HostRuntime) {
    assert!(rt; is_one(rt.alloc(), b"''", TokenKind::Name));
    assert!(rt; is_one(rt.alloc(), b"\"\"", TokenKind::Quote));
    assert!(rt; is_one(rt.alloc(), b"'\\'\\\"\\b\\f\\t\\n\\\\'", TokenKind::Name));
    assert!(rt; is_one(rt.alloc(), b"\"it's \xC3\xA9\"", TokenKind::Quote));
    assert!(rt; has_fault(rt.alloc(), b"a 'b\tc'", LexFault::Token(2)));
    assert!(rt; has_fault(rt.alloc(), b"a 'b\x7F'", LexFault::Token(2)));
    assert!(rt; has_fault(rt.alloc(), b"a '\\r'", LexFault::Token(2)));
    assert!(rt; has_fault(rt.alloc(), b"a 'b\\'", LexFault::Token(2)));
    assert!(rt; has_fault(rt.alloc(), b"a \"", LexFault::Token(2)));
    assert!(rt; has_fault(rt.alloc(), b"\xC3\xA9", LexFault::Token(0)));
}

#[test]
fn faults_come_in_their_order(rt: HostRuntime) {
    assert!(rt; has_fault(rt.alloc(), b"\xFFa", LexFault::Encoding(0)));
    assert!(rt; has_fault(rt.alloc(), b"! \xED\xA0\x80 a", LexFault::Encoding(2)));
    assert!(rt; has_fault(rt.alloc(), b"a \xC3", LexFault::Encoding(2)));
    let deep = [b'('; 65];
    assert!(rt; has_fault(rt.alloc(), &deep, LexFault::TooDeep(64)));
    assert!(rt; lexed(rt.alloc(), &deep[..64], Language::Sysml).is_ok());
    let mut closed = [b'['; 66];
    closed[0] = b')';
    assert!(rt; has_fault(rt.alloc(), &closed, LexFault::TooDeep(65)));
    closed[65] = b'!';
    assert!(rt; has_fault(rt.alloc(), &closed, LexFault::Token(65)));
}

#[test]
fn words_are_of_their_language(rt: HostRuntime) {
    assert!(rt; is_one(rt.alloc(), b"about", TokenKind::Word(0)));
    assert!(rt; is_one(rt.alloc(), b"xor", TokenKind::Word(128)));
    assert!(rt; is_one(rt.alloc(), b"xor_", TokenKind::Name));
    assert!(rt; is_one(rt.alloc(), b"classifier", TokenKind::Name));
    assert!(rt; is_one(rt.alloc(), b"_1a", TokenKind::Name));
    match lexed(rt.alloc(), b"xor classifier 1a", Language::Kerml) {
        Ok(list) => {
            let expected = [
                token(TokenKind::Word(101), 0, 3),
                token(TokenKind::Word(13), 4, 14),
                token(TokenKind::Integer, 15, 16),
                token(TokenKind::Name, 16, 17),
            ];
            assert!(rt; list.as_slice() == expected.as_slice());
        }
        Err(_) => assert!(rt; false),
    }
}

#[test]
fn names_and_strings_are_spelt_canonically(rt: HostRuntime) {
    assert!(rt;
        is_text(
            respelt_name(rt.alloc(), b"'part'", Language::Kerml),
            b"part"
        )
    );
    assert!(rt;
        is_text(
            respelt_name(rt.alloc(), b"'part'", Language::Sysml),
            b"'part'"
        )
    );
    assert!(rt; is_text(respelt_name(rt.alloc(), b"'x'", Language::Sysml), b"x"));
    assert!(rt; is_text(respelt_name(rt.alloc(), b"''", Language::Sysml), b"''"));
    assert!(rt;
        is_text(
            respelt_name(rt.alloc(), b"'\\'\\\"\\b\\f\\t\\n\\\\'", Language::Sysml),
            b"'\\'\"\\b\\f\\t\\n\\\\'"
        )
    );
    assert!(rt;
        is_text(
            respelt_string(rt.alloc(), b"\"it\\'s \\\"\xC3\xA9\"", Language::Sysml),
            b"\"it's \\\"\xC3\xA9\""
        )
    );
}

#[test]
fn comments_are_what_is_between_their_marks(rt: HostRuntime) {
    assert!(rt; is_text(comment(rt.alloc(), b"/**/"), b""));
    assert!(rt; is_text(comment(rt.alloc(), b"/* a\r\n **/ b"), b" a\r\n *"));
    assert!(rt; is_text(comment(rt.alloc(), b"/*/* \xC3\xA9*/"), b"/* \xC3\xA9"));
    assert!(rt; comment(rt.alloc(), b"//* a */").is_none());
}

#[test]
fn integers_go_up_to_the_greatest(rt: HostRuntime) {
    assert!(rt; integer(rt.alloc(), b"0") == Some(0));
    assert!(rt; integer(rt.alloc(), b"00090") == Some(90));
    assert!(rt; integer(rt.alloc(), b"9223372036854775807") == Some(i64::MAX));
    assert!(rt; integer(rt.alloc(), b"9223372036854775808").is_none());
    assert!(rt; integer(rt.alloc(), b"99999999999999999999999").is_none());
}
