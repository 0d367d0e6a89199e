use super::tokens_of;
use crate::{LangError, Token};
use std::test::Fail;

/// A line, and its words and marks with a bar behind each, or its refusal. A mark stands as itself behind a tilde.
const ROWS: [(&[u8], Result<&[u8], LangError>); 34] = [
    (b"", Ok(b"")),
    (b" \t ", Ok(b"")),
    (b"\r", Ok(b"")),
    (b"# x \"", Ok(b"")),
    (b"a", Ok(b"a|")),
    (b" a\tb  c\r", Ok(b"a|b|c|")),
    (b"a\rb", Ok(b"a\rb|")),
    (b"a#b #c", Ok(b"a#b|")),
    (b"a,#b", Ok(b"a|~,|")),
    (b"\"\"#b", Ok(b"#b|")),
    (b"{a,b}", Ok(b"~{|a|~,|b|~}|")),
    (b"x{ }y,", Ok(b"x|~{|~}|y|~,|")),
    (b"\"{,} #\"", Ok(b"{,} #|")),
    (b"\"\"", Ok(b"|")),
    (b"a\"b c\"d", Ok(b"ab cd|")),
    (b"\"a\"\"b\" \"c\"", Ok(b"ab|c|")),
    (b"a\\n", Ok(b"a\\n|")),
    (b"\"\\\\\\\"\"", Ok(b"\\\"|")),
    (b"\"\\a\\b\\f\\n\"", Ok(b"\x07\x08\x0c\n|")),
    (b"\"\\r\\t\\v\"", Ok(b"\r\t\x0b|")),
    (b"\"\\000\\101\\377\"", Ok(b"\0A\xff|")),
    (b"\"\\1012\"", Ok(b"A2|")),
    (b"\"a", Err(LangError::Quote)),
    (b"a\"", Err(LangError::Quote)),
    (b"\"a\\", Err(LangError::Quote)),
    (b"\"\\1", Err(LangError::Quote)),
    (b"\"\\12", Err(LangError::Quote)),
    (b"\"\\4", Err(LangError::Escape)),
    (b"\"\\400\"", Err(LangError::Escape)),
    (b"\"\\x\"", Err(LangError::Escape)),
    (b"\"\\18\"", Err(LangError::Escape)),
    (b"\"\\128\"", Err(LangError::Escape)),
    (b"\"\\\r", Err(LangError::Escape)),
    (b"\"\\q\" \"", Err(LangError::Escape)),
];

fn shown(alloc: std::alloc::Global, tokens: &[Token]) -> Result<Vec<u8>, Fail> {
    let mut text = Vec::new(alloc);
    for token in tokens {
        match token {
            Token::Word(word) => text.extend_from_slice(word.as_slice())?,
            Token::LeftBrace => text.extend_from_slice(b"~{")?,
            Token::RightBrace => text.extend_from_slice(b"~}")?,
            Token::Comma => text.extend_from_slice(b"~,")?,
        }
        text.push(b'|')?;
    }
    Ok(text)
}

#[test]
fn lines_are_words_and_marks_or_the_first_fault(rt: HostRuntime) -> Result<(), Fail> {
    let alloc = rt.alloc();
    for (line, expected) in ROWS {
        match tokens_of(alloc, line)? {
            Ok(tokens) => match expected {
                Ok(text) => {
                    let shown = shown(alloc, tokens.as_slice())?;
                    assert_eq!(rt; shown.as_slice(), text);
                }
                Err(error) => assert!(rt; false, "{error:?}"),
            },
            Err(error) => match expected {
                Ok(_) => assert!(rt; false, "{error:?}"),
                Err(refusal) => assert_eq!(rt; error, refusal),
            },
        }
    }
    Ok(())
}
