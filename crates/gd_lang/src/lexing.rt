//! Lines to tokens.

ghost use Rattle.std.specs.Prelude.{◌≡◌, ◌≢◌, ◌≤◌, [], ◌∷◌, List, length, MatchResult, Result};
ghost use Rattle.gd_lang.specs.Lexing.{Between, Escaped, Inside, Quoted, Second, behind, is_octal, letter_of, mark_of, parts, tokens_at, tokens_of, with_mark, with_token, word_on};
ghost use Rattle.gd_lang.specs.Refusals.{Answers, Refuses};
ghost use Rattle.gd_lang.specs.declared.errors.LangError.{LangError};
ghost use Rattle.gd_lang.specs.declared.tokens.Token.{Token};
ghost use Rattle.gd_lang.specs.declared.tokens.Token.TheVariants.{Word};

use crate::{LangError, Token, Tokens};
use gd_base::Datum;
use std::alloc::Global;

fn mark_of(byte: u8) -> Option<Token>
    ensures { result ≡ mark_of byte }
{
    match byte {
        b'{' => Some(Token::LeftBrace),
        b'}' => Some(Token::RightBrace),
        b',' => Some(Token::Comma),
        _ => None,
    }
}

/// Whether a byte parts words, with these behind it.
fn parts(byte: u8, behind: &[u8]) -> bool
    ensures { result ≡ parts byte behind.now }
{
    byte == b' ' || byte == b'\t' || (byte == b'\r' && behind.is_empty()) || mark_of(byte).is_some()
}

/// The byte of an escape of one letter.
fn letter_of(byte: u8) -> Option<u8>
    ensures { result ≡ letter_of byte }
{
    match byte {
        b'\\' | b'"' => Some(byte),
        b'a' => Some(7),
        b'b' => Some(8),
        b'f' => Some(12),
        b'n' => Some(b'\n'),
        b'r' => Some(b'\r'),
        b't' => Some(b'\t'),
        b'v' => Some(11),
        _ => None,
    }
}

/// Whether a byte is a digit up to this one.
fn is_octal(highest: u8, byte: u8) -> bool
    ensures { result ≡ is_octal highest byte }
{
    b'0' <= byte && byte <= highest
}

/// Puts the byte of an octal escape behind a word, of which the first digit has come. Answers what stands behind the escape.
fn octal<'a>(word: &mut Vec<u8>, first: u8, rest: &'a [u8]) -> Result<&'a [u8], LangError>
    requires { first ≤ 3 }
    ensures { MatchResult result (λ left. (tokens_at (Second word.old.items first) rest.now ≡ tokens_at (Quoted word.new.items) left.now) × (length left.now ≤ length rest.now)) (λ e. Refuses e (tokens_at (Second word.old.items first) rest.now)) }
{
    let [second, rest @ ..] = rest else {
        return Err(LangError::Quote);
    };
    if !is_octal(b'7', *second) {
        return Err(LangError::Escape);
    }
    let [third, left @ ..] = rest else {
        return Err(LangError::Quote);
    };
    if !is_octal(b'7', *third) {
        return Err(LangError::Escape);
    }
    let number = 8 * (8 * first + (*second - b'0')) + (*third - b'0');
    if word.push(number).is_err() {
        return Err(LangError::OutOfMemory);
    }
    Ok(left)
}

/// Puts the byte of an escape behind a word, whose backslash has come. Answers what stands behind the escape.
fn escape<'a>(word: &mut Vec<u8>, rest: &'a [u8]) -> Result<&'a [u8], LangError>
    ensures { MatchResult result (λ left. (tokens_at (Escaped word.old.items) rest.now ≡ tokens_at (Quoted word.new.items) left.now) × (length left.now ≤ length rest.now)) (λ e. Refuses e (tokens_at (Escaped word.old.items) rest.now)) }
{
    let [first, left @ ..] = rest else {
        return Err(LangError::Quote);
    };
    match letter_of(*first) {
        Some(byte) => {
            if word.push(byte).is_err() {
                return Err(LangError::OutOfMemory);
            }
            Ok(left)
        }
        None => {
            if !is_octal(b'3', *first) {
                return Err(LangError::Escape);
            }
            octal(word, *first - b'0', left)
        }
    }
}

/// Puts what a byte begins in quotes behind a word: an escape, or the byte itself. Answers what stands behind it.
fn quoted_part<'a>(word: &mut Vec<u8>, byte: u8, rest: &'a [u8]) -> Result<&'a [u8], LangError>
    requires { byte ≢ 34 }
    ensures { MatchResult result (λ left. (tokens_at (Quoted word.old.items) (byte ∷ rest.now) ≡ tokens_at (Quoted word.new.items) left.now) × (length left.now ≤ length rest.now)) (λ e. Refuses e (tokens_at (Quoted word.old.items) (byte ∷ rest.now))) }
{
    if byte == b'\\' {
        return escape(word, rest);
    }
    if word.push(byte).is_err() {
        return Err(LangError::OutOfMemory);
    }
    Ok(rest)
}

/// Puts the bytes of a part in quotes behind a word, whose opening quote has come. Answers what stands behind the closing one.
fn quoted<'a>(word: &mut Vec<u8>, rest: &'a [u8]) -> Result<&'a [u8], LangError>
    ensures { MatchResult result (λ left. (tokens_at (Quoted word.old.items) rest.now ≡ tokens_at (Inside word.new.items) left.now) × (length left.now ≤ length rest.now)) (λ e. Refuses e (tokens_at (Quoted word.old.items) rest.now)) }
{
    let mut left = rest;
    while let [byte, behind @ ..] = left {
        if *byte == b'"' {
            return Ok(behind);
        }
        left = quoted_part(word, *byte, behind)?;
    }
    Err(LangError::Quote)
}

/// Puts what a byte begins behind a word: a part in quotes, or the byte itself. Answers what stands behind it.
fn word_part<'a>(word: &mut Vec<u8>, byte: u8, rest: &'a [u8]) -> Result<&'a [u8], LangError>
    ensures { MatchResult result (λ left. (word_on word.old.items byte (λ place. tokens_at place rest.now) ≡ tokens_at (Inside word.new.items) left.now) × (length left.now ≤ length rest.now)) (λ e. Refuses e (word_on word.old.items byte (λ place. tokens_at place rest.now))) }
{
    if byte == b'"' {
        return quoted(word, rest);
    }
    if word.push(byte).is_err() {
        return Err(LangError::OutOfMemory);
    }
    Ok(rest)
}

/// Puts the other parts of a word behind the first ones. Answers what stands behind the word.
fn word_rest<'a>(word: &mut Vec<u8>, rest: &'a [u8]) -> Result<&'a [u8], LangError>
    ensures { MatchResult result (λ left. (tokens_at (Inside word.old.items) rest.now ≡ with_token (Word word.new.items) (tokens_at Between left.now)) × (length left.now ≤ length rest.now)) (λ e. Refuses e (tokens_at (Inside word.old.items) rest.now)) }
{
    let mut left = rest;
    while let [byte, behind @ ..] = left {
        if parts(*byte, behind) {
            return Ok(left);
        }
        left = word_part(word, *byte, behind)?;
    }
    Ok(left)
}

/// Puts the word that a byte begins behind the tokens. Answers what stands behind the word.
fn push_word<'a>(
    alloc: Global,
    tokens: &mut Tokens,
    byte: u8,
    rest: &'a [u8],
) -> Result<&'a [u8], LangError>
    ensures { MatchResult result (λ left. (behind tokens.old (word_on [] byte (λ place. tokens_at place rest.now)) ≡ behind tokens.new (tokens_at Between left.now)) × (length left.now ≤ length rest.now)) (λ e. Refuses e (word_on [] byte (λ place. tokens_at place rest.now))) }
{
    let mut word = Vec::new(alloc);
    let begun = word_part(&mut word, byte, rest)?;
    let left = word_rest(&mut word, begun)?;
    if tokens.push(Token::Word(Datum::from(word))).is_err() {
        return Err(LangError::OutOfMemory);
    }
    Ok(left)
}

/// Puts the mark behind the tokens that a byte is, if it is one.
fn push_mark(tokens: &mut Tokens, byte: u8) -> Result<(), LangError>
    ensures { MatchResult result (λ _. (left : Result (List Token) LangError) → behind tokens.old (with_mark byte left) ≡ behind tokens.new left) (λ e. e ≡ LangError.OutOfMemory) }
{
    match mark_of(byte) {
        Some(mark) => {
            if tokens.push(mark).is_err() {
                return Err(LangError::OutOfMemory);
            }
            Ok(())
        }
        None => Ok(()),
    }
}

/// The words and marks of a line. A refusal is the first one from the left; want of memory may be answered for any line.
pub fn lex(alloc: Global, line: &[u8]) -> Result<Tokens, LangError>
    ensures { Answers result (tokens_of line.now) }
{
    let mut tokens = Tokens::new(alloc);
    let mut left = line;
    while let [byte, behind @ ..] = left {
        if parts(*byte, behind) {
            push_mark(&mut tokens, *byte)?;
            left = behind;
        } else if *byte == b'#' {
            return Ok(tokens);
        } else {
            left = push_word(alloc, &mut tokens, *byte, behind)?;
        }
    }
    Ok(tokens)
}
