//! The tokens of a walk line with groups.
ghost use Rattle.std.specs.Prelude.{◌≡◌, ◌<◌, ◌≤◌, [], length, Some, None, MatchResult, MatchOption};
ghost use Rattle.text_scan.specs.Each.{each_some, some_first};
ghost use Rattle.walk_files.specs.LineReads.{no_walk};
ghost use Rattle.walk_files.specs.WalkTexts.{token_of};
ghost use Rattle.walk_files.specs.declared.fault.WalkFault.TheVariants.{BadNumber};

use crate::fault::WalkFault;
use text_scan::{Line, Words, number};

/// A word of a walk line with groups.
#[derive(Clone, Copy, Debug, PartialEq, Eq)]
pub(crate) enum Token {
    /// A group begins.
    Open,
    /// A group ends. Its power follows.
    Close,
    /// A vertex, or a power.
    Number(u32),
}

/// The token that a word is.
fn read_token(word: &[u8]) -> Option<Token>
    ensures { result ≡ token_of word.now }
{
    if word == b"(".as_slice() {
        return Some(Token::Open);
    }
    if word == b")".as_slice() {
        return Some(Token::Close);
    }
    number(word).map(Token::Number)
}

/// The tokens of a line, one after the other.
#[derive(Debug, Drop)]
pub(crate) struct Tokens<'a> {
    line: u64,
    words: Words<'a>,
}

impl<'a> Tokens<'a> {
    ghost use Rattle.std.specs.Prelude.{ℕ, List, Option, Err, OnOk};
    ghost use Rattle.walk_files.specs.LineReads.{NeedsNumber};
    ghost use Rattle.walk_files.specs.WalkTexts.{read_tokens};
    ghost use Rattle.walk_files.specs.declared.tokens.Token.{Token};
    ghost use Rattle.walk_files.specs.declared.tokens.Token.TheVariants.{Number};

    /// A place before the first token of a line.
    pub(crate) fn of(line: &Line<'a>) -> Tokens<'a>
        ensures line { result.line ≡ line.now.number }
        ensures words { result.words ≡ line.now.words }
    {
        Tokens {
            line: line.number(),
            words: line.words(),
        }
    }

    /// The next token; `None` behind the last. A word that is none is the fault of the line.
    pub(crate) fn next(&mut self) -> Result<Option<Token>, WalkFault>
        ensures token { MatchResult result
            (λ found. MatchOption found ((self.old.words ≡ []) × (self.new.words ≡ []))
            (λ token. (each_some token_of self.old.words ≡ some_first (Some token) (each_some token_of self.new.words))
            × (length self.new.words < length self.old.words)))
            (λ fault. (fault ≡ BadNumber self.old.line) × (each_some token_of self.old.words ≡ None)) }
        ensures line { self.new.line ≡ self.old.line }
    {
        let Some(word) = self.words.next() else {
            return Ok(None);
        };
        match read_token(word) {
            Some(token) => Ok(Some(token)),
            None => Err(WalkFault::BadNumber { line: self.line }),
        }
    }

    /// The number that the next token is. Where it is none, the line is no walk, if a number has to stand there.
    pub(crate) fn number(&mut self) -> Result<u32, WalkFault>
        ensures number { MatchResult result
            (λ number. (each_some token_of self.old.words ≡ some_first (Some (Number number)) (each_some token_of self.new.words))
            × (length self.new.words < length self.old.words))
            (λ fault. (meaning : List Token → Option (List ℕ)) → NeedsNumber meaning
            → read_tokens meaning self.old.line (each_some token_of self.old.words) ≡ Err fault) }
        ensures line { OnOk result (self.new.line ≡ self.old.line) }
    {
        let Some(token) = self.next()? else {
            return Err(self.no_walk());
        };
        match token {
            Token::Number(number) => Ok(number),
            Token::Open => Err(self.no_walk()),
            Token::Close => Err(self.no_walk()),
        }
    }

    /// The fault of a line whose tokens so far begin no walk: a word left that is no token comes before it.
    pub(crate) fn no_walk(&mut self) -> WalkFault
        ensures { result ≡ no_walk self.old.line self.old.words }
    {
        while let Some(word) = self.words.next() {
            if read_token(word).is_none() {
                return WalkFault::BadNumber { line: self.line };
            }
        }
        WalkFault::BadGroup { line: self.line }
    }
}
